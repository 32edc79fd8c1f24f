//! How long the messages of a stream are, as their bytes come.

// How many bytes stand before a payload, and among them the places of its length, the low byte first.
const HEAD: u32 = 24;

const LENGTH_FROM: u32 = 16;

const LENGTH_TO: u32 = 20;

/// Follows the frames of a stream by their lengths. Whether they are frames is for others to judge.
#[derive(Drop)]
pub(crate) struct Meter {
    // How many bytes of a head have come, and the length that they tell so far.
    at: u32,
    length: u32,
    // How many bytes of a payload are still to come.
    left: u32,
    // How many messages have begun.
    begun: u64,
}

impl Meter {
    /// No byte has come.
    pub(crate) fn new() -> Meter {
        Meter {
            at: 0,
            length: 0,
            left: 0,
            begun: 0,
        }
    }

    // A byte of a head has come.
    fn add_to_head(&mut self, byte: u8) {
        if self.at == 0 {
            self.begun = self.begun.saturating_add(1);
        }
        if self.at >= LENGTH_FROM && self.at < LENGTH_TO {
            self.length = (self.length >> 8) | (u32::from(byte) << 24);
        }
        self.at = self.at.saturating_add(1);
        if self.at >= HEAD {
            self.at = 0;
            self.left = self.length;
        }
    }

    /// These bytes have come.
    pub(crate) fn add(&mut self, bytes: &[u8]) {
        for byte in bytes {
            if self.left > 0 {
                self.left = self.left.saturating_sub(1);
            } else {
                self.add_to_head(*byte);
            }
        }
    }

    /// How many messages have begun.
    pub(crate) fn begun(&self) -> u64 {
        self.begun
    }

    /// How many bytes of the last payload are still to come, as far as its length is known.
    pub(crate) fn left(&self) -> u32 {
        self.left
    }

    /// Whether no message is under way.
    pub(crate) fn is_between(&self) -> bool {
        self.at == 0 && self.left == 0
    }
}
