//! Wires of which it is noted how much came, and how what each peer says begins.
ghost use Rattle.std.specs.Prelude.{◌≡◌};

use cf_bytes::{MAGIC, MOST_PEERS, NoMemory, PeerNo};
use cf_wires::{Delivery, WireFail, Wires};

// So many bytes say of which network a frame is.
const FRONT: usize = 4;

/// How what a peer says begins.
#[derive(Clone, Copy)]
pub enum Front {
    /// It has said nothing.
    Silent,
    /// As a frame of regtest, as far as its first bytes tell.
    Regtest,
    /// By these bytes, which begin no frame of regtest. A byte that wasn't there is 0.
    Other([u8; FRONT]),
}

// How bytes begin, of which there are some.
fn front_of(bytes: &[u8]) -> Front {
    let n = bytes.len().min(FRONT);
    if MAGIC.starts_with(&bytes[..n]) {
        return Front::Regtest;
    }
    let mut front = [0u8; FRONT];
    front[..n].copy_from_slice(&bytes[..n]);
    Front::Other(front)
}

/// Wires of which it is noted how many deliveries were taken, and how what each peer says begins.
#[derive(Drop)]
pub struct Heard<W> {
    /// The wires.
    pub wires: W,
    taken: u32,
    fronts: [Front; MOST_PEERS],
}

impl<W> Heard<W> {
    /// These wires, of which nothing was taken.
    pub fn new(wires: W) -> Heard<W>
        ensures { result.wires ≡ wires }
    {
        Heard {
            wires,
            taken: 0,
            fronts: [Front::Silent; MOST_PEERS],
        }
    }

    /// How many deliveries were taken.
    pub fn taken(&self) -> u32 {
        self.taken
    }

    /// How what a peer said began.
    pub fn front(&self, p: PeerNo) -> Front {
        match self.fronts.get((p.0 as usize).wrapping_sub(1)) {
            Some(front) => *front,
            None => Front::Silent,
        }
    }

    // Takes note of a delivery.
    fn note(&mut self, delivery: &Delivery)
        ensures same { self.new.wires ≡ self.old.wires }
    {
        self.taken = self.taken.saturating_add(1);
        if let Delivery::Got(p, piece) = delivery {
            if let Some(front) = self.fronts.get_mut((p.0 as usize).wrapping_sub(1)) {
                if let Front::Silent = front {
                    *front = front_of(piece.as_slice());
                }
            }
        }
    }
}

impl<W: Wires> Wires for Heard<W> {
    ghost told = { λ h. W.told h.wires };

    ghost faults = { λ h. W.faults h.wires };

    ghost script = { λ h. W.script h.wires };

    ghost keeps = { λ h. W.keeps h.wires };

    fn keep_log(&mut self) {
        self.wires.keep_log();
    }

    fn dial(&mut self, name: &str) -> Result<PeerNo, WireFail> {
        self.wires.dial(name)
    }

    fn send(&mut self, p: PeerNo, bytes: &[u8]) -> Result<(), WireFail> {
        self.wires.send(p, bytes)
    }

    fn close(&mut self, p: PeerNo) {
        self.wires.close(p);
    }

    fn next(&mut self) -> Result<Delivery, NoMemory> {
        let answer = self.wires.next();
        if let Ok(delivery) = &answer {
            self.note(delivery);
        }
        answer
    }

    fn finish(&mut self) {
        self.wires.finish();
    }

    fn session(&self) -> Result<String, NoMemory> {
        self.wires.session()
    }
}
