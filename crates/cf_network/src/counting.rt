//! What has come from a peer.

/// The bytes of a header within its message: 80 of its own, and a zero.
const HEADER: u32 = 81;

/// Reads over a peer's frames as their bytes come, and counts the headers, filters, blocks and pings in them.
#[derive(Clone, Copy)]
pub(crate) struct Counts {
    // The first bytes of a frame, as far as they have come: magic, command, length and checksum.
    head: [u8; 24],
    have: usize,
    // How many bytes of its payload are still to come.
    left: u32,
    headers: u32,
    filters: u32,
    blocks: u32,
    pings: u32,
}

impl Counts {
    /// Nothing has come yet.
    pub(crate) fn new() -> Counts {
        Counts {
            head: [0; 24],
            have: 0,
            left: 0,
            headers: 0,
            filters: 0,
            blocks: 0,
            pings: 0,
        }
    }

    /// How many headers have come.
    pub(crate) fn headers(&self) -> u32 {
        self.headers
    }

    /// How many filters have come.
    pub(crate) fn filters(&self) -> u32 {
        self.filters
    }

    /// How many blocks have come.
    pub(crate) fn blocks(&self) -> u32 {
        self.blocks
    }

    /// How many pings have begun to come since they were forgotten.
    pub(crate) fn pings(&self) -> u32 {
        self.pings
    }

    /// Counts pings from 0.
    pub(crate) fn forget_pings(&mut self) {
        self.pings = 0;
    }

    // The first bytes of a frame have come.
    fn begin(&mut self) {
        let head = self.head;
        let command = &head[4..16];
        let length = u32::from_le_bytes([head[16], head[17], head[18], head[19]]);
        if command == b"headers\0\0\0\0\0".as_slice() {
            // Their number stands before them, and is shorter than one.
            self.headers = self.headers.saturating_add(length / HEADER);
        }
        if command == b"cfilter\0\0\0\0\0".as_slice() {
            self.filters = self.filters.saturating_add(1);
        }
        if command == b"block\0\0\0\0\0\0\0".as_slice() {
            self.blocks = self.blocks.saturating_add(1);
        }
        if command == b"ping\0\0\0\0\0\0\0\0".as_slice() {
            self.pings = self.pings.saturating_add(1);
        }
        self.have = 0;
        self.left = length;
    }

    fn take_byte(&mut self, byte: u8) {
        if self.left > 0 {
            self.left -= 1;
            return;
        }
        if let Some(at) = self.head.get_mut(self.have) {
            *at = byte;
        }
        self.have = self.have.saturating_add(1);
        if self.have >= self.head.len() {
            self.begin();
        }
    }

    /// More bytes have come.
    pub(crate) fn take(&mut self, bytes: &[u8]) {
        match u32::try_from(bytes.len()) {
            Ok(n) if n <= self.left => self.left -= n,
            _ => {
                for byte in bytes {
                    self.take_byte(*byte);
                }
            }
        }
    }
}
