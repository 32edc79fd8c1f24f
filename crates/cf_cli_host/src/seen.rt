//! What is seen at a glance of the files that a user hands in: marks of a line that can't be watched, a script that can
//! hardly be one, and how a file of blocks begins.

use thiserror::Error;

/// What a line of a watch file is, which is neither a script in hexadecimal nor an address of regtest.
#[derive(Clone, Copy, Debug, PartialEq, Eq, Error)]
pub enum LineKind {
    /// It begins a file of blocks.
    #[error("it is a file of blocks, where a file of scripts is wanted (`cf scan FILE WATCH`)")]
    Blocks,
    /// It has bytes of no text.
    #[error("it isn't a text; each line is to be one script in hexadecimal, or an address of regtest")]
    Binary,
    /// A byte order mark stands before it.
    #[error("it begins with a byte order mark; the file is to have none")]
    Mark,
    /// It is a descriptor.
    #[error("it is a descriptor; `deriveaddresses` tells its addresses, of which each takes a line")]
    Descriptor,
    /// It is an extended key.
    #[error("it is an extended key; each address of its own takes a line")]
    Extended,
    /// It ends with CR.
    #[error("it ends with CR, as on DOS; lines are to end with LF alone")]
    Return,
    /// It has a blank.
    #[error("it has a blank; a line is to have nothing but one script")]
    Blank,
    /// It begins with `0x`.
    #[error("it begins with 0x; the digits alone are to stand there")]
    Prefix,
    /// It is an address of another network.
    #[error("it is an address of another network; those of regtest begin with bcrt1")]
    OtherNetwork,
    /// It is an address of the older form.
    #[error("it is an address in base58; `getaddressinfo` tells its scriptPubKey, which can stand here")]
    Base58,
}

fn begins(line: &[u8], with: &str) -> bool {
    line.starts_with(with.as_bytes())
}

fn is_blank(b: &u8) -> bool {
    *b == b' ' || *b == b'\t'
}

// A character of base58.
fn is_of_base58(b: &u8) -> bool {
    b.is_ascii_alphanumeric() && !matches!(*b, b'0' | b'O' | b'I' | b'l')
}

// Whether a line is an extended key of any network, public or private, by its front.
fn is_extended(line: &[u8]) -> bool {
    match line {
        [b'a'..=b'z' | b'A'..=b'Z', b'p', b'u', b'b', ..]
        | [b'a'..=b'z' | b'A'..=b'Z', b'p', b'r', b'v', ..] => true,
        _ => false,
    }
}

fn is_of_other_network(line: &[u8]) -> bool {
    begins(line, "bc1") || begins(line, "tb1") || begins(line, "BC1") || begins(line, "TB1")
}

fn is_base58(line: &[u8]) -> bool {
    let fits = line.len() >= 26 && line.len() <= 35;
    let fronted = matches!(line.first(), Some(b'1' | b'2' | b'3' | b'm' | b'n'));
    fits && fronted && line.iter().all(is_of_base58)
}

// A byte that stands in no line of ASCII.
fn is_of_no_text(b: &u8) -> bool {
    !matches!(*b, b' '..=b'~' | b'\t' | b'\r')
}

// What a line is, where it has a mark of something that can't be watched.
fn kind_of(line: &[u8]) -> Option<LineKind> {
    if line.starts_with(&[0xfa, 0xbf, 0xb5, 0xda]) {
        Some(LineKind::Blocks)
    } else if line.starts_with(&[0xef, 0xbb, 0xbf]) {
        Some(LineKind::Mark)
    } else if line.iter().any(is_of_no_text) {
        Some(LineKind::Binary)
    } else if line.contains(&b'(') {
        Some(LineKind::Descriptor)
    } else if is_extended(line) {
        Some(LineKind::Extended)
    } else if line.last() == Some(&b'\r') {
        Some(LineKind::Return)
    } else if line.iter().any(is_blank) {
        Some(LineKind::Blank)
    } else if begins(line, "0x") || begins(line, "0X") {
        Some(LineKind::Prefix)
    } else if is_of_other_network(line) {
        Some(LineKind::OtherNetwork)
    } else if is_base58(line) && !is_hex(line) {
        Some(LineKind::Base58)
    } else {
        None
    }
}

/// The first line of a watch file that has a mark of something that can't be watched, by its number from 1, and what it
/// is. It is at or behind the first line that is refused.
pub fn marked_line(bytes: &[u8]) -> Option<(u32, LineKind)> {
    let mut place = 0u32;
    for line in bytes.split(|b| *b == b'\n') {
        place = place.saturating_add(1);
        if let Some(kind) = kind_of(line) {
            return Some((place, kind));
        }
    }
    None
}

/// What bytes are that can hardly be a script.
#[derive(Clone, Copy, Debug, PartialEq, Eq, Error)]
pub enum Doubt {
    /// They look like a public key.
    #[error("a public key")]
    Key,
    /// They are as many as a hash has.
    #[error("a hash")]
    Hash,
}

fn is_hex(line: &[u8]) -> bool {
    line.iter().all(|b| b.is_ascii_hexdigit())
}

// Whether these digits begin a witness program that has as many bytes as the second of theirs says.
fn is_program(line: &[u8], second: &str) -> bool {
    let version = begins(line, "00")
        || begins(line, "60")
        || (begins(line, "5") && !begins(line, "50"));
    match line {
        [_, _, rest @ ..] => version && begins(rest, second),
        _ => false,
    }
}

// What the script of a line is, where it can hardly be one: by how many digits it has, and how it begins.
fn doubt_of(line: &[u8]) -> Option<Doubt> {
    if !is_hex(line) {
        return None;
    }
    match line.len() {
        66 if begins(line, "02") || begins(line, "03") => Some(Doubt::Key),
        130 if begins(line, "04") => Some(Doubt::Key),
        40 if !is_program(line, "12") => Some(Doubt::Hash),
        64 if !is_program(line, "1e") && !is_program(line, "1E") => Some(Doubt::Hash),
        _ => None,
    }
}

/// The first line of a watch file whose script can hardly be one, by its number from 1, how many bytes it has, and what
/// they are.
pub fn doubtful_line(bytes: &[u8]) -> Option<(u32, usize, Doubt)> {
    let mut place = 0u32;
    for line in bytes.split(|b| *b == b'\n') {
        place = place.saturating_add(1);
        if let Some(doubt) = doubt_of(line) {
            return Some((place, line.len() / 2, doubt));
        }
    }
    None
}

/// The network whose frames, and records in a file of blocks, begin with these bytes.
pub fn network_of(front: [u8; 4]) -> Option<&'static str> {
    match front {
        [0xf9, 0xbe, 0xb4, 0xd9] => Some("mainnet"),
        [0x0b, 0x11, 0x09, 0x07] => Some("testnet3"),
        [0x1c, 0x16, 0x3f, 0x28] => Some("testnet4"),
        [0x0a, 0x03, 0xcf, 0x40] => Some("signet"),
        _ => None,
    }
}
