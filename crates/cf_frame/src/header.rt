//! The first 24 bytes of a frame.
ghost use Rattle.std.specs.Prelude.{◌≡◌, ◌==◌, ◌≤◌, ◌++◌, length, take_while, IfOk, IfNone, true};
ghost use Rattle.std.specs.Int.{w32, to_le_bytes};
ghost use Rattle.std.specs.List.{list_all};
ghost use Rattle.cf_bytes.specs.{Reads, magic};
ghost use Rattle.cf_frame.specs.Frame.{is_command as is_command_of, is_printable as printable_of};
ghost use Rattle.cf_frame.specs.Reading.{header_at, header_fault};

use crate::frame::{FrameFault, MAX_PAYLOAD};
use cf_bytes::{Cut, CutFault, MAGIC};

/// The fields of a header as they stand there, not judged yet.
#[derive(Drop)]
pub(crate) struct Header {
    pub(crate) magic: [u8; 4],
    pub(crate) command: [u8; 12],
    pub(crate) len: u32,
    pub(crate) checksum: [u8; 4],
}

/// Reads a header, which is refused only where fewer than 24 bytes are left.
#[tactic(auto, unfolding(crate::specs::Reading::header_at))]
pub(crate) fn read_header(cut: &mut Cut) -> Result<Header, CutFault>
    ensures exact { Reads (λ h. h) (header_at cut.old) result cut.new }
    ensures found { IfOk result
        (λ h. (cut.old ≡ h.magic ++ (h.command ++ (to_le_bytes w32 h.len ++ (h.checksum ++ cut.new))))
        × (length h.command ≡ 12)) }
{
    let magic = cut.array()?;
    let command = cut.array()?;
    let len = cut.u32()?;
    let checksum = cut.array()?;
    Ok(Header {
        magic,
        command,
        len,
        checksum,
    })
}

impl Header {
    /// The first test that the header fails.
    #[tactic(auto, unfolding(crate::specs::Reading::header_fault))]
    pub(crate) fn fault(&self) -> Option<FrameFault>
        ensures exact { result ≡ header_fault self.now }
        ensures good { IfNone result ((self.now.magic ≡ magic) × (is_command_of self.now.command ≡ true)
            × (self.now.len ≤ 4000000)) }
    {
        if self.magic != MAGIC {
            return Some(FrameFault::Magic);
        }
        if !is_command(&self.command) {
            return Some(FrameFault::Command);
        }
        if self.len as usize > MAX_PAYLOAD {
            return Some(FrameFault::Oversize);
        }
        None
    }
}

fn is_printable(b: u8) -> bool
    ensures { result ≡ printable_of b }
{
    0x20 <= b && b <= 0x7e
}

// How many printable bytes stand in front.
fn printable_len(bytes: &[u8]) -> usize
    ensures bound { result ≤ length bytes.now }
    ensures value { result ≡ length (take_while printable_of bytes.now) }
{
    bytes.iter().take_while(|b| is_printable(**b)).count()
}

fn is_padding(bytes: &[u8]) -> bool
    ensures { result ≡ list_all (λ b. b == 0) bytes.now }
{
    bytes.iter().all(|b| *b == 0)
}

// Whether the bytes are printable ones, and then only NUL.
#[tactic(auto, using(std::proofs::lemmas::List::take_rest, std::proofs::lemmas::Grind::common_steps))]
fn is_command(bytes: &[u8]) -> bool
    ensures { result ≡ is_command_of bytes.now }
{
    is_padding(&bytes[printable_len(bytes)..])
}
