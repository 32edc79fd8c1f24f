//! The answers of the program.
ghost use Rattle.std.specs.Prelude.{◌≡◌, ◌≢◌};
ghost use Rattle.cf_answers.specs.Codes.{code_of};
ghost use Rattle.cf_answers.specs.declared.status.Which.TheVariants.{Blocks};
ghost use Rattle.cf_answers.specs.declared.status.Spot.TheVariants.{Line, Nowhere, Record};

use cf_bytes::Hash32;
use cf_input::{AddressCause, ProofCause, SessionCause, WatchCause};
use cf_place::PeerEnd;
use cf_walk::RecordCause;
use thiserror::Error;

/// A file that the program reads.
#[derive(Clone, Copy, Debug, PartialEq, Eq, Error)]
pub enum Which {
    /// The file of the scripts that are watched.
    #[error("watch file")]
    Watch,
    /// The session file.
    #[error("session file")]
    Session,
    /// The file of blocks.
    #[error("block file")]
    Blocks,
    /// The file of a proof.
    #[error("proof file")]
    Proof,
}

/// What is wrong with a file.
#[derive(Clone, Copy, Debug, PartialEq, Eq, Error)]
pub enum FileCause {
    /// It has more bytes than it may have. The place is 0.
    #[error("it is too big")]
    TooBig,
    /// A line of the watch file.
    #[error("{0}")]
    Watch(WatchCause),
    /// A line of the session file.
    #[error("{0}")]
    Session(SessionCause),
    /// A record of the block file.
    #[error("{0}")]
    Blocks(RecordCause),
    /// A line of the file of a proof.
    #[error("{0}")]
    Proof(ProofCause),
}

// Where in a file a fault is, counted from 1.
#[derive(Drop, Debug, Error)]
enum Spot {
    // In none of its records or lines.
    #[error("")]
    Nowhere,
    // In a record of a block file.
    #[error(", record {0}")]
    Record(u32),
    // In a line of another file.
    #[error(", line {0}")]
    Line(u32),
}

// Where in a file the fault at this place is. The place is 0 where it is in no record or line.
fn spot_of(which: Which, place: u32) -> Spot
    ensures nowhere { place ≡ 0 → result ≡ Nowhere }
    ensures record { place ≢ 0 → which ≡ Blocks → result ≡ Record place }
    ensures line { place ≢ 0 → which ≢ Blocks → result ≡ Line place }
{
    if place == 0 {
        return Spot::Nowhere;
    }
    match which {
        Which::Blocks => Spot::Record(place),
        Which::Watch | Which::Session | Which::Proof => Spot::Line(place),
    }
}

/// What the program answers. `code` gives the process's exit status, and `Display` says in one line what went wrong.
#[derive(Drop, Debug, Error)]
pub enum Status {
    /// The command's whole text was written.
    #[error("done")]
    Done,
    /// No memory was found. It may come in place of any other answer.
    #[error("there is not enough memory")]
    NoMemory,
    /// The words ask for nothing that the program does.
    #[error("the words are no command")]
    Usage,
    /// A file isn't in its grammar or profile: the first line or record that is refused, counted from 1, and why.
    #[error("the {which}{}: {cause}", spot_of(*.which, *.place))]
    BadFile {
        which: Which,
        place: u32,
        cause: FileCause,
    },
    /// A file could not be read; or one could not be written: that of `make`, or the record of a run.
    #[error("a file could not be read")]
    FileFault,
    /// The text could not be written. What was written is the beginning of it.
    #[error("the text could not be written")]
    OutFault,
    /// Each peer was closed, has gone, or was not dialled; how each stands, by its number from 1.
    #[error("no peer is left")]
    NoPeers {
        ends: Vec<PeerEnd>,
    },
    /// The stated number of deliveries was taken, and a request was open.
    #[error("the greatest number of deliveries was taken, and an answer was still to come")]
    Tired,
    /// The wires or the session had nothing more to give, and a request was open.
    #[error("nothing more came, and an answer was still to come")]
    Ended,
    /// The link could not listen, or could accept no further connection. All that were accepted were served.
    #[error("the address can't be listened at, or no connection could be accepted")]
    LinkFault,
    /// None of the nonces from 0 to 65,535 meets the target, at this height of the chain that was to be made.
    #[error("no nonce from 0 to 65535 meets the target at height {height}")]
    NoNonce {
        height: u32,
    },
    /// The height that was asked for is above the file's tip, which has this height.
    #[error("the height is above the tip of the file, which is at {tip}")]
    NoHeight {
        tip: u32,
    },
    /// No block of the file above genesis has a transaction with this hash.
    #[error("no block of the file has a transaction with this hash")]
    NotThere {
        txid: Hash32,
    },
    /// The block of the proof, whose hash this is, isn't in the chain of the file.
    #[error("the block of the proof is not in the chain of the file")]
    NotInChain {
        block: Hash32,
    },
    /// The text is neither an address of regtest nor the script of one.
    #[error("{cause}")]
    NotAddress {
        cause: AddressCause,
    },
}

impl Status {
    /// The process's exit status.
    pub fn code(&self) -> u8
        ensures { result ≡ code_of self.now }
    {
        match self {
            Status::Done => 0,
            Status::NoMemory => 1,
            Status::Usage => 2,
            Status::BadFile { .. } => 3,
            Status::FileFault => 4,
            Status::OutFault => 5,
            Status::NoPeers { .. } => 6,
            Status::Tired => 7,
            Status::Ended => 8,
            Status::LinkFault => 9,
            Status::NoNonce { .. } => 10,
            Status::NoHeight { .. } => 11,
            Status::NotThere { .. } => 12,
            Status::NotInChain { .. } => 12,
            Status::NotAddress { .. } => 13,
        }
    }
}
