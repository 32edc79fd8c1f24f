//! Blocks that were refused lately.
ghost use Rattle.std.specs.Prelude.{◌≡◌, [], List, true};
ghost use Rattle.std.specs.List.{AllByRecursion};
ghost use Rattle.cf_block.specs.declared.tx.Block.{Block};
ghost use Rattle.cf_grow.specs.Growing.{BringsNone};

use cf_bytes::{Listed, NoMemory};
use cf_frame::Frame;
use std::alloc::Global;
use std::marker::Model;

/// How many frames are kept at most.
const MOST_KEPT: usize = 4;

// The frames of the last blocks that may not stand on a chain, at most four. One of them that comes again needn't be
// judged again.
#[derive(Drop)]
pub(crate) struct RefusedBlocks {
    frames: Listed<Frame>,
}

impl Model for RefusedBlocks {
    ghost use Rattle.std.specs.Prelude.{List};
    ghost use Rattle.cf_frame.specs.declared.frame.Frame.{Frame};

    ghost Value = { List Frame };

    ghost view = { λ s. s.frames };
}

impl RefusedBlocks {
    // None yet.
    pub(crate) fn new(alloc: Global) -> RefusedBlocks
        ensures { result ≡ [] }
    {
        RefusedBlocks {
            frames: Listed::new(alloc),
        }
    }

    // Whether this frame is one of them.
    pub(crate) fn has(&self, frame: &Frame) -> bool
        ensures { result ≡ true → (blocks : List Block) → AllByRecursion (BringsNone blocks) self.now
            → BringsNone blocks frame.now }
    {
        for kept in self.frames.as_slice() {
            if is_same(kept, frame) {
                return true;
            }
        }
        false
    }

    // Puts one at the end. Where no memory is found it isn't kept.
    fn put(&mut self, frame: Frame)
        ensures { (blocks : List Block) → AllByRecursion (BringsNone blocks) self.old → BringsNone blocks frame
            → AllByRecursion (BringsNone blocks) self.new }
    {
        match self.frames.push(frame) {
            Ok(()) => {}
            Err(NoMemory) => {}
        }
    }

    // Keeps one more. Once there are four, those are forgotten.
    pub(crate) fn keep(&mut self, frame: Frame)
        ensures { (blocks : List Block) → AllByRecursion (BringsNone blocks) self.old → BringsNone blocks frame
            → AllByRecursion (BringsNone blocks) self.new }
    {
        if self.frames.len() >= MOST_KEPT {
            self.forget();
        }
        self.put(frame);
    }

    // Forgets them all.
    pub(crate) fn forget(&mut self)
        ensures { self.new ≡ [] }
    {
        self.frames.truncate(0);
    }
}

// Whether two frames are the same.
fn is_same(one: &Frame, other: &Frame) -> bool
    ensures { result ≡ true → one.now ≡ other.now }
{
    one.command == other.command && one.payload.as_slice() == other.payload.as_slice()
}
