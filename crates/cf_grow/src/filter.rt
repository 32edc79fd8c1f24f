//! Filters that are held to be sent.
ghost use Rattle.std.specs.Prelude.{◌≡◌, ◌≤◌, length, IfOk};
ghost use Rattle.cf_frame.specs.{spelling};
ghost use Rattle.cf_msg.specs.declared.msg.Msg.TheVariants.{Cfilter as CfilterMessage};
ghost use Rattle.cf_msg.specs.{frame_of};

use cf_bytes::{Hash32, NoMemory};
use cf_index::SharedFilter;
use cf_server::filter_bytes;
use std::alloc::Global;

/// A filter that is to be sent, and its block's hash. It is shared with the chain, and fits into a frame.
#[derive(Drop)]
pub struct HeldFilter {
    block: Hash32,
    filter: SharedFilter,
    ghost few: { length filter ≤ 3999900 },
}

impl HeldFilter {
    // One that fits.
    pub(crate) fn new(block: Hash32, filter: SharedFilter) -> HeldFilter
        requires { length filter ≤ 3999900 }
        ensures block { result.block ≡ block }
        ensures filter { result.filter ≡ filter }
    {
        HeldFilter { block, filter }
    }

    // The bytes of its frame.
    pub(crate) fn frame(&self, alloc: Global) -> Result<Vec<u8>, NoMemory>
        ensures { IfOk result
            (λ bytes. bytes.items ≡ spelling (frame_of (CfilterMessage 0 self.now.block self.now.filter))) }
    {
        filter_bytes(alloc, self.block, self.filter.as_slice())
    }
}
