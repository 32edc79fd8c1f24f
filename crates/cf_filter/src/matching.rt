//! Looking for scripts in a filter.
ghost use Rattle.std.specs.Prelude.{◌≡◌, length};
ghost use Rattle.cf_filter.specs.Filter.{match_of};

use crate::key::fill;
use cf_block::Script;
use cf_bytes::Hash32;
use cf_golomb::{SetFault, count, meets};

/// Whether one of the values of a block's filter is that of one of the scripts, under the key in the
/// block's hash and the filter's own number of values. Where it isn't, no script of the list is an
/// item of the block. The filter is any bytes. The scratch is as long as the list; what it holds
/// afterwards isn't said. It takes no memory.
///
/// # Errors
///
/// Those of `cf_golomb::decode`, exactly where it refuses the bytes.
pub fn matches(
    block_hash: &Hash32,
    filter: &[u8],
    scripts: &[Script],
    scratch: &mut [u64],
) -> Result<bool, SetFault>
    requires { length scratch.old ≡ length scripts.now }
    ensures { result ≡ match_of block_hash.now.0 scripts.now filter.now }
{
    let n = match count(filter) {
        Ok(n) => n,
        Err(fault) => return Err(SetFault::Cut(fault)),
    };
    fill(scratch, block_hash, n, scripts);
    scratch.sort_unstable();
    meets(filter, scratch)
}
