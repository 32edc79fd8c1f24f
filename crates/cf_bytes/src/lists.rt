//! Lists of items that are read one after another.
ghost use Rattle.std.specs.Prelude.{◌≡◌, ℕ, List, ◌++◌, length, IfOk, Ok};
ghost use Rattle.std.specs.List.{flat_map, AllByRecursion};
ghost use Rattle.cf_bytes.specs.Cut.{Read, Gives};
ghost use Rattle.cf_bytes.specs.Lists.{list_at};

use crate::cut::Cut;
use crate::listed::Listed;
use crate::memory::Refused;
use std::alloc::Global;

/// So many items, one after another, each read by a call of `read`. There is room for `room` of them at first.
pub fn read_list<T: Drop, E: Drop, F: Fn(&mut Cut) -> Result<T, Refused<E>>>(
    alloc: Global,
    room: usize,
    count: u64,
    cut: &mut Cut,
    read: F,
) -> Result<Listed<T>, Refused<E>>
    requires { F.IsAlwaysCallable read }
    ensures exact { (item : List ℕ → Read T E)
        → ((old : _) (r : _) (new : _) → F.post read old r new → Gives (λ x. x) (item old.now) r new.now)
        → Gives (λ xs. xs) (list_at item count cut.old) result cut.new }
    ensures found { (spell : T → List ℕ)
        → ((old : _) (r : _) (new : _) → F.post read old r new → IfOk r (λ x. old.now ≡ spell x ++ new.now))
        → IfOk result (λ xs. cut.old ≡ flat_map spell xs ++ cut.new) }
    ensures fits { IfOk result
        (λ xs. AllByRecursion (λ x. (old : _) × (new : _) × F.post read old (Ok x) new) xs × (length xs ≡ count)) }
{
    let mut items = Vec::with_capacity(alloc, room)?;
    for _ in 0..count {
        let item = read(cut)?;
        items.push(item)?;
    }
    Ok(Listed::from_vec(items))
}
