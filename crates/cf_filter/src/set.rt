//! Sets of scripts.
ghost use Rattle.std.specs.Prelude.{◌≡◌, IfOk, length};
ghost use Rattle.cf_filter.specs.Items.{texts, sorted_set, IsSortedSet, is_among, items_without};

use cf_block::Script;
use cf_bytes::NoMemory;
use std::alloc::Global;
use std::marker::Model;

/// A set of scripts. Contracts see their list, in the order of their bytes, each once.
#[derive(Drop, Debug)]
pub struct Items {
    scripts: Vec<Vec<u8>>,
}

impl Model for Items {
    ghost use Rattle.std.specs.Prelude.{ℕ, List};
    ghost use Rattle.cf_filter.specs.Items.{texts, IsSortedSet};

    ghost Value = { List (List ℕ) };

    ghost view = { λ s. texts s.scripts.items };

    ghost invariant = { λ s. IsSortedSet (texts s.scripts.items) };
}

impl Items {
    // The set of these scripts.
    pub(crate) fn of(scripts: Vec<Vec<u8>>) -> Items
        ensures { result ≡ sorted_set (texts scripts.items) }
    {
        let mut scripts = scripts;
        scripts.sort_unstable();
        scripts.dedup();
        Items { scripts }
    }

    /// The scripts, in the order of their bytes.
    pub fn as_slice(&self) -> &[Vec<u8>]
        ensures scripts { texts result.now ≡ self.now }
        ensures sorted { IsSortedSet self.now }
    {
        self.scripts.as_slice()
    }

    /// The number of scripts.
    pub fn len(&self) -> usize
        ensures { result ≡ length self.now }
    {
        self.scripts.len()
    }

    /// The set without these scripts, of which some may not be in it.
    pub fn without(&self, alloc: Global, scripts: &[Script]) -> Result<Items, NoMemory>
        ensures { IfOk result (λ items. items ≡ items_without scripts.now self.now) }
    {
        let left_out = Items::of(copies(alloc, scripts)?);
        let scripts = kept(alloc, self.scripts.as_slice(), left_out.as_slice())?;
        Ok(Items { scripts })
    }
}

fn copies(alloc: Global, scripts: &[Script]) -> Result<Vec<Vec<u8>>, NoMemory>
    ensures { IfOk result (λ copies. texts copies.items ≡ scripts.now) }
{
    let mut copies = Vec::new(alloc);
    for script in scripts {
        copies.push(Vec::from_slice(alloc, script.as_slice())?)?;
    }
    Ok(copies)
}

fn is_in(script: &Vec<u8>, set: &[Vec<u8>]) -> bool
    requires { IsSortedSet (texts set.now) }
    ensures { result ≡ is_among (texts set.now) script.now.items }
{
    set.binary_search(script).is_ok()
}

// Copies of the items that aren't in this set.
fn kept(alloc: Global, items: &[Vec<u8>], left_out: &[Vec<u8>]) -> Result<Vec<Vec<u8>>, NoMemory>
    requires { IsSortedSet (texts left_out.now) }
    ensures { IfOk result (λ kept. texts kept.items ≡ items_without (texts left_out.now) (texts items.now)) }
{
    let mut kept = Vec::new(alloc);
    for item in items {
        if !is_in(item, left_out) {
            kept.push(Vec::from_slice(alloc, item)?)?;
        }
    }
    Ok(kept)
}
