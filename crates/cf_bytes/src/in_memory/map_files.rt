//! Files in memory.
ghost use Rattle.std.specs.Prelude.{◌≡◌, ◌↔◌, ◌≤◌, [], true, min, length, take, drop, Some, IfOk, IfSome, OnOk, OnErr, Err, IsErrOf, IsTrue};
ghost use Rattle.std.specs.Option.{option_map};
ghost use Rattle.std.specs.FinMap as finite;
ghost use Rattle.cf_bytes.specs.Files.{ReadOf, OpenOf, Counts, named_of};
ghost use Rattle.cf_bytes.specs.Outside.{HasRisen};
ghost use Rattle.cf_bytes.specs.Plan.{is_refused, after_call};
ghost use Rattle.cf_bytes.specs.MapFiles.{has_file};

use crate::files::{FileFail, Files};
use crate::memory::NoMemory;
use crate::outside::Failed;
use crate::plan::Plan;
use std::alloc::Global;
use std::collections::VecDeque;
use std::marker::Model;

/// Keeps files in memory, with calls that are to fail.
#[derive(Drop)]
pub struct MapFiles {
    // As they were written, the newest first.
    log: VecDeque<(String, Vec<u8>)>,
    // What was opened last, and how much of it was given.
    opened: Vec<u8>,
    start: usize,
    plan: Plan,
}

impl Model for MapFiles {
    ghost use Rattle.std.specs.Prelude.{drop, vec_len, ◌≤◌};
    ghost use Rattle.cf_bytes.specs.Files.{named_of};
    ghost use Rattle.cf_bytes.specs.MapFiles.{Held, held_code};

    ghost Value = { Held };

    ghost coded = { held_code };

    ghost view = { λ f. record { files = named_of f.log.items; left = drop f.start f.opened.items; plan = f.plan } };

    ghost invariant = { λ f. f.start ≤ vec_len f.opened };
}

// The bytes under a name, which were written last.
#[tactic(auto, using(crate::proofs::Texts::found_text, crate::proofs::Texts::other_text))]
fn find<'a>(log: &'a VecDeque<(String, Vec<u8>)>, name: &str) -> Option<&'a Vec<u8>>
    ensures { option_map (λ v. v.now.items) result ≡ finite.get (named_of log.now.items) name.now }
{
    for (key, bytes) in log {
        if key.as_str() == name {
            return Some(bytes);
        }
    }
    None
}

impl MapFiles {
    /// No files yet.
    pub fn new(alloc: Global) -> MapFiles
        ensures { result
            ≡ record { files = named_of []; left = []; plan = record { calls = 0; failing = []; faults = 0 } } }
    {
        MapFiles {
            log: VecDeque::new(alloc),
            opened: Vec::new(alloc),
            start: 0,
            plan: Plan::new(alloc),
        }
    }

    /// From now on these calls fail, counted from 1 over all reads and writes.
    pub fn failing(&mut self, calls: &[u64]) -> Result<(), NoMemory>
        ensures ok { OnOk result (self.new ≡ record self.old { plan = record self.old.plan { failing = calls.now } }) }
        ensures err { OnErr result (self.new ≡ self.old) }
    {
        self.plan.set(calls)
    }
}

impl Files for MapFiles {
    ghost files = { λ f. Some f.files };

    ghost opened = { λ f. Some f.left };

    ghost faults = { λ f. f.plan.faults };

    ghost reads = { λ before name _ _ after. after
        ≡ record before { plan = after_call before.plan (has_file before name) } };

    ghost opens = { λ before name _ result after.
        IfOk result (λ _. IfSome (finite.get before.files name) (λ bytes. after.left ≡ bytes))
        × OnErr result (after.left ≡ [])
        × (after ≡ record before { left = after.left; plan = after_call before.plan (has_file before name) }) };

    ghost parts = { λ before room result after.
        OnOk result (after ≡ record before { left = drop room before.left; plan = after_call before.plan true })
        × OnErr result (after ≡ record before { plan = after_call before.plan true }) };

    ghost writes = { λ before name bytes result after. OnOk result
        (after ≡ record before { files = finite.insert before.files name bytes; plan = after_call before.plan true })
        × OnErr result (after ≡ record before { plan = after_call before.plan true }) };

    /// Fails where the call is to fail, and where no file has this name.
    fn read(&mut self, alloc: Global, name: &str, most: usize) -> Result<Vec<u8>, FileFail>
        ensures answer { ReadOf (finite.get self.old.files name.now) most result }
        ensures same { Some self.new.files ≡ Some self.old.files }
        ensures count { Counts result self.old.plan.faults self.new.plan.faults }
        ensures failed { IsErrOf result FileFail.Failed
            ↔ IsTrue (is_refused self.old.plan (has_file self.old name.now)) }
        ensures after { self.new ≡ record self.old { plan = after_call self.old.plan (has_file self.old name.now) } }
    {
        let found = find(&self.log, name);
        if self.plan.call(found.is_some()).is_err() {
            return Err(FileFail::Failed);
        }
        let Some(bytes) = found else {
            return Err(FileFail::Failed);
        };
        if bytes.len() > most {
            return Err(FileFail::TooBig);
        }
        Ok(Vec::from_slice(alloc, bytes)?)
    }

    /// Fails where the call is to fail, and where no file has this name. After an error nothing is left to be read.
    fn open(&mut self, name: &str, most: usize) -> Result<(), FileFail>
        ensures answer { OpenOf (finite.get self.old.files name.now) most (Some self.new.left) result }
        ensures shut { OnErr result (self.new.left ≡ []) }
        ensures same { Some self.new.files ≡ Some self.old.files }
        ensures count { Counts result self.old.plan.faults self.new.plan.faults }
        ensures failed { IsErrOf result FileFail.Failed
            ↔ IsTrue (is_refused self.old.plan (has_file self.old name.now)) }
        ensures after { self.new
            ≡ record self.old { left = self.new.left; plan = after_call self.old.plan (has_file self.old name.now) } }
    {
        let found = find(&self.log, name);
        let is_there = found.is_some();
        self.opened.clear();
        self.start = 0;
        if self.plan.call(is_there).is_err() {
            return Err(FileFail::Failed);
        }
        let Some(bytes) = found else {
            return Err(FileFail::Failed);
        };
        if most < bytes.len() {
            return Err(FileFail::TooBig);
        }
        self.opened.extend_from_slice(bytes)?;
        Ok(())
    }

    /// Gives as many bytes as there is room for. Fails where the call is to fail, and then changes nothing.
    fn part(&mut self, into: &mut [u8]) -> Result<usize, Failed>
        ensures some { IfOk result (λ n. n ≤ length into.new) }
        ensures rest { IfOk result (λ n. drop n into.new ≡ drop n into.old) }
        ensures given { IfOk result
            (λ n. (n ≡ min (length into.old) (length self.old.left)) × (take n into.new ≡ take n self.old.left)) }
        ensures ok { OnOk result (self.new
            ≡ record self.old { left = drop (length into.old) self.old.left; plan = after_call self.old.plan true }) }
        ensures err { OnErr result (self.new ≡ record self.old { plan = after_call self.old.plan true }) }
        ensures kept { OnOk result (self.new.plan.faults ≡ self.old.plan.faults) }
        ensures cause { OnErr result (HasRisen self.old.plan.faults self.new.plan.faults) }
    {
        self.plan.call(true)?;
        let left = &self.opened[self.start..];
        let n = left.len().min(into.len());
        into[..n].copy_from_slice(&left[..n]);
        self.start += n;
        Ok(n)
    }

    /// Fails where the call is to fail, and then changes nothing.
    fn write(&mut self, alloc: Global, name: &str, bytes: &[u8]) -> Result<(), FileFail>
        ensures ok { OnOk result (self.new ≡ record self.old {
          files = finite.insert self.old.files name.now bytes.now;
          plan = after_call self.old.plan true;
        }) }
        ensures err { OnErr result (self.new ≡ record self.old { plan = after_call self.old.plan true }) }
        ensures failed { IsErrOf result FileFail.Failed ↔ IsTrue (is_refused self.old.plan true) }
        ensures fits { result ≡ Err FileFail.TooBig → ⊥ }
        ensures count { Counts result self.old.plan.faults self.new.plan.faults }
    {
        if self.plan.call(true).is_err() {
            return Err(FileFail::Failed);
        }
        let name = String::from_str(alloc, name)?;
        let bytes = Vec::from_slice(alloc, bytes)?;
        self.log.push_front((name, bytes))?;
        Ok(())
    }
}
