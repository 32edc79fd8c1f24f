//! The scripts that are watched.
ghost use Rattle.std.specs.Prelude.{◌≡◌, ◌++◌, ◌∷◌, [], length, ◌<◌, ◌≤◌, ◌==◌, OnOk, OnErr, IfNone};
ghost use Rattle.cf_scan.specs.Watching.{IsWatch, is_watched, watch_kind_of, GivesWatch, GivesMore};

use cf_block::Script;
use cf_bytes::Refused;
use std::alloc::Global;
use std::collections::BTreeSet;
use std::marker::Model;
use thiserror::Error;

/// Why a script can't be watched.
#[derive(Clone, Copy, Debug, PartialEq, Eq, Error)]
pub enum WatchKind {
    /// It has no byte.
    #[error("the script is empty")]
    Empty = 1,
    /// Its first byte is 0x6a, so nothing can spend it.
    #[error("the script can't be spent")]
    Return = 2,
    /// It has more than 10,000 bytes.
    #[error("the script has more than 10,000 bytes")]
    Long = 3,
    /// There are 1000 scripts before it.
    #[error("there are more than 1000 scripts")]
    Many = 4,
    /// It is watched already.
    #[error("the script stands there twice")]
    Twice = 5,
}

/// The first script that can't be watched: why, and how many scripts are before it.
#[derive(Clone, Copy, Debug, PartialEq, Eq, Error)]
#[error("{kind}, at place {place}")]
pub struct WatchFault {
    pub kind: WatchKind,
    pub place: u32,
}

/// At most 1000 scripts, each of 1 to 10,000 bytes, none twice, and none that begins with 0x6a.
/// Contracts see their list, in the order in which they were given.
#[derive(Drop)]
pub struct Watch {
    scripts: Vec<Script>,
    sorted: BTreeSet<Vec<u8>>,
}

impl Model for Watch {
    ghost use Rattle.std.specs.Prelude.{List, ℕ};
    ghost use Rattle.cf_scan.specs.Watching.{IsKept};

    ghost Value = { List (List ℕ) };

    ghost view = { λ w. w.scripts.items };

    ghost invariant = { λ w. IsKept w.scripts.items w.sorted };
}

impl Watch {
    /// No script.
    pub fn empty(alloc: Global) -> Watch
        ensures { result ≡ [] }
    {
        Watch {
            scripts: Vec::new(alloc),
            sorted: BTreeSet::new(alloc),
        }
    }

    /// These scripts, or the first that can't be watched, of which the first broken rule is told:
    /// `Many`, `Empty`, `Return`, `Long`, `Twice`.
    #[tactic(auto, using(crate::proofs::Scripts::faults, std::proofs::lemmas::Grind::common_steps))]
    pub fn new(alloc: Global, scripts: &[Script]) -> Result<Watch, Refused<WatchFault>>
        ensures { GivesWatch result scripts.now }
    {
        let mut watch = Watch::empty(alloc);
        for script in scripts {
            let place = watch.len() as u32;
            let script = script.copy(alloc)?;
            match watch.add(alloc, script) {
                Ok(()) => {}
                Err(Refused::No(kind)) => return Err(Refused::No(WatchFault { kind, place })),
                Err(Refused::NoMemory) => return Err(Refused::NoMemory),
            }
        }
        Ok(watch)
    }

    // Why this script can't be the next one.
    fn kind(&self, script: &[u8]) -> Option<WatchKind>
        ensures kind { result ≡ watch_kind_of self.now script.now }
        ensures few { IfNone result (length self.now < 1000) }
    {
        if self.scripts.len() >= 1000 {
            return Some(WatchKind::Many);
        }
        if script.is_empty() {
            return Some(WatchKind::Empty);
        }
        if script[0] == 0x6a {
            return Some(WatchKind::Return);
        }
        if script.len() > 10_000 {
            return Some(WatchKind::Long);
        }
        if self.has(script) {
            return Some(WatchKind::Twice);
        }
        None
    }

    /// Watches one script more. A refused script changes nothing.
    pub fn add(&mut self, alloc: Global, script: Script) -> Result<(), Refused<WatchKind>>
        ensures ok { OnOk result (self.new ≡ self.old ++ script ∷ []) }
        ensures err { OnErr result (self.new ≡ self.old) }
        ensures kind { GivesMore result (watch_kind_of self.old script) }
    {
        if let Some(kind) = self.kind(script.as_slice()) {
            return Err(Refused::No(kind));
        }
        let key = Vec::from_slice(alloc, script.as_slice())?;
        self.scripts.reserve(1)?;
        self.sorted.insert(key)?;
        self.scripts.push(script).unwrap();
        Ok(())
    }

    /// The number of scripts.
    pub fn len(&self) -> usize
        ensures len { result ≡ length self.now }
        ensures few { result ≤ 1000 }
    {
        self.scripts.len()
    }

    /// Whether no script is watched.
    pub fn is_empty(&self) -> bool
        ensures { result ≡ (length self.now == 0) }
    {
        self.scripts.is_empty()
    }

    /// The scripts, in the order in which they were given.
    pub fn scripts(&self) -> &[Script]
        ensures scripts { result.now ≡ self.now }
        ensures watch { IsWatch result.now }
    {
        self.scripts.as_slice()
    }

    /// Whether this script is watched.
    pub fn has(&self, script: &[u8]) -> bool
        ensures { result ≡ is_watched self.now script.now }
    {
        self.sorted.contains(script)
    }
}
