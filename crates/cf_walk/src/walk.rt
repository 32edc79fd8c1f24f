//! A walk over the records of a source, one block in memory at a time.
ghost use Rattle.std.specs.Prelude.{◌≡◌, ◌⊎◌, ◌+◌, ◌^◌, ◌≤◌, ◌<◌, ◌++◌, ◌∷◌, [], List, ℕ, Option, Some, None, Bool, true, false, drop, length, option_map, IfOk, IfSome, IfNone, OnOk, OnErr};
ghost use Rattle.cf_block.specs.declared.tx.Block.{Block};
ghost use Rattle.cf_block.specs.{AreTxids, IsBlock};
ghost use Rattle.cf_conn.specs.{with_front, CountsReads, IsOver, beyond, seen};
ghost use Rattle.cf_conn.specs.Steps.{Steps};
ghost use Rattle.cf_headers.specs.{tip_hash};
ghost use Rattle.cf_chain.specs.{headers_of};
ghost use Rattle.cf_walk.specs.Files.{after_genesis, all_zeros};
ghost use Rattle.cf_walk.specs.declared.judge.Judge.{Judge};
ghost use Rattle.cf_walk.specs.Judging.{BeginsWith, IsBlank, IsReady, IsWhole, StandsOn, Strips, Walks, WalksOver, after_by, next_by};
ghost use Rattle.cf_walk.specs.Judging.{CountsStop, EndsWith};
ghost use Rattle.cf_walk.specs.Records.{max_record};
ghost use Rattle.cf_walk.specs.Striding.{CountsLoad, Gives, HoldsFew, IsWalking, StaysFew};

use crate::cause::{BadBlock, RecordCause};
use crate::checks::Found;
use crate::fault::{LoadFault, MOST_BLOCKS, fault_of};
use crate::file::{after_genesis, is_end};
use crate::judge::{Judge, new_judge, number_at, walk_on};
use crate::record::{take_head, take_record};
use cf_block::Block;
use cf_bytes::{Cut, Hash32, Listed, NoMemory, Refused};
use cf_conn::{ReadFail, Source, Window};
use std::alloc::Global;
use std::mem;

// Why a walk goes no further: a record is refused, there are more bytes than count, or no more was read.
#[derive(Clone, Copy, Debug)]
pub(crate) enum WalkStop {
    Cause(RecordCause),
    TooBig,
    Read(ReadFail),
}

// Whether there is something to judge, which isn't cut off.
fn is_whole(bytes: &[u8]) -> bool
    ensures yes { result ≡ true → IsWhole bytes.now }
    ensures no { result ≡ false → (all_zeros bytes.now ≡ true) ⊎ (length bytes.now < max_record + 8) }
{
    if is_end(bytes) {
        return false;
    }
    let mut cut = Cut::new(bytes);
    match take_record(&mut cut) {
        Ok(_) => true,
        Err(RecordCause::Cut) => false,
        Err(_) => true,
    }
}

// Whether these are eight zeros or more, which are no record's beginning.
fn is_blank(bytes: &[u8]) -> bool
    ensures yes { result ≡ true → IsBlank bytes.now }
    ensures no { result ≡ false → IsBlank bytes.now → ⊥ }
{
    bytes.len() >= 8 && is_end(bytes)
}

// How many bytes to want: more than there are, and those of the record that begins here; no more than a record may
// have, where fewer are there.
fn wanted(bytes: &[u8]) -> usize
    requires { length bytes.now < 2 ^ 63 }
    ensures more { length bytes.now < result }
    ensures few { length bytes.now < max_record + 8 → result ≤ max_record + 8 }
{
    let mut cut = Cut::new(bytes);
    let more = bytes.len() + 1;
    match take_head(&mut cut) {
        Ok(size) => more.max(size as usize + 8),
        Err(_) => more.max(8),
    }
}

// Reads on until a whole record is held, or zeros that are none, or no more comes.
#[tactic(auto, using(crate::proofs::Holding::prepares))]
fn prepare<S: Source>(window: &mut Window, source: &mut S) -> Result<(), ReadFail>
    ensures same { with_front window.new.held (S.left source.new) ≡ with_front window.old.held (S.left source.old) }
    ensures bound { length window.new.held + window.new.room ≡ length window.old.held + window.old.room }
    ensures ready { OnOk result (IsReady window.new (S.left source.new)) }
    ensures count { CountsReads result (S.faults source.old) (S.faults source.new) }
    ensures steps { Steps S.reads source.old source.new }
    ensures few { StaysFew window.old window.new }
{
    loop {
        let held = window.held();
        if is_whole(held) || is_blank(held) {
            return Ok(());
        }
        let n = held.len();
        let most = wanted(held);
        window.want(source, most)?;
        if window.held().len() <= n {
            return Ok(());
        }
    }
}

// Whether zeros alone are left of the bytes that count. None of them is kept.
#[tactic(auto, using(cf_conn::proofs::Stepping::no_steps, cf_conn::proofs::Stepping::more_steps))]
fn only_zeros<S: Source>(window: &mut Window, source: &mut S) -> Result<bool, ReadFail>
    ensures strips { Strips (seen window.old (S.left source.old)) (seen window.new (S.left source.new)) }
    ensures beyond { beyond window.new (S.left source.new) ≡ beyond window.old (S.left source.old) }
    ensures no { IfOk result (λ only. only ≡ false
        → IfSome (seen window.new (S.left source.new)) (λ bytes. all_zeros bytes ≡ false)) }
    ensures yes { IfOk result (λ only. only ≡ true → (window.new.held ≡ []) × IsOver window.new (S.left source.new)) }
    ensures count { CountsReads result (S.faults source.old) (S.faults source.new) }
    ensures steps { Steps S.reads source.old source.new }
    ensures few { StaysFew window.old window.new }
{
    while is_end(window.held()) {
        let n = window.held().len();
        window.take(n);
        window.want(source, 1)?;
        if window.held().is_empty() {
            return Ok(true);
        }
    }
    Ok(false)
}

// The answer where no more comes: none, or a record that is cut off. Only where the source gives no other byte is it
// so.
#[tactic(auto, using(cf_conn::proofs::Stepping::first_step, cf_conn::proofs::Stepping::no_steps))]
fn ends<S: Source>(
    window: &Window,
    source: &mut S,
    cause: Option<RecordCause>,
) -> Result<Option<Block>, WalkStop>
    requires { IsOver window.now (S.left source.old) }
    ensures exact { IfSome (beyond window.now (S.left source.old)) (λ others. EndsWith cause others result) }
    ensures none { IfOk result (λ o. o ≡ None) }
    ensures ended { IfOk result (λ o. S.ended source.new ≡ true) }
    ensures count { CountsStop result (S.faults source.old) (S.faults source.new) }
    ensures steps { Steps S.reads source.old source.new }
{
    match window.has_more(source) {
        Err(fail) => Err(WalkStop::Read(fail)),
        Ok(true) => Err(WalkStop::TooBig),
        Ok(false) => match cause {
            None => Ok(None),
            Some(cause) => Err(WalkStop::Cause(cause)),
        },
    }
}

// The step where zeros are held that are no record's beginning: no block is left, or what follows them is no record.
#[tactic(auto, using(cf_conn::proofs::Stepping::more_steps))]
fn walk_zeros<S: Source>(window: &mut Window, source: &mut S) -> Result<Option<Block>, WalkStop>
    requires { IsBlank window.old.held }
    ensures exact { (j : Judge) (bytes others : List ℕ) → seen window.old (S.left source.old) ≡ Some bytes
        → beyond window.old (S.left source.old) ≡ Some others → WalksOver (next_by j bytes) bytes others
        (seen window.new (S.left source.new)) (beyond window.new (S.left source.new)) result }
    ensures none { IfOk result (λ o. o ≡ None) }
    ensures ended { IfOk result (λ o. S.ended source.new ≡ true) }
    ensures count { CountsStop result (S.faults source.old) (S.faults source.new) }
    ensures steps { Steps S.reads source.old source.new }
    ensures few { StaysFew window.old window.new }
{
    match only_zeros(window, source) {
        Err(fail) => Err(WalkStop::Read(fail)),
        Ok(false) => Err(WalkStop::Cause(RecordCause::Magic)),
        Ok(true) => ends(window, source, None),
    }
}

// The step over the bytes that are held, which are taken where they are a block's record.
fn walk_held(
    alloc: Global,
    judge: &mut Judge,
    window: &mut Window,
) -> Result<Option<Block>, Refused<RecordCause>>
    ensures exact { Walks (next_by judge.old window.old.held) window.old.held window.new.held result }
    ensures room { window.new.room ≡ window.old.room }
    ensures kept { IfOk result (λ o. IfNone o (window.new.held ≡ window.old.held)) }
    ensures still { OnErr result (window.new.held ≡ window.old.held) }
    ensures after { IfOk result (λ o. IfSome o (λ b. judge.new ≡ after_by judge.old b)) }
    ensures stands { (blocks : List Block) → StandsOn judge.old blocks
        → IfOk result (λ o. IfSome o (λ b. StandsOn judge.new (blocks ++ b ∷ []))) }
    ensures found { IfOk result (λ o. IfSome o (λ b. BeginsWith b window.old.held window.new.held)) }
    ensures fits { IfOk result (λ o. IfSome o (λ b. IsBlock b)) }
    ensures few { StaysFew window.old window.new }
{
    let held = window.held();
    let mut cut = Cut::new(held);
    match walk_on(alloc, judge, &mut cut) {
        Ok(Some(block)) => {
            let n = held.len().saturating_sub(cut.rest().len());
            window.take(n);
            Ok(Some(block))
        }
        Ok(None) => Ok(None),
        Err(e) => Err(e),
    }
}

// The step where what is held is whole, or no more comes.
#[tactic(auto, using(cf_conn::proofs::Stepping::no_steps))]
fn walk_ready<S: Source>(
    alloc: Global,
    judge: &mut Judge,
    window: &mut Window,
    source: &mut S,
) -> Result<Option<Block>, WalkStop>
    requires { IsWhole window.old.held ⊎ IsOver window.old (S.left source.old) }
    ensures exact { (bytes others : List ℕ) → seen window.old (S.left source.old) ≡ Some bytes
        → beyond window.old (S.left source.old) ≡ Some others → WalksOver (next_by judge.old bytes) bytes others
        (seen window.new (S.left source.new)) (beyond window.new (S.left source.new)) result }
    ensures after { IfOk result (λ o. IfSome o (λ b. judge.new ≡ after_by judge.old b)) }
    ensures stands { (blocks : List Block) → StandsOn judge.old blocks
        → IfOk result (λ o. IfSome o (λ b. StandsOn judge.new (blocks ++ b ∷ []))) }
    ensures found { (bytes : List ℕ) → seen window.old (S.left source.old) ≡ Some bytes → IfOk result
        (λ o. IfSome o (λ b. IfSome (seen window.new (S.left source.new)) (λ rest. BeginsWith b bytes rest))) }
    ensures fits { IfOk result (λ o. IfSome o (λ b. IsBlock b)) }
    ensures ended { IfOk result (λ o. IfNone o (S.ended source.new ≡ true)) }
    ensures count { CountsStop result (S.faults source.old) (S.faults source.new) }
    ensures steps { Steps S.reads source.old source.new }
    ensures few { StaysFew window.old window.new }
{
    match walk_held(alloc, judge, window) {
        Ok(Some(block)) => Ok(Some(block)),
        Ok(None) => ends(window, source, None),
        Err(Refused::NoMemory) => Err(WalkStop::Read(ReadFail::NoMemory)),
        Err(Refused::No(cause)) => match cause {
            RecordCause::Cut => ends(window, source, Some(RecordCause::Cut)),
            _ => Err(WalkStop::Cause(cause)),
        },
    }
}

// Takes the next block of the records that are left of the bytes that count, where zeros alone aren't: it may stand on
// those before it. No block is kept.
#[tactic(auto, using(cf_conn::proofs::Stepping::more_steps))]
fn walk_source<S: Source>(
    alloc: Global,
    judge: &mut Judge,
    window: &mut Window,
    source: &mut S,
) -> Result<Option<Block>, WalkStop>
    ensures exact { (bytes others : List ℕ) → seen window.old (S.left source.old) ≡ Some bytes
        → beyond window.old (S.left source.old) ≡ Some others → WalksOver (next_by judge.old bytes) bytes others
        (seen window.new (S.left source.new)) (beyond window.new (S.left source.new)) result }
    ensures after { IfOk result (λ o. IfSome o (λ b. judge.new ≡ after_by judge.old b)) }
    ensures stands { (blocks : List Block) → StandsOn judge.old blocks
        → IfOk result (λ o. IfSome o (λ b. StandsOn judge.new (blocks ++ b ∷ []))) }
    ensures found { (bytes : List ℕ) → seen window.old (S.left source.old) ≡ Some bytes → IfOk result
        (λ o. IfSome o (λ b. IfSome (seen window.new (S.left source.new)) (λ rest. BeginsWith b bytes rest))) }
    ensures fits { IfOk result (λ o. IfSome o (λ b. IsBlock b)) }
    ensures ended { IfOk result (λ o. IfNone o (S.ended source.new ≡ true)) }
    ensures count { CountsStop result (S.faults source.old) (S.faults source.new) }
    ensures steps { Steps S.reads source.old source.new }
    ensures few { StaysFew window.old window.new }
{
    match prepare(window, source) {
        Ok(()) => {}
        Err(fail) => return Err(WalkStop::Read(fail)),
    }
    if is_blank(window.held()) {
        walk_zeros(window, source)
    } else {
        walk_ready(alloc, judge, window, source)
    }
}

// How many bytes the first record takes, where it is one of the genesis block.
fn first_record(alloc: Global, bytes: &[u8]) -> Result<Option<usize>, NoMemory>
    ensures exact { IfOk result (λ size. option_map (λ n. drop n bytes.now) size ≡ after_genesis bytes.now) }
    ensures within { IfOk result (λ size. IfSome size (λ n. n ≤ length bytes.now)) }
{
    match after_genesis(alloc, bytes) {
        Ok(Some(rest)) => Ok(Some(bytes.len().saturating_sub(rest.len()))),
        Ok(None) => Ok(None),
        Err(NoMemory) => Err(NoMemory),
    }
}

/// A walk over the records of a file of blocks, which gives the blocks above genesis one by one, each judged by those
/// before it, and keeps none: only what the next one is judged by, the coins above all. It is lent its source at each
/// call, the same one each time. Of the source the first 1,073,741,824 bytes count. Of its bytes the walk holds fewer
/// than 4,065,544: those of one record, and those of one piece of 65,536 that is read at once.
#[derive(Drop)]
pub struct Walk {
    judge: Judge,
    window: Window,
    // How many records stood before those of the blocks: genesis's, or none.
    before: u32,
    begun: bool,
}

impl Walk {
    /// No block was given yet, and no byte was read.
    #[tactic(auto, using(crate::proofs::Strides::walk_starts))]
    pub fn new(alloc: Global) -> Walk
        ensures stands { StandsOn result.judge [] }
        ensures walks { (bytes : List ℕ) → IsWalking bytes result (Some bytes) [] }
        ensures few { HoldsFew result }
    {
        Walk {
            judge: new_judge(alloc),
            window: Window::new(alloc, MOST_BLOCKS),
            before: 0,
            begun: false,
        }
    }

    // Passes over the record of genesis, with witnesses or without, where it stands first.
    #[tactic(auto, using(cf_conn::proofs::Stepping::no_steps))]
    fn begin<S: Source>(&mut self, alloc: Global, source: &mut S) -> Result<(), ReadFail>
        ensures judge { self.new.judge ≡ self.old.judge }
        ensures begun { OnOk result (self.new.begun ≡ true) }
        ensures walks { (bytes : List ℕ) (blocks : List Block) → IsWalking bytes self.old (S.left source.old) blocks
            → OnOk result (IsWalking bytes self.new (S.left source.new) blocks) }
        ensures count { CountsReads result (S.faults source.old) (S.faults source.new) }
        ensures steps { Steps S.reads source.old source.new }
        ensures few { HoldsFew self.old → HoldsFew self.new }
    {
        if self.begun {
            return Ok(());
        }
        prepare(&mut self.window, source)?;
        let Ok(first) = first_record(alloc, self.window.held()) else {
            return Err(ReadFail::NoMemory);
        };
        self.begun = true;
        match first {
            Some(n) => {
                self.window.take(n);
                self.before = 1;
                Ok(())
            }
            None => Ok(()),
        }
    }

    /// The next block above genesis, which may stand on those that were given; None where no more are left. After None,
    /// and after an error, it is called no more.
    ///
    /// # Errors
    ///
    /// `BadBlock` for the first record that is refused within the source's first 1,073,741,824 bytes. `TooBig` where
    /// none is and the source gives another byte. `ReadFault` where the source fails.
    #[tactic(auto, using(cf_conn::proofs::Stepping::more_steps))]
    pub fn next_block<S: Source>(
        &mut self,
        alloc: Global,
        source: &mut S,
    ) -> Result<Option<Block>, LoadFault>
        ensures walks { (bytes : List ℕ) (blocks : List Block) → IsWalking bytes self.old (S.left source.old) blocks
            → Gives bytes blocks result self.new (S.left source.new) }
        ensures after { IfOk result (λ o. IfSome o (λ b. self.new.judge ≡ after_by self.old.judge b)) }
        ensures stands { (blocks : List Block) → StandsOn self.old.judge blocks
            → IfOk result (λ o. IfSome o (λ b. StandsOn self.new.judge (blocks ++ b ∷ []))) }
        ensures hashed { IfOk result (λ o. IfSome o (λ b. AreTxids self.new.judge.txids b.txs)) }
        ensures fits { IfOk result (λ o. IfSome o (λ b. IsBlock b)) }
        ensures ended { IfOk result (λ o. IfNone o (S.ended source.new ≡ true)) }
        ensures count { CountsLoad result (S.faults source.old) (S.faults source.new) }
        ensures steps { Steps S.reads source.old source.new }
        ensures few { HoldsFew self.old → HoldsFew self.new }
    {
        match self.begin(alloc, source) {
            Ok(()) => {}
            Err(fail) => return Err(fault_of(fail)),
        }
        let number = number_at(self.before, self.judge.height);
        match walk_source(alloc, &mut self.judge, &mut self.window, source) {
            Ok(block) => Ok(block),
            Err(WalkStop::Cause(cause)) => Err(LoadFault::BadBlock(BadBlock { number, cause })),
            Err(WalkStop::TooBig) => Err(LoadFault::TooBig),
            Err(WalkStop::Read(fail)) => Err(fault_of(fail)),
        }
    }

    /// How many blocks were given.
    pub fn height(&self) -> usize
        ensures { (blocks : List Block) → StandsOn self.now.judge blocks → result ≡ length blocks }
    {
        self.judge.height
    }

    /// The hash of the last block that was given, or genesis's.
    pub fn tip_hash(&self) -> Hash32
        ensures { (blocks : List Block) → StandsOn self.now.judge blocks → result.0 ≡ tip_hash (headers_of blocks) }
    {
        self.judge.tip
    }

    /// The hashes of the transactions of the last block that was given.
    pub fn txids(&self) -> &[Hash32]
        ensures { result.now ≡ self.now.judge.txids }
    {
        self.judge.txids.as_slice()
    }

    /// What was found of the last block that was given, which the walk lets go.
    pub fn take_found(&mut self, alloc: Global) -> Found
        ensures txids { result.txids ≡ self.old.judge.txids }
        ensures spent { result.spent ≡ self.old.judge.spent }
        ensures stands { (blocks : List Block) → StandsOn self.old.judge blocks → StandsOn self.new.judge blocks }
        ensures walks { (bytes : List ℕ) (left : Option (List ℕ)) (blocks : List Block)
            → IsWalking bytes self.old left blocks → IsWalking bytes self.new left blocks }
        ensures few { HoldsFew self.old → HoldsFew self.new }
    {
        Found {
            txids: mem::replace(&mut self.judge.txids, Listed::new(alloc)),
            spent: mem::replace(&mut self.judge.spent, Listed::new(alloc)),
        }
    }
}
