//! Laws of what is kept of a log: functions that do nothing, whose contracts say them.
ghost use Rattle.std.specs.Prelude.{◌≡◌, ◌≢◌, ◌∷◌, ◌++◌, ℕ, List, [], reverse, true, false, None, Some};
ghost use Rattle.cf_bytes.specs.declared.hash.Hash32.{Hash32};
ghost use Rattle.cf_bytes.specs.declared.peer.PeerNo.{PeerNo};
ghost use Rattle.cf_block.specs.declared.tx.Block.{Block};
ghost use Rattle.cf_headers.specs.{IsIn, back_to, common_of, IsAbove};
ghost use Rattle.cf_headers.specs.Chain.{Chain};
ghost use Rattle.cf_msg.specs.declared.msg.Msg.{Msg};
ghost use Rattle.cf_msg.specs.declared.msg.Msg.TheVariants.{GetData, GetCfilters};
ghost use Rattle.cf_wires.specs.declared.event.Delivery.TheVariants.{Got};
ghost use Rattle.cf_wires.specs.declared.event.Event.{Event};
ghost use Rattle.cf_wires.specs.declared.event.Event.TheVariants.{Took};
ghost use Rattle.cf_match.specs.declared.job.Job.{Job};
ghost use Rattle.cf_peer.specs.declared.mode.Mode.TheVariants.{Following};
ghost use Rattle.cf_wires.specs.Log.{Log};
ghost use Rattle.cf_peer.specs.{part_of, trail, is_connected, own, BlockOpen, FiltersOpen, NothingOpen, block_entry, claims, fetched_blocks, given_filters, request};
ghost use Rattle.cf_peer.specs.Trail.{Trail};
ghost use Rattle.cf_scan.specs.{history_of};
ghost use Rattle.cf_tables.specs.{IsSameTable, placed_by, with_blocks, ExtractTable, TestResults, Paid, TrialsGo, judged_if, IsDone, IsToFetch, IsUnjudged};
ghost use Rattle.cf_sync.specs.{IsOmission, IsTestedWith, IsBlockWanted, IsFilterWanted, IsTestOf, IsSettled, IsConnected, IsNoPiece, IsSameFetched, IsScanOver, RightlyIn, IsAlone, IsBlockOpen, IsFilterOpen, blocks_in, blocks_open, counted_part, filters_open, IsTestedThrough, is_after_tick};
ghost use Rattle.cf_holds.specs.Known.{HoldsFetched, HoldsClaims, HoldsGiven, HoldsOpens, HoldsTests, OpensAt};
ghost use Rattle.cf_holds.specs.HeldTests.{AreClean, HoldsOutputs, HoldsTrials, IsNoSend};
ghost use Rattle.cf_seek.specs.{IsNextTrial, IsTrial, IsBlockFree, IsFilterFree, Closes, IsSameElse, OpensBlock, OpensFilters, IsToAsk, IsToGet};
ghost use Rattle.cf_tables.specs.Trials.{Trials};
ghost use Rattle.cf_seek.specs.Opens.{Opens};
ghost use Rattle.cf_dispute.specs.declared.claim.At.{At};
ghost use Rattle.cf_dispute.specs.declared.claim.At.TheVariants.{Nobody};
ghost use Rattle.cf_dispute.specs.declared.claim.Claim.{Claim};
ghost use Rattle.cf_dispute.specs.{IsAt};
ghost use Rattle.cf_dispute.specs.Claims.{Tables};
ghost use Rattle.cf_match.specs.{AreSameVerdicts};
ghost use Rattle.cf_match.specs.Verdicts.{Verdicts};

/// A table that holds what was fetched holds it of each log in which the same was fetched, and still does after each
/// entry that is no piece. After a piece the same table with the extracts of the blocks that the piece brought does.
pub fn a_table_grows()
    ensures held { (watch : List (List ℕ)) (a b : Log) (table : ExtractTable) → IsSameFetched a b
        → HoldsFetched watch a table → HoldsFetched watch b table }
    ensures kept { (watch : List (List ℕ)) (e : Event) (log : Log) (table : ExtractTable) → IsNoPiece e
        → HoldsFetched watch log table → HoldsFetched watch (e ∷ log) table }
    ensures grown { (watch : List (List ℕ)) (p : PeerNo) (piece : List ℕ) (log : Log)
        (news : List Block) (before after : ExtractTable) → fetched_blocks (counted_part (Took (Got p piece) ∷ log) p.0)
        ≡ news ++ fetched_blocks (counted_part log p.0) → IsSameTable after (with_blocks watch news before)
        → HoldsFetched watch log before → HoldsFetched watch (Took (Got p piece) ∷ log) after }
{}

/// The history of the extracts in a table that holds those of the fetched blocks is the scan over a chain's blocks,
/// each taken as it was fetched.
pub fn a_history_of_extracts_is_the_scan()
    ensures { (watch : List (List ℕ)) (log : Log) (table : ExtractTable) → HoldsFetched watch log table
        → (chain : Chain) → IsScanOver watch log chain (history_of (placed_by table 1 (reverse chain))) }
{}

/// By extracts, claims and verdicts that are those of a log: a block that is done is settled; a filter that isn't
/// judged is wanted of each peer that claims it; a block that is to be fetched is wanted; and a block that somebody
/// claims is one of these.
pub fn what_is_kept_tells_what_is_wanted()
    ensures settled { (watch : List (List ℕ)) (l : Log) (extracts : ExtractTable) (tables : Tables)
        (verdicts : Verdicts) → HoldsFetched watch l extracts → HoldsClaims l tables → HoldsGiven watch l verdicts
        → (block : List ℕ) → IsDone extracts tables verdicts block → IsSettled watch l block }
    ensures filter { (watch : List (List ℕ)) (l : Log) (extracts : ExtractTable) (tables : Tables) (verdicts : Verdicts)
        → HoldsFetched watch l extracts → HoldsClaims l tables → HoldsGiven watch l verdicts
        → (p : ℕ) (block : Hash32) (claim : Claim) → IsUnjudged extracts tables verdicts block.0
        → tables p block.0 ≡ Some claim → IsFilterWanted l p block.0 }
    ensures block { (watch : List (List ℕ)) (l : Log) (extracts : ExtractTable) (tables : Tables) (verdicts : Verdicts)
        → HoldsFetched watch l extracts → HoldsClaims l tables → HoldsGiven watch l verdicts
        → (block : List ℕ) → IsToFetch extracts tables verdicts block → IsBlockWanted watch l block }
    ensures done { (extracts : ExtractTable) (tables : Tables) (verdicts : Verdicts) (block : List ℕ) (at : At)
        → IsAt tables block at → at ≢ Nobody → (IsUnjudged extracts tables verdicts block → ⊥)
        → (IsToFetch extracts tables verdicts block → ⊥) → IsDone extracts tables verdicts block }
{}

/// By what is kept of open requests: filters of blocks, and a block, that are open to nobody may be asked for, and one
/// that is to be tested whatever is open; and a block that somebody claims, that isn't open, and of which nothing is to
/// be asked for that isn't open, is settled.
pub fn what_is_kept_tells_what_is_open()
    ensures filters { (log : Log) (opens : Opens) (p filter start : ℕ) (stop : Hash32) → HoldsOpens log opens
        → ((block : List ℕ) → IsIn block (blocks_in start (back_to stop.0 (own (trail log p))))
        → IsFilterFree opens block) → IsAlone log p (GetCfilters filter start stop) }
    ensures test { (log : Log) (p filter start : ℕ) (stop : Hash32) → IsTestOf log p start stop.0
        → IsAlone log p (GetCfilters filter start stop) }
    ensures block { (log : Log) (opens : Opens) (p : ℕ) (hash : Hash32) → HoldsOpens log opens
        → IsBlockFree opens hash.0 → IsAlone log p (GetData (block_entry hash ∷ [])) }
    ensures settled { (watch : List (List ℕ))
        (log : Log) (extracts : ExtractTable) (tables : Tables) (verdicts : Verdicts) (opens : Opens)
        → HoldsFetched watch log extracts → HoldsClaims log tables → HoldsGiven watch log verdicts
        → HoldsOpens log opens → (block : List ℕ) (at : At) → IsAt tables block at → at ≢ Nobody → IsAbove block
        → (IsToAsk extracts tables verdicts opens block → ⊥) → (IsToGet extracts tables verdicts opens block → ⊥)
        → (IsFilterOpen log block → ⊥) → (IsBlockOpen log block → ⊥) → IsSettled watch log block }
{}

/// What is kept of open requests goes on: where it changes of one peer as that peer's part does; filters or a block are
/// asked of a peer to which nothing was open; a peer has answered or is lost; the same stands in what is open, as it
/// does when a filter comes in the middle of a batch. And what is open to nobody by a plan is open to nobody indeed,
/// and is sent with a tick where the plan is.
pub fn what_is_kept_of_open_requests_goes_on()
    ensures put { (log next : Log) (before after : Opens) (p : ℕ) → HoldsOpens log before → IsSameElse before after p
        → ((q : ℕ) → q ≢ p → trail next q ≡ trail log q) → OpensAt after p (trail next p) → HoldsOpens next after }
    ensures filters { (before after : Opens) (p : ℕ) (t u : Trail) (asked : List (List ℕ)) → OpensAt before p t
        → request t ≡ NothingOpen → OpensFilters before after p asked → is_connected u ≡ true
        → request u ≡ FiltersOpen asked [] → OpensAt after p u }
    ensures block { (before after : Opens) (p : ℕ) (t u : Trail) (asked : List ℕ) → OpensAt before p t
        → request t ≡ NothingOpen → OpensBlock before after p asked → is_connected u ≡ true
        → request u ≡ BlockOpen asked → OpensAt after p u }
    ensures closed { (before after : Opens) (p : ℕ) (u : Trail) → Closes before after p
        → (is_connected u ≡ true → request u ≡ NothingOpen) → OpensAt after p u }
    ensures same { (opens : Opens) (p : ℕ) (t u : Trail) → OpensAt opens p t → is_connected u ≡ is_connected t
        → ((b : List ℕ) → IsIn b (filters_open (request u)) → IsIn b (filters_open (request t)))
        → ((b : List ℕ) → IsIn b (filters_open (request t)) → IsIn b (filters_open (request u)))
        → ((b : List ℕ) → IsIn b (blocks_open (request u)) → IsIn b (blocks_open (request t)))
        → ((b : List ℕ) → IsIn b (blocks_open (request t)) → IsIn b (blocks_open (request u))) → OpensAt opens p u }
    ensures plan { (planned log : Log) (p : ℕ) (m : Msg) → IsSameFetched planned log
        → is_after_tick planned ≡ is_after_tick log → ((q : ℕ) → IsConnected log q → part_of planned q ≡ part_of log q)
        → part_of planned p ≡ part_of log p → IsAlone planned p m → IsAlone log p m }
{}

/// By what is kept of tests, extracts and claims: a filter that is to be tested may be asked for, and where there is
/// none, what a peer claims of the fetched blocks on which they differ was tested.
pub fn what_is_kept_tells_what_is_tested()
    ensures wanted { (watch : List (List ℕ)) (log : Log) (extracts : ExtractTable) (tables : Tables)
        (told : TestResults) → HoldsFetched watch log extracts → HoldsClaims log tables → HoldsTests log told
        → (p common height : ℕ) (block : List ℕ)
        → IsTrial extracts tables told p (own (trail log p)) common block height → IsTestOf log p height block }
    ensures through { (watch : List (List ℕ))
        (log : Log) (extracts : ExtractTable) (tables : Tables) (told : TestResults) (chain : Chain) (p : ℕ)
        → HoldsFetched watch log extracts → HoldsClaims log tables → HoldsTests log told → IsConnected log p
        → IsNextTrial extracts tables told p (own (counted_part log p))
        (common_of (own (counted_part log p)) chain) None → IsTestedThrough log chain p }
{}

/// What is kept of tests goes on: it stays right where nothing comes of a peer and nothing is sent to one; with a piece
/// of a peer's bytes the items of a block that it brings are put in, what is found of a filter that was to be tested,
/// and the verdicts on filters that weren't. Where it is told that a filter lacks nothing, it is no omission.
pub fn what_is_kept_of_tests_goes_on()
    ensures stay { (e : Event) (log : Log) (trials : Trials) → IsNoSend e → IsNoPiece e → HoldsTrials log trials
        → HoldsTrials (e ∷ log) trials }
    ensures piece { (p : PeerNo)
        (piece : List ℕ) (log : Log) (before after : Trials) (news : List Block) (jobs : List Job)
        → fetched_blocks (counted_part (Took (Got p piece) ∷ log) p.0) ≡ news ++ fetched_blocks (counted_part log p.0)
        → given_filters (counted_part (Took (Got p piece) ∷ log) p.0) ≡ jobs ++ given_filters (counted_part log p.0)
        → TrialsGo before after p.0 news jobs → HoldsTrials log before → HoldsTrials (Took (Got p piece) ∷ log) after }
    ensures verdicts { (p : PeerNo) (piece : List ℕ)
        (log : Log) (watch : List (List ℕ)) (trials : Trials) (before after : Verdicts) (jobs : List Job)
        → given_filters (counted_part (Took (Got p piece) ∷ log) p.0) ≡ jobs ++ given_filters (counted_part log p.0)
        → AreSameVerdicts after (judged_if (trials.aims p.0) watch jobs before) → HoldsTrials log trials
        → HoldsGiven watch log before → HoldsGiven watch (Took (Got p piece) ∷ log) after }
    ensures clean { (log : Log) (paid : Paid) (told : TestResults) → RightlyIn Following log → HoldsOutputs log paid
        → AreClean log paid told → (block : List ℕ) (hash : Hash32) → told block hash.0 ≡ Some false
        → (t : IsTestedWith log block hash) → IsOmission log block t.filter.filter → ⊥ }
{}
