//! Laws of logs of played peers: functions that do nothing, whose contracts say them.
ghost use Rattle.std.specs.Prelude.{◌≡◌, ◌≤◌, ℕ, List, false, length};
ghost use Rattle.cf_block.specs.declared.tx.Block.{Block};
ghost use Rattle.cf_bytes.specs.declared.hash.Hash32.{Hash32};
ghost use Rattle.cf_chain.specs.{IsGoodChain, headers_of};
ghost use Rattle.cf_headers.specs.{IsPart, NoHashClash, Shows};
ghost use Rattle.cf_headers.specs.Chain.{Chain};
ghost use Rattle.cf_peer.specs.{is_open, lists, trail, own};
ghost use Rattle.cf_wires.specs.{tally_of};
ghost use Rattle.cf_wires.specs.Log.{Log};
ghost use Rattle.cf_scan.specs.declared.history.Entry.{Entry};
ghost use Rattle.cf_sync.specs.{IsConnected, IsQuiet, counted_part, IsHonest, ShowsNoOther, Followed, IsHashed, IsHistoryOf, SyncTheorem};
ghost use Rattle.cf_played.specs.declared.kind.Way.{Way};
ghost use Rattle.cf_demo.specs.Playing.{IsRun, PlaysHonest, PlaysAlike, PlaysSilent};
ghost use Rattle.cf_demo.specs.Three.{AreThree, AreTwoChains};

/// A peer that was dialled, whose bytes are at every moment a beginning of its machine's answers on a good chain, and
/// all of them whenever seconds pass, is an honest peer of the run, where no two of the strings that were hashed have
/// one hash.
pub fn a_played_peer_is_honest()
    ensures { (log : Log) (p : ℕ) (blocks : List Block)
        → IsRun log → IsGoodChain blocks → NoHashClash (IsHashed log blocks) → 1 ≤ p → p ≤ (tally_of log).dials
        → PlaysHonest blocks log p → IsHonest log p blocks }
{}

/// A peer whose answers are its machine's but for what they tell of filters shows parts of its chain and nothing else.
pub fn a_played_peer_shows_parts_of_its_chain()
    ensures { (log : Log) (p : ℕ) (way : Way) (blocks : List Block)
        → IsRun log → IsGoodChain blocks → NoHashClash (IsHashed log blocks) → PlaysAlike way blocks log p
        → (other : Chain) → Shows (lists (counted_part log p)) other → IsPart other (headers_of blocks) }
{}

/// A silent peer that is still connected with nothing open to it has shown the whole of its chain, and that isn't the
/// best one: it claims no filters.
pub fn a_silent_peer_is_left_with_another_chain()
    ensures { (watch : List (List ℕ)) (height : ℕ) (hash : Hash32) (entries : List Entry)
        (log : Log) (p : ℕ) (blocks : List Block) → IsRun log → IsGoodChain blocks
        → NoHashClash (IsHashed log blocks) → 1 ≤ p → p ≤ (tally_of log).dials
        → PlaysSilent blocks log p → 1 ≤ length blocks → IsConnected log p → is_open (trail log p) ≡ false
        → (f : Followed watch height hash entries log)
        → (own (counted_part log p) ≡ headers_of blocks) × (f.told.chain ≡ headers_of blocks → ⊥) }
{}

/// Of three peers, one with other filters, one silent on a longer chain and one honest, nobody who is connected once
/// nothing is open has shown another chain at least as long as the honest one's. So the tip and the history are those
/// of that chain.
pub fn three_played_peers_tell_the_honest_chain()
    ensures other { (watch : List (List ℕ)) (height : ℕ) (hash : Hash32)
        (entries : List Entry) (log : Log) (chain longer : List Block) → IsRun log → AreTwoChains chain longer log
        → AreThree chain longer log → Followed watch height hash entries log → IsQuiet log → ShowsNoOther log chain }
    ensures history { (watch : List (List ℕ)) (height : ℕ) (hash : Hash32)
        (entries : List Entry) (log : Log) (chain longer : List Block) → IsRun log → AreTwoChains chain longer log
        → AreThree chain longer log → SyncTheorem watch height hash entries log → Followed watch height hash entries log
        → IsQuiet log → IsHistoryOf watch chain height hash entries }
{}
