//! What the definitions say of one another.
ghost use Rattle.std.specs.Prelude.{◌≡◌, ◌↔◌, ℕ, Bool, List, filter};
ghost use Rattle.cf_block.specs.declared.tx.Block.{Block};
ghost use Rattle.cf_scan.specs.Coins.{total};
ghost use Rattle.cf_scan.specs.Scan.{scan_of, watched_coins, balance_of};
ghost use Rattle.cf_scan.specs.Extracts.{extracts_of, history_of};
ghost use Rattle.cf_scan.specs.Idle.{LeavesOutIdle};
ghost use Rattle.cf_scan.specs.Watching.{IsWatch};
ghost use Rattle.cf_scan.specs.Watchable.{AreWatchable};

/// A list can be watched exactly where each of its scripts can, after those before it.
pub fn laws_of_watches()
    ensures { (scripts : List (List ℕ)) → IsWatch scripts ↔ AreWatchable scripts }
{}

/// The history of the extracts of blocks, with their heights, is the plain scan of these blocks.
/// Leaving out blocks that neither pay a watched script nor spend a watched coin, as the coins
/// stand when the block comes, changes nothing. The balance is the sum of the watched coins.
pub fn laws_of_histories()
    ensures scan { (blocks : List Block) (watch : List (List ℕ))
        → history_of (extracts_of blocks watch) ≡ scan_of blocks watch }
    ensures idle { (keep : ℕ → Bool) (blocks : List Block) (watch : List (List ℕ)) → LeavesOutIdle keep blocks watch
        → history_of (filter (λ p. keep p.height) (extracts_of blocks watch)) ≡ scan_of blocks watch }
    ensures balance { (blocks : List Block) (watch : List (List ℕ))
        → balance_of (scan_of blocks watch) ≡ total (watched_coins blocks watch) }
{}
