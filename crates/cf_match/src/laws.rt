//! Laws of verdicts: functions that do nothing, whose contracts say them.
ghost use Rattle.std.specs.Prelude.{◌≡◌, ◌≤◌, ℕ, false, List, Contains, Some, length};
ghost use Rattle.cf_bytes.specs.{IsBytes};
ghost use Rattle.cf_bytes.specs.declared.hash.Hash32.{Hash32};
ghost use Rattle.cf_golomb.specs.{HasSpelling, spelling};
ghost use Rattle.cf_filter.specs.{basic_filter_of, has_value_of};
ghost use Rattle.cf_match.specs.declared.job.Job.{Job};
ghost use Rattle.cf_match.specs.declared.job.Verdict.{Verdict};
ghost use Rattle.cf_match.specs.declared.job.Verdict.TheVariants.{Miss};
ghost use Rattle.cf_match.specs.Verdicts.{Verdicts, verdict_of, with_verdicts};

/// A filter misses exactly where it is the Golomb code of values, none of which is that of a watched script. Where the
/// filter of some items misses, no watched script is an item. A verdict by the hashes of a block and a filter stays,
/// whatever filters are judged after it.
pub fn laws_of_verdicts()
    ensures missed { (watch : List (List ℕ)) (job : Job) → IsBytes job.filter → verdict_of watch job ≡ Miss
        → (values : List ℕ) × (HasSpelling values) × (job.filter ≡ spelling values)
        × (has_value_of job.block.0 watch values ≡ false) }
    ensures misses { (watch : List (List ℕ)) (job : Job) (values : List ℕ) → HasSpelling values
        → job.filter ≡ spelling values → has_value_of job.block.0 watch values ≡ false → verdict_of watch job ≡ Miss }
    ensures none { (watch items : List (List ℕ)) (block : Hash32) (script : List ℕ) → length items ≤ 33554432
        → verdict_of watch (record { block = block; filter = basic_filter_of block.0 items }) ≡ Miss
        → Contains watch script → Contains items script → ⊥ }
    ensures stays { (watch : List (List ℕ)) (jobs : List Job) (verdicts : Verdicts) (block hash : List ℕ) (v : Verdict)
        → verdicts block hash ≡ Some v → with_verdicts watch jobs verdicts block hash ≡ Some v }
{}
