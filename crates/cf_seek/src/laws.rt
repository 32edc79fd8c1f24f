//! Laws of what is to be asked for: a function that does nothing, whose contract says them.
ghost use Rattle.std.specs.Prelude.{◌≡◌, ◌≤◌, ℕ, min, map, length, List, None, Some, IsSome, true};
ghost use Rattle.cf_bytes.specs.declared.hash.Hash32.{Hash32};
ghost use Rattle.cf_dispute.specs.declared.claim.At.TheVariants.{Differ};
ghost use Rattle.cf_dispute.specs.{IsAt};
ghost use Rattle.cf_dispute.specs.Claims.{Tables};
ghost use Rattle.cf_block.specs.declared.header.Header.{Header};
ghost use Rattle.cf_headers.specs.{Longer, accept, link_height, hash_at};
ghost use Rattle.cf_headers.specs.Chain.{Chain};
ghost use Rattle.cf_match.specs.declared.job.Job.{Job};
ghost use Rattle.cf_match.specs.declared.job.Verdict.TheVariants.{Hit};
ghost use Rattle.cf_match.specs.{verdict_of, with_verdicts};
ghost use Rattle.cf_match.specs.Verdicts.{Verdicts};
ghost use Rattle.cf_tables.specs.{MoreVerdicts, ExtractTable, AreClaimed, IsToFetch, IsUnjudged, AddsClaims};
ghost use Rattle.cf_seek.specs.Opens.{Opens};
ghost use Rattle.cf_seek.specs.Opening.{Closes};
ghost use Rattle.cf_seek.specs.Seeking.{ArePassed, ArePassedHits, AreSought, MoreOpens};

/// Up to a height at which nothing of a peer's blocks is to be asked for that isn't open, that stays so: where extracts
/// come, where verdicts come (blocks that hit now are to be fetched), where other peers claim something (blocks that
/// are in dispute now are to be fetched), where more is open, where a peer has answered what was open to it, and, up to
/// where it links, where a chain becomes a longer one.
pub fn what_is_passed_stays_so()
    ensures extracts_sought { (extracts more : ExtractTable) (tables : Tables) (verdicts : Verdicts)
        (opens : Opens) (own : Chain) (most : ℕ) → ((block : List ℕ) → IsSome (extracts block) → IsSome (more block))
        → AreSought extracts tables verdicts opens own most → AreSought more tables verdicts opens own most }
    ensures extracts_passed { (extracts more : ExtractTable) (tables : Tables) (verdicts : Verdicts)
        (opens : Opens) (own : Chain) (most : ℕ) → ((block : List ℕ) → IsSome (extracts block) → IsSome (more block))
        → ArePassed extracts tables verdicts opens own most → ArePassed more tables verdicts opens own most }
    ensures verdicts_sought { (extracts : ExtractTable) (tables : Tables) (verdicts new : Verdicts) (opens : Opens)
        (own : Chain) (most : ℕ) → MoreVerdicts verdicts new → AreSought extracts tables verdicts opens own most
        → AreSought extracts tables new opens own most }
    ensures verdicts_passed { (extracts : ExtractTable) (tables : Tables) (verdicts new : Verdicts) (opens : Opens)
        (own : Chain) (most : ℕ) → ((h : ℕ) → 1 ≤ h → h ≤ most → (hash : Hash32) → new (hash_at own h) hash.0 ≡ Some Hit
        → verdicts (hash_at own h) hash.0 ≡ Some Hit) → ArePassed extracts tables verdicts opens own most
        → ArePassed extracts tables new opens own most }
    ensures claims_sought { (extracts : ExtractTable) (before after : Tables) (verdicts : Verdicts)
        (opens : Opens) (p q : ℕ) (own : Chain) (most : ℕ) → AddsClaims before after p → AreClaimed before q own most
        → AreSought extracts before verdicts opens own most → AreSought extracts after verdicts opens own most }
    ensures claims_passed { (extracts : ExtractTable) (before after : Tables) (verdicts : Verdicts)
        (opens : Opens) (p q : ℕ) (own : Chain) (most : ℕ) → AddsClaims before after p → AreClaimed before q own most
        → ((block : List ℕ) → extracts block ≡ None → IsAt after block Differ → IsAt before block Differ)
        → ArePassed extracts before verdicts opens own most → ArePassed extracts after verdicts opens own most }
    ensures opened_sought { (extracts : ExtractTable) (tables : Tables) (verdicts : Verdicts) (opens now : Opens)
        (own : Chain) (most : ℕ) → MoreOpens opens now → AreSought extracts tables verdicts opens own most
        → AreSought extracts tables verdicts now own most }
    ensures opened_passed { (extracts : ExtractTable) (tables : Tables) (verdicts : Verdicts) (opens now : Opens)
        (own : Chain) (most : ℕ) → MoreOpens opens now → ArePassed extracts tables verdicts opens own most
        → ArePassed extracts tables verdicts now own most }
    ensures answered_sought { (extracts : ExtractTable) (tables : Tables)
        (verdicts : Verdicts) (opens now : Opens) (p : ℕ) (own : Chain) (most : ℕ) → Closes opens now p
        → ((block : List ℕ) → opens.filters p block ≡ true → IsUnjudged extracts tables verdicts block → ⊥)
        → AreSought extracts tables verdicts opens own most → AreSought extracts tables verdicts now own most }
    ensures answered_passed { (extracts : ExtractTable) (tables : Tables)
        (verdicts : Verdicts) (opens now : Opens) (p : ℕ) (own : Chain) (most : ℕ) → Closes opens now p
        → ((block : List ℕ) → opens.blocks p block ≡ true → IsToFetch extracts tables verdicts block → ⊥)
        → ArePassed extracts tables verdicts opens own most → ArePassed extracts tables verdicts now own most }
    ensures hits { (extracts : ExtractTable) (tables : Tables) (verdicts : Verdicts)
        (opens : Opens) (own : Chain) (most : ℕ) (watch : List (List ℕ)) (jobs : List Job)
        → ArePassedHits own most jobs (map (verdict_of watch) jobs) (length jobs)
        → ArePassed extracts tables verdicts opens own most
        → ArePassed extracts tables (with_verdicts watch jobs verdicts) opens own most }
    ensures grown_sought { (extracts : ExtractTable)
        (tables : Tables) (verdicts : Verdicts) (opens : Opens) (hs : List Header) (own next : Chain) (most : ℕ)
        → accept hs own ≡ Longer next → AreSought extracts tables verdicts opens own most
        → AreSought extracts tables verdicts opens next (min most (link_height hs own)) }
    ensures grown_passed { (extracts : ExtractTable)
        (tables : Tables) (verdicts : Verdicts) (opens : Opens) (hs : List Header) (own next : Chain) (most : ℕ)
        → accept hs own ≡ Longer next → ArePassed extracts tables verdicts opens own most
        → ArePassed extracts tables verdicts opens next (min most (link_height hs own)) }
{}
