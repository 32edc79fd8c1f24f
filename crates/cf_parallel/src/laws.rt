//! What the definitions say of one another.
ghost use Rattle.std.specs.Prelude.{◌≡◌, ◌<◌, ◌≤◌, ◌+◌, ◌/◌, ℕ, List, All, length};
ghost use Rattle.cf_match.specs.declared.job.Job.{Job};
ghost use Rattle.cf_parallel.specs.Parts.{in_parts, joined};

/// A batch in parts: one after another they are the batch, there are as many as asked for, and no length is more than
/// one above another.
pub fn laws_of_parts()
    ensures whole { (parts : ℕ) (jobs : List Job) → 0 < parts → joined (in_parts parts jobs) ≡ jobs }
    ensures count { (parts : ℕ) (jobs : List Job) → length (in_parts parts jobs) ≡ parts }
    ensures even { (parts : ℕ) (jobs : List Job) → 0 < parts → All
        (λ part. (length jobs / parts ≤ length part) × (length part ≤ length jobs / parts + 1)) (in_parts parts jobs) }
{}
