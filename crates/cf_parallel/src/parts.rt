//! How a batch is cut.
ghost use Rattle.std.specs.Prelude.{◌≡◌, ◌<◌, ◌≤◌};
ghost use Rattle.cf_parallel.specs.Parts.{place_of};

/// Where part k of a batch of n in so many parts begins, the first part being 0: the first n % parts of them have one
/// more than the others. At k = parts it is where the last one ends.
pub fn place(n: usize, parts: usize, k: usize) -> usize
    requires some { 0 < parts }
    requires most { parts ≤ 64 }
    requires within { k ≤ parts }
    ensures place { result ≡ place_of n parts k }
    ensures inside { result ≤ n }
{
    let size = n / parts;
    let more = n % parts;
    k * size + k.min(more)
}
