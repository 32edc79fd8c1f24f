//! Whether scripts are the same.
ghost use Rattle.std.specs.Prelude.{◌≡◌, ◌↔◌, true, IsTrue};

use cf_block::Script;

// Whether two scripts are the same.
fn is_same_script(a: &Script, b: &Script) -> bool
    ensures { IsTrue result ↔ (a.now ≡ b.now) }
{
    a.as_slice() == b.as_slice()
}

/// Whether two lists of scripts are the same.
pub(crate) fn are_same_scripts(a: &[Script], b: &[Script]) -> bool
    ensures { result ≡ true → a.now ≡ b.now }
{
    if a.len() != b.len() {
        return false;
    }
    for i in 0..a.len() {
        if !is_same_script(&a[i], &b[i]) {
            return false;
        }
    }
    true
}
