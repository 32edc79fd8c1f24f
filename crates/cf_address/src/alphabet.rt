//! The letters of the data of an address.
ghost use Rattle.std.specs.Prelude.{◌≡◌, ◌<◌, ◌==◌, position, MatchOption};
ghost use Rattle.cf_address.specs.Alphabet.{alphabet as letters, letter_of, value_of as value_at};

const ALPHABET: &[u8; 32] = b"qpzry9x8gf2tvdw0s3jn54khce6mua7l";

#[tactic(auto, unfolding(crate::specs::Alphabet::alphabet))]
fn alphabet() -> &'static [u8]
    ensures { result.now ≡ letters }
{
    ALPHABET
}

// The letter for a value.
#[tactic(auto, unfolding(crate::specs::Alphabet::alphabet))]
pub(crate) fn letter(value: u8) -> u8
    requires { value < 32 }
    ensures { result ≡ letter_of value }
{
    ALPHABET[usize::from(value)]
}

fn place_of(letter: u8) -> Option<usize>
    ensures { result ≡ position (λ c. c == letter) letters }
{
    alphabet().iter().position(|c| *c == letter)
}

// The value of a letter.
#[tactic(auto, using(crate::proofs::AlphabetLemmas::positions))]
pub(crate) fn value_of(letter: u8) -> Option<u8>
    ensures exact { MatchOption result (value_at letter ≡ 32) (λ v. v ≡ value_at letter) }
    ensures small { MatchOption result (Unit {0}) (λ v. v < 32) }
{
    match place_of(letter) {
        Some(place) => Some(place as u8),
        None => None,
    }
}
