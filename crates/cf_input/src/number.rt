//! Numbers in decimal.
ghost use Rattle.std.specs.Prelude.{◌≡◌, ◌+◌, min};
ghost use Rattle.std.specs.List.{list_all};
ghost use Rattle.cf_input.specs.Number.{is_digit, is_number, number_of, number_at_most, number_within};

fn is_all_digits(text: &[u8]) -> bool
    ensures { result ≡ list_all is_digit text.now }
{
    text.iter().all(|b| *b >= b'0' && *b <= b'9')
}

/// Whether this is a number in decimal, without a sign and without leading zeros; `0` is one.
pub fn is_number(text: &[u8]) -> bool
    ensures { result ≡ is_number text.now }
{
    let digits = is_all_digits(text);
    match text {
        [] => false,
        [_] => digits,
        [first, _, ..] => digits && *first != b'0',
    }
}

// The number that the digits spell, or one above the greatest that is asked for.
fn number_up_to(text: &[u8], most: u32) -> u64
    ensures { result ≡ min (number_of text.now) (most + 1) }
{
    let above = u64::from(most) + 1;
    let mut number = 0u64;
    for digit in text {
        number = (10 * number + u64::from(digit.saturating_sub(b'0'))).min(above);
    }
    number
}

/// The number of this text, where it is one up to `most`.
pub fn number_at_most(text: &[u8], most: u32) -> Option<u32>
    ensures { result ≡ number_at_most most text.now }
{
    let number = number_up_to(text, most);
    if is_number(text) && number <= u64::from(most) {
        return Some(number as u32);
    }
    None
}

/// The number of this text, where it is one from 1 up to `most`.
pub fn number_within(text: &[u8], most: u32) -> Option<u32>
    ensures { result ≡ number_within most text.now }
{
    let number = number_up_to(text, most);
    if is_number(text) && number >= 1 && number <= u64::from(most) {
        return Some(number as u32);
    }
    None
}
