//! The check value of an address (BIP 173 "Checksum", BIP 350).
ghost use Rattle.std.specs.Prelude.{◌≡◌, ◌<◌, ◌^◌, ◌++◌, ◌∷◌, map, ◌/◌, ◌%◌, ◌+◌, ◌*◌, slice_index, length, IsTrue, ◌↔◌};
ghost use Rattle.cf_address.specs.Bits.{AreBelow};
ghost use Rattle.cf_address.specs.Checksum.{where_set as where_is_set, times_generator as generator_times, remainder_with as remainder_and, remainder_from, expanded, bech32_checksum, checksum_for};

// A number where bit i of b is set, else 0.
#[tactic(auto, unfolding(crate::specs::Checksum::where_set))]
fn where_set(b: u32, i: u32, number: u32) -> u32
    requires { i < 32 }
    ensures { result ≡ where_is_set b i number }
{
    if b >> i & 1 == 1 { number } else { 0 }
}

#[tactic(auto, unfolding(crate::specs::Checksum::times_generator))]
fn times_generator(b: u32) -> u32
    ensures { result ≡ generator_times b }
{
    where_set(b, 0, 0x3b6a_57b2)
        ^ where_set(b, 1, 0x2650_8e6d)
        ^ where_set(b, 2, 0x1ea1_19fa)
        ^ where_set(b, 3, 0x3d42_33dd)
        ^ where_set(b, 4, 0x2a14_62b3)
}

#[tactic(auto, unfolding(crate::specs::Checksum::remainder_with))]
fn remainder_with(c: u32, value: u8) -> u32
    ensures { result ≡ remainder_and c value }
{
    (c % 0x0200_0000 * 32) ^ u32::from(value) ^ times_generator(c / 0x0200_0000)
}

// The remainder once all these values have come.
pub(crate) fn remainder(start: u32, values: &[u8]) -> u32
    ensures { result ≡ remainder_from start values.now }
{
    values
        .iter()
        .fold(start, |c, value| remainder_with(c, *value))
}

fn remainder_of_upper(start: u32, prefix: &[u8]) -> u32
    ensures { result ≡ remainder_from start (map (λ b. b / 32) prefix.now) }
{
    prefix.iter().fold(start, |c, b| remainder_with(c, *b / 32))
}

fn remainder_of_lower(start: u32, prefix: &[u8]) -> u32
    ensures { result ≡ remainder_from start (map (λ b. b % 32) prefix.now) }
{
    prefix.iter().fold(start, |c, b| remainder_with(c, *b % 32))
}

/// The check value of a prefix and the values after it.
pub(crate) fn checksum(prefix: &[u8], values: &[u8]) -> u32
    ensures { result ≡ bech32_checksum prefix.now values.now }
{
    let upper = remainder_of_upper(1, prefix);
    let lower = remainder_of_lower(remainder_with(upper, 0), prefix);
    remainder(lower, values)
}

/// What the check value of an address of this version has to be.
pub(crate) fn constant(version: u8) -> u32
    ensures { result ≡ checksum_for version }
{
    if version == 0 { 1 } else { 0x2bc8_30a3 }
}
