//! SipHash-2-4 (Aumasson and Bernstein, "SipHash: a fast short-input PRF"): a keyed hash of bytes,
//! with two rounds for each word and four at the end.
#![tactic(auto)]

ghost use Rattle.std.specs.Prelude.{◌≡◌, ◌<◌, ◌-◌, ◌%◌, ◌++◌, ◌∷◌, [], length, replicate};
ghost use Rattle.cf_siphash.specs.SipHash.{start, round, absorb, finish, last_word as last_word_of, sip24_of};

// The four words that a hash goes on from.
#[derive(Clone, Copy, Debug, PartialEq, Eq)]
struct State {
    v0: u64,
    v1: u64,
    v2: u64,
    v3: u64,
}

impl State {
    #[tactic(auto, unfolding(crate::specs::SipHash::start))]
    fn new(k0: u64, k1: u64) -> State
        ensures { result ≡ start k0 k1 }
    {
        State {
            v0: k0 ^ 0x736f_6d65_7073_6575,
            v1: k1 ^ 0x646f_7261_6e64_6f6d,
            v2: k0 ^ 0x6c79_6765_6e65_7261,
            v3: k1 ^ 0x7465_6462_7974_6573,
        }
    }

    #[tactic(auto, unfolding(crate::specs::SipHash::round))]
    fn round(self) -> State
        ensures { result ≡ round self }
    {
        let State { v0, v1, v2, v3 } = self;
        let v0 = v0.wrapping_add(v1);
        let v1 = v1.rotate_left(13) ^ v0;
        let v2 = v2.wrapping_add(v3);
        let v3 = v3.rotate_left(16) ^ v2;
        let v0 = v0.rotate_left(32).wrapping_add(v3);
        let v3 = v3.rotate_left(21) ^ v0;
        let v2 = v2.wrapping_add(v1);
        let v1 = v1.rotate_left(17) ^ v2;
        let v2 = v2.rotate_left(32);
        State { v0, v1, v2, v3 }
    }

    #[tactic(auto, unfolding(crate::specs::SipHash::absorb))]
    fn absorb(self, word: u64) -> State
        ensures { result ≡ absorb self word }
    {
        let mut state = self;
        state.v3 ^= word;
        state = state.round().round();
        state.v0 ^= word;
        state
    }

    #[tactic(auto, unfolding(crate::specs::SipHash::finish))]
    fn finish(self) -> u64
        ensures { result ≡ finish self }
    {
        let mut state = self;
        state.v2 ^= 0xff;
        let State { v0, v1, v2, v3 } = state.round().round().round().round();
        v0 ^ v1 ^ v2 ^ v3
    }
}

// The bytes that are left after the whole words, zeros, and the length of all in the top byte.
fn padded(len: usize, rest: &[u8]) -> [u8; 8]
    requires { length rest.now < 8 }
    ensures { result ≡ rest.now ++ replicate (7 - length rest.now) 0 ++ (len % 256 ∷ []) }
{
    let mut word = [0u8; 8];
    word[..rest.len()].copy_from_slice(rest);
    word[7] = (len % 256) as u8;
    word
}

fn last_word(len: usize, rest: &[u8]) -> u64
    requires { length rest.now < 8 }
    ensures { result ≡ last_word_of len rest.now }
{
    u64::from_le_bytes(padded(len, rest))
}

/// SipHash-2-4 of some bytes, with the key's two halves as words of eight bytes, the low byte first.
/// It takes no memory.
#[tactic(auto, unfolding(crate::specs::SipHash::sip24_of))]
pub fn sip24(k0: u64, k1: u64, bytes: &[u8]) -> u64
    ensures { result ≡ sip24_of k0 k1 bytes.now }
{
    let mut state = State::new(k0, k1);
    let mut rest = bytes;
    while let Some((word, more)) = rest.split_first_chunk::<8>() {
        state = state.absorb(u64::from_le_bytes(*word));
        rest = more;
    }
    state.absorb(last_word(bytes.len(), rest)).finish()
}
