//! Texts, seen as their bytes.
ghost use Rattle.std.specs.Prelude.{◌≡◌, IfOk, map, string_bytes};
ghost use Rattle.std.specs.List.{list_all};
ghost use Rattle.cf_input.specs.Name.{is_printable, is_name};
ghost use Rattle.cf_input.specs.Words.{are_names};

use cf_bytes::{MOST_PEERS, NoMemory};
use std::alloc::Global;
use std::marker::Model;

/// A text that contracts see as its bytes.
#[derive(Drop)]
pub struct Word {
    text: String,
}

impl Model for Word {
    ghost use Rattle.std.specs.Prelude.{List, ℕ, string_bytes};

    ghost Value = { List ℕ };

    ghost view = { λ t. string_bytes t.text };
}

impl Word {
    /// A copy of this text.
    pub fn new(alloc: Global, text: &str) -> Result<Word, NoMemory>
        ensures { IfOk result (λ t. t ≡ text.now) }
    {
        let text = String::from_str(alloc, text)?;
        Ok(Word { text })
    }

    /// The text, borrowed.
    pub fn as_str(&self) -> &str
        ensures { result.now ≡ self.now }
    {
        self.text.as_str()
    }
}

/// The names of peers, in order, that contracts see as a list of their bytes.
#[derive(Drop)]
pub struct PeerNames {
    names: Vec<String>,
}

impl Model for PeerNames {
    ghost use Rattle.std.specs.Prelude.{List, ℕ, map, string_bytes};

    ghost Value = { List (List ℕ) };

    ghost view = { λ p. map string_bytes p.names.items };
}

impl PeerNames {
    /// Copies of these texts, in order.
    pub fn new(alloc: Global, texts: &[&str]) -> Result<PeerNames, NoMemory>
        ensures { IfOk result (λ p. p ≡ map (λ t. t.now) texts.now) }
    {
        let mut names = Vec::new(alloc);
        for text in texts {
            names.push(String::from_str(alloc, text)?)?;
        }
        Ok(PeerNames { names })
    }

    /// The names, in order.
    pub fn as_slice(&self) -> &[String]
        ensures { map string_bytes result.now ≡ self.now }
    {
        self.names.as_slice()
    }
}

fn is_all_printable(text: &[u8]) -> bool
    ensures { result ≡ list_all is_printable text.now }
{
    text.iter().all(|b| *b >= 0x21 && *b <= 0x7e)
}

/// Whether this can be a peer's name: 1 to 255 bytes from 0x21 to 0x7e.
pub fn is_name(text: &[u8]) -> bool
    ensures { result ≡ is_name text.now }
{
    let printable = is_all_printable(text);
    let n = text.len();
    printable && n > 0 && n <= 255
}

fn is_all_names(texts: &[&str]) -> bool
    ensures { result ≡ list_all (λ t. is_name t.now) texts.now }
{
    texts.iter().all(|text| is_name(text.as_bytes()))
}

/// Whether these are the names of 1 to 8 peers.
#[tactic(auto, using(crate::proofs::TextLemmas::all_mapped, crate::proofs::TextLemmas::length_mapped))]
pub fn are_names(texts: &[&str]) -> bool
    ensures { result ≡ are_names (map (λ t. t.now) texts.now) }
{
    let named = is_all_names(texts);
    let n = texts.len();
    named && n > 0 && n <= MOST_PEERS
}
