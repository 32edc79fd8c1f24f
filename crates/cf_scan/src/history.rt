//! The history of watched scripts, and its text.
ghost use Rattle.std.specs.Prelude.{◌≡◌, ◌++◌, [], IfOk, OnOk, string_bytes};
ghost use Rattle.std.specs.Bool.{Decides};
ghost use Rattle.cf_scan.specs.Extracts.{history_of};
ghost use Rattle.cf_scan.specs.Scan.{balance_of};
ghost use Rattle.cf_scan.specs.HistoryText.{entry_line, last_line, history_text};

use crate::extracts::Placed;
use crate::ledger::Ledger;
use cf_bytes::{Hash32, NoMemory, show};
use std::alloc::Global;
use std::marker::Model;

/// A transaction that spends watched coins or pays watched scripts. Values are in satoshis.
#[derive(Clone, Copy, Debug, PartialEq, Eq)]
pub struct Entry {
    pub height: u32,
    pub txid: Hash32,
    /// The sum of its outputs to watched scripts.
    pub received: u128,
    /// The sum of the watched coins that it spends.
    pub spent: u128,
    /// The sum of the watched coins after it.
    pub balance: u128,
}

/// Entries in the order of the chain. Contracts see their list.
#[derive(Drop)]
pub struct History {
    pub(crate) entries: Vec<Entry>,
}

impl Model for History {
    ghost use Rattle.std.specs.Prelude.{List};
    ghost use Rattle.cf_scan.specs.declared.history.Entry.{Entry};

    ghost Value = { List Entry };

    ghost view = { λ h. h.entries.items };
}

// Writes the line of an entry at the end of a text.
fn put_entry(alloc: Global, entry: &Entry, text: &mut String) -> Result<(), NoMemory>
    ensures { OnOk result (string_bytes text.new ≡ string_bytes text.old ++ entry_line entry.now) }
{
    let txid = show(alloc, &entry.txid)?;
    let height = entry.height;
    let received = entry.received;
    let spent = entry.spent;
    let balance = entry.balance;
    write!(text, "{height} {txid} +{received} -{spent} {balance}\n")?;
    Ok(())
}

// Writes the last line at the end of a text.
fn put_last(alloc: Global, height: u32, tip: &Hash32, text: &mut String) -> Result<(), NoMemory>
    ensures { OnOk result (string_bytes text.new ≡ string_bytes text.old ++ last_line height tip.now.0) }
{
    let hash = show(alloc, tip)?;
    write!(text, "synced {height} {hash}\n")?;
    Ok(())
}

impl History {
    /// No entry.
    pub fn empty(alloc: Global) -> History
        ensures { result ≡ [] }
    {
        History {
            entries: Vec::new(alloc),
        }
    }

    /// The history that these extracts tell, in their order: for each transaction the watched coins
    /// that it spends are taken out, each once, and then its outputs to watched scripts are put in.
    /// One entry comes for each transaction that does either.
    ///
    /// Over the extracts of a chain's blocks, from height 1 on, it is the plain scan of the blocks.
    pub fn of(alloc: Global, blocks: &[Placed]) -> Result<History, NoMemory>
        ensures { IfOk result (λ history. history ≡ history_of blocks.now) }
    {
        let mut ledger = Ledger::new(alloc);
        for block in blocks {
            ledger = ledger.add_block(block.height, &block.extract)?;
        }
        Ok(ledger.into_history())
    }

    /// The sum of the watched coins after the last entry, in satoshis; 0 where there is none.
    pub fn balance(&self) -> u128
        ensures { result ≡ balance_of self.now }
    {
        match self.entries.last() {
            Some(entry) => entry.balance,
            None => 0,
        }
    }

    /// A line `HEIGHT TXID +RECEIVED -SPENT BALANCE` for each entry, numbers in decimal, and the
    /// last line `synced HEIGHT HASH`, at the height and the hash of the chain's tip. Hashes are
    /// shown with the last byte first. Each line ends with LF.
    pub fn text(&self, alloc: Global, height: u32, tip: &Hash32) -> Result<String, NoMemory>
        ensures { IfOk result (λ text. string_bytes text ≡ history_text self.now height tip.now.0) }
    {
        let mut text = String::new(alloc);
        for entry in self.entries.as_slice() {
            put_entry(alloc, entry, &mut text)?;
        }
        put_last(alloc, height, tip, &mut text)?;
        Ok(text)
    }

    /// Whether the entries are the same.
    pub fn is_same(&self, other: &History) -> bool
        ensures { Decides result (self.now ≡ other.now) }
    {
        self.entries.as_slice() == other.entries.as_slice()
    }
}
