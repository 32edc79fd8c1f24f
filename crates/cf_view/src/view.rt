//! Blocks that lend the bytes that they were read from: nothing is copied, and no memory is taken.
ghost use Rattle.std.specs.Prelude.{ℕ, List, ◌≡◌, ◌/◌, ◌++◌, ◌∷◌, ◌<◌, ◌≤◌, ◌^◌, nat_abs, pos, ◌≤ℤ◌, length, [], true};
ghost use Rattle.std.specs.Prelude.{IfOk, IfSome, IfNone};
ghost use Rattle.std.specs.Int.{w32, w64, to_le_bytes, cast_unsigned};
ghost use Rattle.std.specs.List.{flat_map, AllByRecursion};
ghost use Rattle.cf_bytes.specs.{Reads, compact, list_at};
ghost use Rattle.cf_block.specs.{is_coinbase_tx, IsHeader, IsInput, IsOutput, IsTx, IsBlock, max_count, input_spelling, output_spelling, tx_spelling, block_spelling, txid_of, input_at, output_at, tx_fields_at, block_fields_at, block_at};
ghost use Rattle.cf_view.specs.Lent.{GivesFirst, Lends};

use crate::items::Items;
use cf_block::{
    BlockFault, BlockFaultKind, Header, MAX_BLOCK, OutPoint, Script, TxOut, place, read_count,
    read_counted, read_header, read_input_count, read_outpoint, read_u32, read_value, read_version,
};
use cf_bytes::{Cut, Hash32, NoMemory, double_hash};
use std::alloc::Global;
use std::marker::Model;

/// An input whose script is lent. A contract sees it as an input.
#[derive(Drop)]
pub struct InView<'a> {
    pub prev: OutPoint,
    pub script: &'a [u8],
    pub sequence: u32,
}

impl<'a> Model for InView<'a> {
    ghost use Rattle.cf_block.specs.declared.tx.TxIn.{TxIn};

    ghost Value = { TxIn };

    ghost view = { λ i. record { prev = i.prev; script = i.script.now; sequence = i.sequence } };
}

/// An output whose script is lent. A contract sees it as an output.
#[derive(Drop)]
pub struct OutView<'a> {
    pub value: i64,
    pub script: &'a [u8],
}

impl<'a> Model for OutView<'a> {
    ghost use Rattle.std.specs.Prelude.{pos, nat_abs, ◌≤ℤ◌};
    ghost use Rattle.cf_block.specs.{max_value};
    ghost use Rattle.cf_block.specs.Output.{Output};

    ghost Value = { Output };

    ghost view = { λ o. record { value = nat_abs o.value; script = o.script.now } };

    ghost invariant = { λ o. (pos 0 ≤ℤ o.value) × (o.value ≤ℤ pos max_value) };
}

/// Inputs that are read from lent bytes one after another. A contract sees those that are left.
#[derive(Drop)]
pub struct InsView<'a> {
    items: Items<'a>,
}

impl<'a> Model for InsView<'a> {
    ghost use Rattle.std.specs.Prelude.{List};
    ghost use Rattle.cf_block.specs.declared.tx.TxIn.{TxIn};
    ghost use Rattle.cf_view.specs.Lent.{AreThere, items_in};
    ghost use Rattle.cf_block.specs.{input_at};

    ghost Value = { List TxIn };

    ghost view = { λ v. items_in input_at v.items.left v.items.rest.now };

    ghost invariant = { λ v. AreThere input_at v.items.left v.items.rest.now };
}

/// Outputs that are read from lent bytes one after another. A contract sees those that are left.
#[derive(Drop)]
pub struct OutsView<'a> {
    items: Items<'a>,
}

impl<'a> Model for OutsView<'a> {
    ghost use Rattle.std.specs.Prelude.{List};
    ghost use Rattle.cf_block.specs.Output.{Output};
    ghost use Rattle.cf_view.specs.Lent.{AreThere, items_in};
    ghost use Rattle.cf_block.specs.{output_at};

    ghost Value = { List Output };

    ghost view = { λ v. items_in output_at v.items.left v.items.rest.now };

    ghost invariant = { λ v. AreThere output_at v.items.left v.items.rest.now };
}

/// Transactions that are read from lent bytes one after another. A contract sees those that are left.
#[derive(Drop)]
pub struct TxsView<'a> {
    items: Items<'a>,
}

impl<'a> Model for TxsView<'a> {
    ghost use Rattle.std.specs.Prelude.{List};
    ghost use Rattle.cf_block.specs.declared.tx.Tx.{Tx};
    ghost use Rattle.cf_view.specs.Lent.{AreThere, items_in};
    ghost use Rattle.cf_block.specs.{tx_fields_at};

    ghost Value = { List Tx };

    ghost view = { λ v. items_in tx_fields_at v.items.left v.items.rest.now };

    ghost invariant = { λ v. AreThere tx_fields_at v.items.left v.items.rest.now };
}

// The fields of a transaction, its inputs and outputs lent.
#[derive(Drop)]
struct TxFields<'a> {
    version: i32,
    inputs: InsView<'a>,
    outputs: OutsView<'a>,
    lock_time: u32,
}

impl<'a> Model for TxFields<'a> {
    ghost use Rattle.cf_block.specs.declared.tx.Tx.{Tx};

    ghost Value = { Tx };

    ghost view = { λ t. record {
      version = t.version;
      inputs = t.inputs;
      outputs = t.outputs;
      lock_time = t.lock_time;
    } };
}

/// A transaction whose inputs, outputs and bytes are lent. A contract sees it as a transaction.
#[derive(Drop)]
pub struct TxView<'a> {
    fields: TxFields<'a>,
    text: &'a [u8],
}

impl<'a> Model for TxView<'a> {
    ghost use Rattle.std.specs.Prelude.{◌≡◌};
    ghost use Rattle.cf_block.specs.declared.tx.Tx.{Tx};
    ghost use Rattle.cf_block.specs.{tx_spelling};

    ghost Value = { Tx };

    ghost view = { λ t. t.fields };

    ghost invariant = { λ t. t.text.now ≡ tx_spelling t.fields };
}

/// A block whose transactions are lent. A contract sees it as a block.
#[derive(Drop)]
pub struct BlockView<'a> {
    header: Header,
    txs: TxsView<'a>,
}

impl<'a> Model for BlockView<'a> {
    ghost use Rattle.cf_block.specs.declared.tx.Block.{Block};

    ghost Value = { Block };

    ghost view = { λ b. record { header = b.header; txs = b.txs } };
}

#[tactic(auto, unfolding(cf_block::specs::Reading::input_at, cf_block::specs::Tx::input_spelling))]
fn view_input<'a>(cut: &mut Cut<'a>) -> Result<InView<'a>, BlockFaultKind>
    ensures exact { Reads (λ i. i) (input_at cut.old) result cut.new }
    ensures found { IfOk result (λ i. cut.old ≡ input_spelling i ++ cut.new) }
    ensures fits { IfOk result (λ i. IsInput i) }
{
    let prev = read_outpoint(cut)?;
    let script = read_counted(cut)?;
    let sequence = read_u32(cut)?;
    Ok(InView {
        prev,
        script,
        sequence,
    })
}

#[tactic(auto, unfolding(cf_block::specs::Reading::output_at, cf_block::specs::Tx::output_spelling))]
fn view_output<'a>(cut: &mut Cut<'a>) -> Result<OutView<'a>, BlockFaultKind>
    ensures exact { Reads (λ o. o) (output_at cut.old) result cut.new }
    ensures found { IfOk result (λ o. cut.old ≡ output_spelling o ++ cut.new) }
    ensures fits { IfOk result (λ o. IsOutput o) }
{
    let value = read_value(cut)?;
    let script = read_counted(cut)?;
    Ok(OutView { value, script })
}

fn view_inputs<'a>(count: u64, cut: &mut Cut<'a>) -> Result<InsView<'a>, BlockFaultKind>
    ensures exact { Reads (λ x. x) (list_at input_at count cut.old) result cut.new }
    ensures found { IfOk result (λ xs. cut.old ≡ flat_map input_spelling xs ++ cut.new) }
    ensures fits { IfOk result (λ xs. AllByRecursion IsInput xs × (length xs ≡ count)) }
{
    let items = Items::pass(count, cut, view_input)?;
    Ok(InsView { items })
}

fn view_outputs<'a>(count: u64, cut: &mut Cut<'a>) -> Result<OutsView<'a>, BlockFaultKind>
    ensures exact { Reads (λ x. x) (list_at output_at count cut.old) result cut.new }
    ensures found { IfOk result (λ xs. cut.old ≡ flat_map output_spelling xs ++ cut.new) }
    ensures fits { IfOk result (λ xs. AllByRecursion IsOutput xs × (length xs ≡ count)) }
{
    let items = Items::pass(count, cut, view_output)?;
    Ok(OutsView { items })
}

#[tactic(auto, unfolding(cf_block::specs::Reading::tx_fields_at, cf_block::specs::Tx::tx_spelling))]
fn view_fields<'a>(cut: &mut Cut<'a>) -> Result<TxFields<'a>, BlockFaultKind>
    ensures exact { Reads (λ t. t) (tx_fields_at cut.old) result cut.new }
    ensures found { IfOk result (λ t. cut.old ≡ tx_spelling t ++ cut.new) }
    ensures fits { IfOk result (λ t. IsTx t) }
{
    let version = read_version(cut)?;
    let count = read_input_count(cut)?;
    let inputs = view_inputs(count, cut)?;
    let count = read_count(BlockFaultKind::NoOutput, cut)?;
    let outputs = view_outputs(count, cut)?;
    let lock_time = read_u32(cut)?;
    Ok(TxFields {
        version,
        inputs,
        outputs,
        lock_time,
    })
}

// The bytes of the first text, which end where the rest begins.
fn text_before<'a>(start: &'a [u8], rest: &[u8]) -> &'a [u8]
    requires { length rest.now ≤ length start.now }
    ensures { (text : List ℕ) → start.now ≡ text ++ rest.now → result.now ≡ text }
{
    &start[..start.len() - rest.len()]
}

// Takes the bytes before the field that is refused.
fn view_tx<'a>(cut: &mut Cut<'a>) -> Result<TxView<'a>, BlockFaultKind>
    ensures exact { Reads (λ t. t) (tx_fields_at cut.old) result cut.new }
    ensures found { IfOk result (λ t. cut.old ≡ tx_spelling t ++ cut.new) }
    ensures fits { IfOk result (λ t. IsTx t) }
{
    let start = cut.rest();
    let fields = view_fields(cut)?;
    let text = text_before(start, cut.rest());
    Ok(TxView { fields, text })
}

fn view_txs<'a>(count: u64, cut: &mut Cut<'a>) -> Result<TxsView<'a>, BlockFaultKind>
    ensures exact { Reads (λ x. x) (list_at tx_fields_at count cut.old) result cut.new }
    ensures found { IfOk result (λ xs. cut.old ≡ flat_map tx_spelling xs ++ cut.new) }
    ensures fits { IfOk result (λ xs. AllByRecursion IsTx xs × (length xs ≡ count)) }
{
    let items = Items::pass(count, cut, view_tx)?;
    Ok(TxsView { items })
}

// Takes the bytes before the field that is refused.
#[tactic(auto, unfolding(cf_block::specs::Reading::block_fields_at, cf_block::specs::Tx::block_spelling))]
fn view_whole<'a>(cut: &mut Cut<'a>) -> Result<BlockView<'a>, BlockFaultKind>
    ensures exact { Reads (λ b. b) (block_fields_at cut.old) result cut.new }
    ensures found { IfOk result (λ b. (cut.old ≡ block_spelling b) × (cut.new ≡ [])) }
    ensures fits { IfOk result
        (λ b. IsHeader b.header × (1 ≤ length b.txs) × (length b.txs ≤ max_count) × AllByRecursion IsTx b.txs) }
{
    let header = read_header(cut)?;
    let count = read_count(BlockFaultKind::NoTx, cut)?;
    let txs = view_txs(count, cut)?;
    if !cut.rest().is_empty() {
        return Err(BlockFaultKind::Rest);
    }
    Ok(BlockView { header, txs })
}

/// The block whose bytes these are, its transactions lent. They are refused as `parse_block` refuses them: at the first
/// field that is no spelling, with that field's place, and before that where there are more than 1,000,000. It takes
/// no memory.
#[tactic(auto, unfolding(cf_block::specs::Reading::block_at, cf_block::specs::Reading::short_block_at))]
pub fn view_block(b: &[u8]) -> Result<BlockView<'_>, BlockFault>
    ensures exact { Lends (λ x. x) b.now (block_at b.now) result }
    ensures found { IfOk result (λ x. b.now ≡ block_spelling x) }
    ensures fits { IfOk result (λ x. IsBlock x) }
{
    if b.len() > MAX_BLOCK {
        return Err(BlockFault {
            kind: BlockFaultKind::TooLong,
            place: 0,
        });
    }
    let mut cut = Cut::new(b);
    match view_whole(&mut cut) {
        Ok(block) => Ok(block),
        Err(kind) => Err(BlockFault {
            kind,
            place: place(b, cut.rest()),
        }),
    }
}

impl<'a> InsView<'a> {
    /// The first input that is left, if one is.
    pub fn next(&mut self) -> Option<InView<'a>>
        ensures { GivesFirst self.old result self.new }
    {
        self.items.next(view_input)
    }
}

impl<'a> OutsView<'a> {
    /// The first output that is left, if one is.
    pub fn next(&mut self) -> Option<OutView<'a>>
        ensures { GivesFirst self.old result self.new }
    {
        self.items.next(view_output)
    }
}

impl<'a> TxsView<'a> {
    /// The first transaction that is left, if one is.
    pub fn next(&mut self) -> Option<TxView<'a>>
        ensures { GivesFirst self.old result self.new }
    {
        self.items.next(view_tx)
    }
}

impl<'a> OutView<'a> {
    /// The same output, in memory of its own.
    pub fn copy(&self, alloc: Global) -> Result<TxOut, NoMemory>
        ensures { IfOk result (λ copy. copy ≡ self.now) }
    {
        let script = Script::from_vec(Vec::from_slice(alloc, self.script)?);
        Ok(TxOut {
            value: self.value,
            script,
        })
    }
}

impl<'a> TxView<'a> {
    /// Its inputs, the first one first.
    pub fn inputs(&self) -> InsView<'a>
        ensures { result ≡ self.now.inputs }
    {
        InsView {
            items: self.fields.inputs.items,
        }
    }

    /// Its outputs, the first one first.
    pub fn outputs(&self) -> OutsView<'a>
        ensures { result ≡ self.now.outputs }
    {
        OutsView {
            items: self.fields.outputs.items,
        }
    }

    /// How many bytes it has.
    pub fn len(&self) -> usize
        ensures { result ≡ length (tx_spelling self.now) }
    {
        self.text.len()
    }

    /// The hash of its bytes.
    #[tactic(auto, unfolding(cf_block::specs::Tx::txid_of))]
    pub fn txid(&self) -> Hash32
        ensures { result.0 ≡ txid_of self.now }
    {
        double_hash(self.text)
    }

    /// Whether it makes new coins: it has one input, which names the output 0xffffffff of the hash zero.
    pub fn is_coinbase(&self) -> bool
        ensures { result ≡ is_coinbase_tx self.now }
    {
        let mut inputs = self.inputs();
        match inputs.next() {
            None => false,
            Some(input) => match inputs.next() {
                Some(_) => false,
                None => input.prev.index == u32::MAX && input.prev.txid == Hash32([0; 32]),
            },
        }
    }
}

impl<'a> BlockView<'a> {
    /// Its header.
    pub fn header(&self) -> &Header
        ensures { result.now ≡ self.now.header }
    {
        &self.header
    }

    /// Its transactions, the first one first.
    pub fn txs(&self) -> TxsView<'a>
        ensures { result ≡ self.now.txs }
    {
        TxsView {
            items: self.txs.items,
        }
    }
}
