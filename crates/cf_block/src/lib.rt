//! Headers, transactions and blocks of the Bitcoin protocol, by the Bitcoin developer reference.
#![tactic(auto)]

mod commitment;
mod fault;
mod feeding;
mod genesis_block;
mod header;
mod laws;
mod merkle;
mod parse;
mod script;
mod size;
mod stored;
mod tx;
mod witness;
mod write;

pub use cf_bytes::Listed;
pub use commitment::{
    CommitFault, TxIds, check_commitment, check_commitment_by, fault_by, is_coinbase, txids,
};
pub use fault::{BlockFault, BlockFaultKind};
pub use feeding::txid;
pub use genesis_block::genesis;
pub use header::{Header, block_hash, genesis_hash, genesis_header, parse_header, write_header};
pub use laws::{
    laws_of_blocks, laws_of_genesis, laws_of_headers, laws_of_stored_blocks, laws_of_transactions,
};
pub use merkle::{is_mutated, merkle_root};
pub use parse::{
    MAX_BLOCK, parse_block, parse_tx, place, read_count, read_counted, read_header,
    read_input_count, read_outpoint, read_u32, read_value, read_version,
};
pub use script::Script;
pub use stored::{parse_stored, read_stored_tx};
pub use tx::{Block, OutPoint, Tx, TxIn, TxIns, TxOut, TxOuts, Txs};
pub use witness::write_with_witness;
pub use write::{block_bytes, tx_bytes, write_block, write_tx};
