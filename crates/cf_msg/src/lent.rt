//! Frames of what is lent: a message holds its block, and so can't be made of one that is only lent.
ghost use Rattle.std.specs.Prelude.{◌≡◌, IfOk};
ghost use Rattle.cf_block.specs.{IsBlock};
ghost use Rattle.cf_frame.specs.{IsFrame};
ghost use Rattle.cf_msg.specs.declared.msg.Msg.TheVariants.{Block as BlockMessage};
ghost use Rattle.cf_msg.specs.Message.{frame_of};

use crate::command::BLOCK;
use cf_block::{Block, block_bytes};
use cf_bytes::NoMemory;
use cf_frame::{Frame, Payload};
use std::alloc::Global;

/// The frame that carries a block. The block keeps to the rules of its bytes.
#[tactic(auto, unfolding(crate::specs::Message::payload_of))]
pub fn frame_block(alloc: Global, block: &Block) -> Result<Frame, NoMemory>
    requires { IsBlock block.now }
    ensures exact { IfOk result (λ f. f ≡ frame_of (BlockMessage block.now)) }
    ensures frame { IfOk result (λ f. IsFrame f) }
{
    let payload = block_bytes(alloc, block)?;
    Ok(Frame {
        command: BLOCK,
        payload: Payload::from_vec(payload),
    })
}
