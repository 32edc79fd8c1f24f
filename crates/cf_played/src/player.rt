//! One peer in memory.
ghost use Rattle.std.specs.Prelude.{◌≡◌, ◌∷◌, pos, true, Some, OnOk, OnErr, IfOk, [], if◌then◌else◌};
ghost use Rattle.cf_chain.specs.{replies_to};
ghost use Rattle.cf_peer.specs.{spelled};
ghost use Rattle.cf_msg.specs.{is_version as version_is};
ghost use Rattle.cf_played.specs.Answers.{is_answered as is_heard, frames_from, heard_of, is_plain};
ghost use Rattle.cf_played.specs.Frames.{AreFramesAlike, machine};
ghost use Rattle.cf_played.specs.Players.{IsAnswered};
ghost use Rattle.cf_server.specs.{AreRepliesOf, messages_of, text_of};

use crate::filtered::Filtered;
use crate::frames::{own_frame, put_frame};
use crate::hearing::message_sent;
use crate::kind::Way;
use crate::omitting::omitted_text;
use crate::waiting::Waiting;
use cf_bytes::{Listed, NoMemory};
use cf_index::Index;
use cf_msg::Msg;
use cf_server::{Replies, Reply, Serving, answer};
use std::alloc::Global;

// A peer: its chain, how it answers, its own filters where it makes them otherwise, whether a version has come, and the
// bytes that wait to be delivered.
#[derive(Drop)]
pub(crate) struct Player {
    pub(crate) index: Index,
    pub(crate) way: Way,
    pub(crate) filters: Listed<Filtered>,
    pub(crate) seen: bool,
    pub(crate) waiting: Waiting,
}

// The frames of replies, one after another.
fn plain_text(
    alloc: Global,
    index: &Index,
    seen: bool,
    replies: &[Reply],
) -> Result<Vec<u8>, NoMemory>
    requires { AreRepliesOf index.now replies.now }
    ensures exact { IfOk result (λ text. text.items ≡ text_of (messages_of (machine seen) index.now replies.now)) }
    ensures alike { IfOk result (λ text. AreFramesAlike (messages_of (machine seen) index.now replies.now) text.items) }
{
    let mut text = Vec::new(alloc);
    for reply in replies {
        let frame = own_frame(alloc, index, seen, *reply)?;
        put_frame(&mut text, frame)?;
    }
    Ok(text)
}

// Whether a silent peer answers a message.
fn is_answered(msg: &Msg) -> bool
    ensures { result ≡ is_heard msg.now }
{
    matches!(msg, Msg::Version { .. } | Msg::GetHeaders { .. })
}

fn is_version(msg: &Msg) -> bool
    ensures { result ≡ version_is msg.now }
{
    matches!(msg, Msg::Version { .. })
}

impl Player {
    // Whether it answers a message at all.
    fn hears(&self, msg: &Msg) -> bool
        ensures { heard_of self.now.way (msg.now ∷ []) ≡ (if result then msg.now ∷ [] else []) }
    {
        match self.way {
            Way::Honest | Way::Omits => true,
            Way::Silent => is_answered(msg),
        }
    }

    // The frames of its answers to a message: of a plain one the machine's replies, and of any one messages that are
    // like them.
    fn answer_text(&self, alloc: Global, msg: &Msg) -> Result<Vec<u8>, NoMemory>
        ensures plain { IfOk result (λ text. is_plain self.now.way ≡ true
            → text.items ≡ frames_from self.now.seen self.now.index (msg.now ∷ [])) }
        ensures alike { IfOk result
            (λ text. AreFramesAlike (replies_to (pos 0) 0 self.now.index self.now.seen msg.now) text.items) }
    {
        let mut served = Serving {
            time: 0,
            nonce: 0,
            seen: self.seen,
        };
        let mut replies = Replies::new(alloc);
        answer(&self.index, &mut served, msg, &mut replies)?;
        match self.way {
            Way::Honest | Way::Silent => {
                plain_text(alloc, &self.index, self.seen, replies.as_slice())
            }
            Way::Omits => omitted_text(
                alloc,
                &self.index,
                self.filters.as_slice(),
                self.seen,
                replies.as_slice(),
            ),
        }
    }

    // Answers a message that it answers: the frames of the answers are put behind the bytes that wait.
    #[tactic(auto, using(crate::proofs::Hears::one_heard))]
    fn put_answer(&mut self, alloc: Global, msg: &Msg) -> Result<(), NoMemory>
        requires { heard_of self.old.way (msg.now ∷ []) ≡ msg.now ∷ [] }
        ensures ok { OnOk result (IsAnswered self.old (Some msg.now) self.new) }
        ensures err { OnErr result (self.new ≡ self.old) }
    {
        let text = self.answer_text(alloc, msg)?;
        self.waiting.put(&text)?;
        if is_version(msg) {
            self.seen = true;
        }
        Ok(())
    }

    // Answers a message, or passes over it. Where no memory is found nothing has changed.
    fn take(&mut self, alloc: Global, msg: &Msg) -> Result<(), NoMemory>
        ensures ok { OnOk result (IsAnswered self.old (Some msg.now) self.new) }
        ensures err { OnErr result (self.new ≡ self.old) }
    {
        if self.hears(msg) {
            return self.put_answer(alloc, msg);
        }
        Ok(())
    }

    // Answers what was sent, if it spells a message.
    #[tactic(auto, using(crate::proofs::Hears::nothing_heard))]
    pub(crate) fn hear(&mut self, alloc: Global, bytes: &[u8]) -> Result<(), NoMemory>
        ensures ok { OnOk result (IsAnswered self.old (spelled bytes.now) self.new) }
        ensures err { OnErr result (self.new ≡ self.old) }
    {
        match message_sent(alloc, bytes)? {
            Some(msg) => self.take(alloc, &msg),
            None => Ok(()),
        }
    }
}
