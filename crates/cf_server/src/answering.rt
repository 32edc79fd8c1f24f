//! What is answered to a message.
ghost use Rattle.std.specs.Prelude.{◌≡◌, ℕ, ◌||◌, false, take, OnOk, OnErr};
ghost use Rattle.cf_chain.specs.{replies_to};
ghost use Rattle.cf_msg.specs.{is_version as version_is};
ghost use Rattle.cf_server.specs.Replies.{Adds};

use crate::plan::plan;
use crate::reply::Replies;
use cf_bytes::NoMemory;
use cf_index::Index;
use cf_msg::Msg;

/// What a connection is served by: the time and the nonce of the server's own `version`, and whether the peer's has
/// come.
#[derive(Clone, Copy, Debug, PartialEq, Eq)]
pub struct Serving {
    pub time: i64,
    pub nonce: u64,
    pub seen: bool,
}

impl Serving {
    /// Before the peer's `version`.
    pub fn new(moment: i64, nonce: u64) -> Serving
        ensures { result ≡ record { time = moment; nonce = nonce; seen = false } }
    {
        Serving {
            time: moment,
            nonce,
            seen: false,
        }
    }
}

/// Puts the replies to a message at the end. Where no memory is found a beginning of them may stand there.
pub fn answer(
    index: &Index,
    served: &mut Serving,
    msg: &Msg,
    out: &mut Replies,
) -> Result<(), NoMemory>
    ensures ok { OnOk result (Adds served.old index.now out.old out.new
        (replies_to served.old.time served.old.nonce index.now served.old.seen msg.now)) }
    ensures err { OnErr result ((n : ℕ) × Adds served.old index.now out.old out.new
        (take n (replies_to served.old.time served.old.nonce index.now served.old.seen msg.now))) }
    ensures seen { OnOk result (served.new ≡ record served.old { seen = version_is msg.now || served.old.seen }) }
    ensures kept { OnErr result (served.new ≡ served.old) }
{
    plan(index, served.seen, msg, out)?;
    if is_version(msg) {
        served.seen = true;
    }
    Ok(())
}

fn is_version(msg: &Msg) -> bool
    ensures { result ≡ version_is msg.now }
{
    matches!(msg, Msg::Version { .. })
}
