//! Laws of logs: functions that do nothing, whose contracts say them.
ghost use Rattle.std.specs.Prelude.{◌≡◌, ℕ, Bool, true, List, []};
ghost use Rattle.cf_wires.specs.Log.{Log};
ghost use Rattle.cf_msg.specs.declared.msg.Msg.{Msg};
ghost use Rattle.cf_scan.specs.{history_text};
ghost use Rattle.cf_sync.specs.Example.{chain_of_one, cleared_run, only_hash, other_watch};
ghost use Rattle.cf_sync.specs.Fetching.{AreBytes, Rightly};
ghost use Rattle.cf_headline.specs.Grounds.{HasWritten, WereBytes, WereGreeted};
ghost use Rattle.cf_headline.specs.Headline.{Headline, IsLongest, IsServing, WasSent};

/// The headline, of each log in which the client did as it may: what it has written once it has asked all that it may
/// and nothing is open is the scan of the chain that a peer serves, and such a peer is never closed.
pub fn the_headline()
    ensures { (done : Bool) (scripts : List (List ℕ)) (text : List ℕ) (log : Log) → AreBytes log → Rightly log
        → WereGreeted log → (done ≡ true → HasWritten scripts text log) → Headline (done ≡ true) scripts text log }
{}

/// What a client sends rightly to a peer, where it is bytes, is messages as they are written: so no peer is called
/// dishonest for want of something that it could answer.
pub fn what_is_sent_is_messages()
    ensures { (log : Log) (p : ℕ) → WereBytes log → Rightly log → (ms : List Msg) × WasSent ms log p }
{}

/// All that the headline asks for can be met: a run with two peers, of whom one serves a chain of one block, and the
/// other claims seven blocks and shows none. Its strings don't clash, nobody shows another chain, and what was written
/// is the history of that chain.
pub fn a_run_that_the_headline_speaks_of()
    ensures serving { IsServing cleared_run 1 chain_of_one }
    ensures longest { IsLongest cleared_run chain_of_one }
    ensures greeted { WereGreeted cleared_run }
    ensures written { HasWritten other_watch (history_text [] 1 only_hash.0) cleared_run }
{}
