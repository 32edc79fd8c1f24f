//! What the definitions say of one another.
ghost use Rattle.std.specs.Prelude.{◌≡◌, Ok};
ghost use Rattle.cf_wires.specs.Log.{Log};
ghost use Rattle.cf_wires.specs.{session_text};
ghost use Rattle.cf_input.specs.{session_of};
ghost use Rattle.cf_cli_laws.specs.Retelling.{IsRetold, told_script};

/// A record of a run reads as the dials and the deliveries that passed; a failed send reads as a peer that has gone.
pub fn laws_of_records()
    ensures again { (log : Log) → IsRetold log → session_of (session_text log) ≡ Ok (told_script log) }
{}
