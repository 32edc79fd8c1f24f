//! Laws of runs: functions that do nothing, whose contracts say them.
ghost use Rattle.std.specs.Prelude.{◌≡◌, ℕ, Bool, false, List, Option};
ghost use Rattle.cf_bytes.specs.Files.{Named};
ghost use Rattle.cf_wires.specs.Log.{Log};
ghost use Rattle.cf_answers.specs.declared.status.Status.{Status as Answer};
ghost use Rattle.cf_cli_client.specs.Theorem.{KeptOnce, KeptOver};
ghost use Rattle.cf_cli_headline.specs.Kept.{GreetsUnrun, HasScripts, HeadlineOver};

/// What is promised of a run that writes no trace has the headline.
pub fn the_headline_of_a_run()
    ensures { (status : Answer) (recorded : Bool) (scripts names : List (List ℕ)) (before after : Option (List ℕ))
        (log : Log) → KeptOnce status recorded false scripts names before after log
        → GreetsUnrun status log → HeadlineOver status scripts before after log }
{}

/// So it has over a watch file of scripts, each in hexadecimal, on a line of its own: the headline speaks of those.
pub fn the_headline_over_a_watch_file()
    ensures { (status : Answer) (recorded : Bool) (files : Option Named) (watch : List ℕ)
        (scripts names : List (List ℕ)) (before after : Option (List ℕ)) (log : Log)
        → KeptOver status recorded false files watch names before after log → GreetsUnrun status log
        → HasScripts files watch scripts → HeadlineOver status scripts before after log }
{}
