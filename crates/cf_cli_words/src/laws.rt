//! Laws of the program's words: functions that do nothing, whose contracts say them.
ghost use Rattle.std.specs.Prelude.{◌≡◌, ℕ, ℤ, List, true};
ghost use Rattle.cf_answers.specs.declared.status.Status.{Status as Answer};
ghost use Rattle.cf_cli.specs.Doing.{Around};
ghost use Rattle.cf_cli_headline.specs.Kept.{HasScripts};
ghost use Rattle.cf_cli_words.specs.Wording.{ArePlainPeers, DoesAsked, HeadlineOverTape, HeadlineOverWires, UsesNewTape, UsesNewWires};
ghost use Rattle.cf_plain.specs.Plain.{is_plain, replay_words, sync_words};

/// `cf sync WATCH PEER..` has the headline, over wires that tell their log and a watch file of hexadecimal lines.
pub fn the_headline_of_sync()
    ensures { (program watch : List ℕ) (peers scripts : List (List ℕ)) (status : Answer) (moment : ℤ) (nonce : ℕ)
        (before after : Around) → DoesAsked (sync_words program watch peers) status moment nonce before after
        → UsesNewWires status before after → is_plain watch ≡ true → ArePlainPeers peers
        → HasScripts before.files watch scripts → HeadlineOverWires status scripts before after }
{}

/// `cf replay WATCH SESSION` has it over its tape.
pub fn the_headline_of_replay()
    ensures { (program watch session : List ℕ) (scripts : List (List ℕ)) (status : Answer) (moment : ℤ) (nonce : ℕ)
        (before after : Around) → DoesAsked (replay_words program watch session) status moment nonce before after
        → UsesNewTape status before after → is_plain watch ≡ true → is_plain session ≡ true
        → HasScripts before.files watch scripts → HeadlineOverTape status scripts before after }
{}
