//! Laws of words and of watch files: functions that do nothing, whose contracts say them.
ghost use Rattle.std.specs.Prelude.{◌≡◌, ℕ, List, true, false, None, Ok, Some};
ghost use Rattle.std.specs.List.{AllByRecursion, list_all};
ghost use Rattle.cf_bytes.specs.{IsBytes};
ghost use Rattle.cf_input.specs.{command_of, watch_of};
ghost use Rattle.cf_input.specs.Words.{are_names, most_turns};
ghost use Rattle.cf_input.specs.declared.words.Command.TheVariants.{Replay, Sync};
ghost use Rattle.cf_plain.specs.Plain.{is_plain, replay_words, sync_words, watch_lines};

/// `cf replay WATCH SESSION` asks for what it says.
pub fn the_words_of_replay()
    ensures { (program watch session : List ℕ) → is_plain watch ≡ true → is_plain session ≡ true
        → command_of (replay_words program watch session) ≡ Some (Replay false false watch session) }
{}

/// `cf sync WATCH PEER..` asks for what it says, of one to eight peers: with the most deliveries, four threads and no
/// record.
pub fn the_words_of_sync()
    ensures { (program watch : List ℕ) (peers : List (List ℕ)) → is_plain watch ≡ true → list_all is_plain peers ≡ true
        → are_names peers ≡ true → command_of (sync_words program watch peers)
        ≡ Some (Sync most_turns 4 None watch peers) }
{}

/// A watch file of scripts, each in hexadecimal on a line of its own, that is taken names those scripts.
pub fn a_watch_file_of_scripts()
    ensures { (scripts found : List (List ℕ)) → AllByRecursion IsBytes scripts
        → watch_of (watch_lines scripts) ≡ Ok found → found ≡ scripts }
{}
