//! Laws of arguments: each is the contract of a function that does nothing, so that a caller can use it.
ghost use Rattle.std.specs.Prelude.{ℕ, ◌≡◌, true, false, List, ◌∷◌, length, codes, Some, None, Ok, IfSome};
ghost use Rattle.std.specs.List.{filter};
ghost use Rattle.std.specs.Str.{bytes_eq};
ghost use Rattle.distinct_arguments.specs.Arguments.{ReadsOnce, action_of, command_action, run_action, fails};
ghost use Rattle.distinct_arguments.specs.declared.commands.Command.{Command};
ghost use Rattle.distinct_arguments.specs.declared.table.OptionName.{OptionName};
ghost use Rattle.distinct_arguments.specs.Settings.{OptionValues, unknown_option, with_value};
ghost use Rattle.distinct_arguments.specs.Table.{rows, has_row, option_of, name_of, short_of, kind_of, needs_value};
ghost use Rattle.distinct_arguments.specs.Texts.{ListsOptions};
ghost use Rattle.distinct_arguments.specs.Words.{is_help, is_option, split_option, setting_with, Setting};

/// No request reads standard input twice.
pub fn standard_input_read_once()
    ensures { (words : List (List ℕ)) → ReadsOnce (action_of words) }
{}

/// The table has each option once, and no two options share a name: each is that of its name, and of its short name.
pub fn options_named_apart()
    ensures once { (option : OptionName) → length (filter (has_row option) rows) ≡ 1 }
    ensures named { (option : OptionName) → option_of (name_of option) ≡ Some option }
    ensures short { (option : OptionName) → IfSome (short_of option) (λ name. option_of name ≡ Some option) }
{}

/// The help of each command lists its options, and no others.
pub fn help_lists_options()
    ensures { (command : Command) → ListsOptions command }
{}

/// Of two values of an option the last counts, if the first is right.
pub fn last_value_counts()
    ensures { (options between : OptionValues) (option : OptionName) (name other first last : List ℕ)
        → with_value options option name first ≡ Ok between
        → with_value between option other last ≡ with_value options option other last }
{}

/// `--` ends the options.
pub fn hyphens_end_options()
    ensures { (command : Command) (options : OptionValues) (words : List (List ℕ))
        → command_action command options None (codes "--" ∷ words) ≡ run_action command options words }
{}

/// A word that looks like an option and is none is refused.
pub fn unknown_options_refused()
    ensures { (command : Command) (options : OptionValues) (word : List ℕ) (words : List (List ℕ))
        → bytes_eq word (codes "--") ≡ false
        → is_option word ≡ true
        → is_help (split_option word).name ≡ false
        → option_of (split_option word).name ≡ None
        → command_action command options None (word ∷ words) ≡ fails (unknown_option (split_option word).name) }
{}
