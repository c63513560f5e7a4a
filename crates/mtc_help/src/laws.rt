//! What the text of `help` says: the clause is the law, and the function does nothing.

ghost use Rattle.std.specs.Prelude.{◌≡◌, ℕ, Some, map, slice_get};
ghost use Rattle.mtc_words.specs.Names.{word_count};
ghost use Rattle.mtc_words.specs.declared.name.Name.{Name};
ghost use Rattle.mtc_help.specs.HelpOutcome.{help_text};
ghost use Rattle.mtc_help.specs.Listing.{listed_commands, listed_in};

/// The text of `help` has a line for each of `listed_commands`, in the order of docs/COMMANDS.md:
/// each begins with the word of its command, and names as many arguments as that takes. No command
/// is left out of the list.
pub fn law_help_lists_the_commands()
    ensures lines { listed_in help_text
        ≡ map (λ name. (Some name, word_count name)) listed_commands }
    ensures all { (name : Name) → (place : ℕ) × (slice_get listed_commands place ≡ Some name) }
{}
