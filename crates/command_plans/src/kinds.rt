//! The kinds of journals that commands work on.

/// What parties of each kind make of their records, and which file goes with a journal. It has no
/// value and no call: it names the kinds over which laws of plans are proved.
pub trait JournalKinds {
    ghost use Rattle.command_plans.specs.Kinds.{Kinds};

    // What each kind is.
    ghost kinds: { Kinds };
}
