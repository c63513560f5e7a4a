//! The rules of journals, and the programs that work on them.

/// Which records a journal of some kind may have, and what its records mean. It has no value and no
/// call: it names the rules over which laws of executions are proved.
pub trait JournalRules {
    ghost use Rattle.std.specs.Prelude.{List, Option};
    ghost use Rattle.byte_formats.specs.Types.{Text};
    ghost use Rattle.file_events.specs.Histories.{History};
    ghost use Rattle.file_events.specs.Keys.{KeyUse};

    // The lists of records that such a journal may have.
    ghost valid: { List Text → Type 0 };

    // The one-time key that a record uses after others.
    ghost use_of: { List Text → Text → Option KeyUse };

    // Where a history of such a journal may lead.
    ghost reaches: { History };

    // The bytes of a file of tiles that go with such records.
    ghost goes: { List Text → Text → Type 0 };

    // A record names no new size after others.
    ghost plain: { List Text → Text → Type 0 };

    // The steps of a cosigner that agree with the items of a mirror with such records.
    ghost agrees: { List Text → List Text → Type 0 };

    // A step is computed from such items after other steps.
    ghost computed: { List Text → List Text → Text → Type 0 };

    // A step agrees with any items.
    ghost neutral: { List Text → Text → Type 0 };
}

/// A program that works on files. It has no value and no call: it names the program over which laws
/// of executions are proved.
pub trait Programs {
    ghost use Rattle.file_events.specs.Tiles.{TilesWork};
    ghost use Rattle.file_events.specs.Worlds.{Program, Run};

    // What it runs over, and what its runs are.
    ghost program: { Program };

    // What a run does with the tiles of a journal.
    ghost how_of: { program.R → Run program.R program.O program.E → TilesWork };
}
