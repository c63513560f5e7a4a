//! A law of the plans of commands: the clause is the law, and the function does nothing.

ghost use Rattle.mtc_access.specs.Asking.{AskingKeepsJournals};

/// A command that only asks adds no record to a journal, whatever files there are; it makes no
/// journal, and only reads the files beside those that it opens.
pub fn law_asking_leaves_all()
    ensures { AskingKeepsJournals }
{}
