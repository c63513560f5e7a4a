//! Laws of the plans of commands: the clauses are the laws, and the functions do nothing.

ghost use Rattle.std.specs.Prelude.{◌≡◌, false, List};
ghost use Rattle.std.specs.Option.{option_to_list};
ghost use Rattle.byte_formats.specs.Types.{HashFunction, Text};
ghost use Rattle.mtc_words.specs.Commands.{CommandValue, journals_of};
ghost use Rattle.mtc_words.specs.Names.{is_tiles_name};
ghost use Rattle.mtc_command.specs.Served.{IsOther};
ghost use Rattle.mtc_command.specs.Steps.{Files};
ghost use Rattle.command_plans.specs.Facts.{FoundIsValid, HeardHasPassed, MisreadIsAbout};
ghost use Rattle.command_plans.specs.Facts.{NoCommandIsBadWords, OutcomesCome, UnopenedIsEarly};
ghost use Rattle.command_plans.specs.Names.{beside_names, journal_names, made_names};
ghost use Rattle.command_plans.specs.Names.{only_read_names};
ghost use Rattle.command_plans.specs.Plans.{Journal};
ghost use Rattle.mtc_plans.specs.Cited.{command_outcome};
ghost use Rattle.mtc_plans.specs.Commands.{plan_of, planned_outcome};
ghost use Rattle.mtc_plans.specs.Heard.{AdvancedTextsAreOfRecords, BegunTextsAreOfSecrets};
ghost use Rattle.mtc_plans.specs.Heard.{ChildTextsAreOfRecords, CosignedTextsAreOfRecords};
ghost use Rattle.mtc_plans.specs.Heard.{ExportedTextsAreOfRecords};
ghost use Rattle.mtc_plans.specs.Heard.{IssuedListsAreOfRecords, IssuedTextsAreOfRecords};
ghost use Rattle.mtc_plans.specs.Heard.{KeyTextsAreOfSecrets, MirrorAdvancedTextsAreOfRecords};
ghost use Rattle.mtc_plans.specs.Heard.{MirrorCosignedTextsAreOfRecords};
ghost use Rattle.mtc_plans.specs.Heard.{SwitchedTextsAreOfRecords};
ghost use Rattle.mtc_plans.specs.PartyKinds.{party_kinds};
ghost use Rattle.mtc_plans.specs.Streams.{StreamsAddNone, StreamsMakeNone};
ghost use Rattle.mtc_plans.specs.Words.{journal_made_by, only_read_by};

/// What each command has to answer, as its contract cites it, is what comes of its plan.
pub fn law_commands_have_plans()
    ensures { (h : HashFunction) (command : CommandValue) (files : Files)
        → command_outcome h command files ≡ planned_outcome h command files }
{}

/// The journals of a command's plan are those that its arguments name, in their order, and it makes
/// one if the command begins a log, a cosigner or a mirror. A file beside a journal of any plan is
/// one of tiles, so a journal whose name isn't that of a tile file has another place than these.
/// `tile`, `tile-anew` and `mirror-tile` alone write such a file: every other command only reads
/// the one beside its journal.
pub fn law_plans_name_their_files()
    ensures journals { (h : HashFunction) (command : CommandValue)
        → journal_names (plan_of h command).journals ≡ journals_of command }
    ensures makes { (h : HashFunction) (command : CommandValue)
        → made_names (plan_of h command).journals ≡ option_to_list (journal_made_by command) }
    ensures beside { (h : HashFunction) (leads_to : Text → Text)
        (journals : List (Journal (party_kinds h))) (name : Text)
        → is_tiles_name name ≡ false → IsOther leads_to (beside_names journals) name }
    ensures only_read { (h : HashFunction) (command : CommandValue)
        → only_read_names (plan_of h command).journals
        ≡ only_read_by command (beside_names (plan_of h command).journals) }
{}

/// A command that may write its text while it reads its journal adds no record and makes no
/// journal, whatever files there are: `entries`, `entries-from`, `export` and `mirror-entries`.
pub fn law_streams_add_no_record()
    ensures records { StreamsAddNone }
    ensures journals { StreamsMakeNone }
{}

/// What is proved of every plan holds of the program's kinds of journals: each outcome is one of
/// six; status 1 is for arguments alone, and status 2 about a file that the command reads, a
/// journal that it opens or a tile of one; a journal that isn't opened goes with an early status;
/// what is found is what its file represents; and a command that is heard has passed all tests.
pub fn law_commands_come()
    ensures six { (h : HashFunction) → OutcomesCome (party_kinds h) }
    ensures words { (h : HashFunction) → NoCommandIsBadWords (party_kinds h) }
    ensures misread { (h : HashFunction) → MisreadIsAbout (party_kinds h) }
    ensures early { (h : HashFunction) → UnopenedIsEarly (party_kinds h) }
    ensures valid { (h : HashFunction) → FoundIsValid (party_kinds h) }
    ensures passed { (h : HashFunction) → HeardHasPassed (party_kinds h) }
{}

/// Where `issue` answers with a text, its request was read, its log was found and takes the entry
/// of the request, which is added, and the text is its index. Where `issue-list` does, its requests
/// were read, and its log takes the entries of all of them: they are added by one record, and the
/// text is their indexes, a line for each. Where `switch` does, a Switch is added to a log that may
/// be switched, and the text is its size. Where `cosign` does, a Sign record is added with the next
/// one-time key, and the text is the signature by that; where `advance` does, an Advance record,
/// and the text is the size of the request; where `child` does, a Child record of the next lower
/// tree, and the text is its number. The text of `export` is what others may know of the cosigner
/// that was found, and no record is added. Where `mirror-advance` answers with a text, a cosigner
/// and a mirror were found, and the cosigner has an Advance record more, of the request that the
/// mirror's items make; where `mirror-cosign` does, a Sign record with the next one-time key, and
/// the text is the signature by that. The mirror has no record more. The text of `keygen`, of
/// `init-cosigner` and of `init-cosigner2` is the public key of the secret that was read, and the
/// new cosigner's first record is of that secret.
pub fn law_texts_are_of_their_records()
    ensures issue { IssuedTextsAreOfRecords }
    ensures issue_list { IssuedListsAreOfRecords }
    ensures switch { SwitchedTextsAreOfRecords }
    ensures cosign { CosignedTextsAreOfRecords }
    ensures advance { AdvancedTextsAreOfRecords }
    ensures child { ChildTextsAreOfRecords }
    ensures export { ExportedTextsAreOfRecords }
    ensures mirror_advance { MirrorAdvancedTextsAreOfRecords }
    ensures mirror_cosign { MirrorCosignedTextsAreOfRecords }
    ensures keygen { KeyTextsAreOfSecrets }
    ensures init { BegunTextsAreOfSecrets }
{}
