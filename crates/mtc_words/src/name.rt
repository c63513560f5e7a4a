//! The names of the commands.

ghost use Rattle.std.specs.Prelude.{◌≡◌};
ghost use Rattle.mtc_words.specs.Names.{named_command, named_from_cosigner, named_from_landmark};
ghost use Rattle.mtc_words.specs.Names.{named_from_list, named_from_mirror, named_from_monitor};
ghost use Rattle.mtc_words.specs.Names.{takes_journal, word_count};

/// The name of a command.
#[derive(Clone, Copy)]
pub enum Name {
    Member,
    Show,
    Verify,
    InitLog,
    Issue,
    Checkpoint,
    Entries,
    EntriesFrom,
    Consist,
    Subtree,
    Keygen,
    InitCosigner,
    InitCosigner2,
    Advance,
    Child,
    Cosign,
    Export,
    Landmark,
    Landmarks,
    LightCert,
    TrustLandmarks,
    Cert,
    Audit,
    Quarrel,
    Drill,
    Tile,
    TileAnew,
    Switch,
    IssueList,
    LightCerts,
    Certs,
    MirrorInit,
    MirrorTake,
    MirrorTile,
    MirrorEntries,
    MirrorAdvance,
    MirrorCosign,
    Root,
    Held,
    MonitorInit,
    Monitor,
    Help,
    Version,
}

// The name that an argument is, if it is one.
#[tactic(auto, unfolding(crate::specs::Names::named_command))]
pub fn read_name(word: &str) -> Option<Name>
    ensures { result ≡ named_command word.now }
{
    match word {
        "member" => Some(Name::Member),
        "show" => Some(Name::Show),
        "verify" => Some(Name::Verify),
        "init-log" => Some(Name::InitLog),
        "issue" => Some(Name::Issue),
        "checkpoint" => Some(Name::Checkpoint),
        "entries" => Some(Name::Entries),
        "entries-from" => Some(Name::EntriesFrom),
        "consist" => Some(Name::Consist),
        "subtree" => Some(Name::Subtree),
        _ => read_cosigner_name(word),
    }
}

// The same from the commands of a cosigner on.
fn read_cosigner_name(word: &str) -> Option<Name>
    ensures { result ≡ named_from_cosigner word.now }
{
    match word {
        "keygen" => Some(Name::Keygen),
        "init-cosigner" => Some(Name::InitCosigner),
        "init-cosigner2" => Some(Name::InitCosigner2),
        "advance" => Some(Name::Advance),
        "child" => Some(Name::Child),
        "cosign" => Some(Name::Cosign),
        "export" => Some(Name::Export),
        _ => read_landmark_name(word),
    }
}

// The same from the commands of landmarks on.
fn read_landmark_name(word: &str) -> Option<Name>
    ensures { result ≡ named_from_landmark word.now }
{
    match word {
        "landmark" => Some(Name::Landmark),
        "landmarks" => Some(Name::Landmarks),
        "light-cert" => Some(Name::LightCert),
        "trust-landmarks" => Some(Name::TrustLandmarks),
        "cert" => Some(Name::Cert),
        "audit" => Some(Name::Audit),
        "quarrel" => Some(Name::Quarrel),
        "drill" => Some(Name::Drill),
        "tile" => Some(Name::Tile),
        "tile-anew" => Some(Name::TileAnew),
        "switch" => Some(Name::Switch),
        _ => read_list_name(word),
    }
}

// The same from the commands on lists of requests and of certificates on.
fn read_list_name(word: &str) -> Option<Name>
    ensures { result ≡ named_from_list word.now }
{
    match word {
        "issue-list" => Some(Name::IssueList),
        "light-certs" => Some(Name::LightCerts),
        "certs" => Some(Name::Certs),
        _ => read_mirror_name(word),
    }
}

// The same from the commands of mirrors on.
fn read_mirror_name(word: &str) -> Option<Name>
    ensures { result ≡ named_from_mirror word.now }
{
    match word {
        "mirror-init" => Some(Name::MirrorInit),
        "mirror-take" => Some(Name::MirrorTake),
        "mirror-tile" => Some(Name::MirrorTile),
        "mirror-entries" => Some(Name::MirrorEntries),
        "mirror-advance" => Some(Name::MirrorAdvance),
        "mirror-cosign" => Some(Name::MirrorCosign),
        _ => read_monitor_name(word),
    }
}

// The same from the commands of monitors on, with those about the program itself.
fn read_monitor_name(word: &str) -> Option<Name>
    ensures { result ≡ named_from_monitor word.now }
{
    match word {
        "root" => Some(Name::Root),
        "held" => Some(Name::Held),
        "monitor-init" => Some(Name::MonitorInit),
        "monitor" => Some(Name::Monitor),
        "help" => Some(Name::Help),
        "version" => Some(Name::Version),
        _ => None,
    }
}

// How many arguments a command wants.
pub fn wanted_count(name: Name) -> usize
    ensures { result ≡ word_count name }
{
    match name {
        Name::Help | Name::Version => 0,
        Name::Member | Name::Show | Name::Checkpoint => 1,
        Name::Export | Name::Landmark | Name::Landmarks | Name::Drill | Name::Tile => 1,
        Name::TileAnew | Name::Switch | Name::Child | Name::MirrorTile => 1,
        Name::Quarrel | Name::Root | Name::Held | Name::MonitorInit => 1,
        Name::Issue | Name::Entries | Name::Advance | Name::Cosign | Name::LightCert => 2,
        Name::IssueList | Name::MirrorInit | Name::MirrorTake | Name::MirrorEntries => 2,
        Name::Verify | Name::EntriesFrom | Name::Consist | Name::LightCerts => 3,
        Name::Keygen | Name::TrustLandmarks | Name::MirrorAdvance => 3,
        Name::InitLog | Name::Subtree | Name::Monitor | Name::MirrorCosign => 4,
        Name::Cert | Name::Audit => 5,
        Name::InitCosigner | Name::Certs => 6,
        Name::InitCosigner2 => 7,
    }
}

// Whether the first argument of a command is a journal.
pub fn takes_journal(name: Name) -> bool
    ensures { result ≡ takes_journal name }
{
    match name {
        Name::Member | Name::Show | Name::Verify | Name::Keygen => false,
        Name::TrustLandmarks | Name::Audit | Name::Drill | Name::Help | Name::Version => false,
        Name::Quarrel | Name::Root | Name::Held | Name::MonitorInit | Name::Monitor => false,
        Name::InitLog | Name::Issue | Name::Checkpoint | Name::Entries => true,
        Name::EntriesFrom | Name::Consist | Name::Subtree => true,
        Name::Landmark | Name::Landmarks => true,
        Name::LightCert | Name::Cert | Name::Tile | Name::TileAnew | Name::Switch => true,
        Name::IssueList | Name::LightCerts | Name::Certs => true,
        Name::InitCosigner | Name::InitCosigner2 | Name::Advance | Name::Child => true,
        Name::Cosign | Name::Export => true,
        Name::MirrorInit | Name::MirrorTake | Name::MirrorTile | Name::MirrorEntries => true,
        Name::MirrorAdvance | Name::MirrorCosign => true,
    }
}
