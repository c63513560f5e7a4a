//! The commands `init-cosigner` and `init-cosigner2`: a new cosigner.

ghost use Rattle.std.specs.Prelude.{◌≡◌, ◌<◌, ◌^◌, true, [], ◌∷◌, IfSome};
ghost use Rattle.byte_formats.specs.Types.{HashFunction};
ghost use Rattle.lms_core.specs.Heights.{IsSigningHeight};
ghost use Rattle.mtc_words.specs.Commands.{is_height, is_width};
ghost use Rattle.mtc_command.specs.Answers.{ending_of};
ghost use Rattle.mtc_command.specs.Served.{HasServed};
ghost use Rattle.mtc_command.specs.Valid.{KeepsValid};
ghost use Rattle.mtc_command.specs.Works.{ModelsNew};
ghost use Rattle.mtc_cosigner.specs.InitOutcome.{init_cosigner_outcome, init_says};
ghost use Rattle.mtc_cosigner.specs.Works.{IsCosigner};

use crate::keygen::{chains_of_width, line_of_key, lower_of_height, refuse_secret, tree_of_height};
use cosigner_core::{CosignerSettings, pack};
use hss_core::Secret;
use mtc_command::{Answer, INPUT_LIMIT, Stop, make_journal, read_input};
use mtc_room::Room;
use std::alloc::Global;
use tls_wire::AnchorId;

// Makes the journal of a cosigner with this secret. All memory is taken before it is made.
fn init_with<'a, R: Room>(
    alloc: Global,
    room: &mut R,
    journal: &'a str,
    settings: &CosignerSettings,
    file: &'a str,
    secret: &[u8],
) -> Result<Answer, Stop<'a>>
    requires opened { R.opened room.old < 2 ^ 32 }
    requires signs { IsSigningHeight settings.now.lms }
    requires low { IfSome settings.now.low IsSigningHeight }
    ensures serves { HasServed R.Room R.Dsk.Disk (journal.now ∷ (file.now ∷ [])) journal.now
        (init_says journal.now settings.now file.now (R.file room.old journal.now) secret.now)
        room.old room.new (ending_of result) }
    ensures valid { (h : HashFunction)
        → KeepsValid R.Room R.Dsk.Disk (IsCosigner h) (journal.now ∷ [])
        (init_says journal.now settings.now file.now (R.file room.old journal.now) secret.now)
        room.old room.new }
    ensures begins { ModelsNew R.Room R.Dsk.Disk journal.now room.old room.new (ending_of result) }
{
    match Secret::from_slice(secret) {
        Some(secret) => {
            let text = line_of_key(alloc, settings.lms, settings.low, settings.ots, &secret)?;
            let first = pack(alloc, settings, &secret)?;
            make_journal(room, journal, first, text)
        }
        None => Err(refuse_secret(file, secret.len())),
    }
}

/// The command `init-cosigner S ID LOGID HEIGHT WIDTH SECRET`, or
/// `init-cosigner2 S ID LOGID TOP LOW WIDTH SECRET`, where lower trees have a height. The secret
/// file is read and tested before the journal is made.
pub fn init_cosigner<'a, R: Room>(
    alloc: Global,
    room: &mut R,
    journal: &'a str,
    id: AnchorId,
    log: AnchorId,
    top: u64,
    low: Option<u64>,
    width: u64,
    file: &'a str,
) -> Result<Answer, Stop<'a>>
    requires opened { R.opened room.old < 2 ^ 32 }
    requires top { is_height top ≡ true }
    requires low { IfSome low (λ height. is_height height ≡ true) }
    requires width { is_width width ≡ true }
    ensures serves { HasServed R.Room R.Dsk.Disk (journal.now ∷ (file.now ∷ [])) journal.now
        (init_cosigner_outcome journal.now id log top low width file.now (R.file room.old))
        room.old room.new (ending_of result) }
    ensures valid { (h : HashFunction)
        → KeepsValid R.Room R.Dsk.Disk (IsCosigner h) (journal.now ∷ [])
        (init_cosigner_outcome journal.now id log top low width file.now (R.file room.old))
        room.old room.new }
    ensures begins { ModelsNew R.Room R.Dsk.Disk journal.now room.old room.new (ending_of result) }
{
    let settings = CosignerSettings {
        id,
        log,
        lms: tree_of_height(top),
        low: lower_of_height(low),
        ots: chains_of_width(width),
    };
    let secret = read_input(alloc, room, file, INPUT_LIMIT)?;
    init_with(alloc, room, journal, &settings, file, secret.as_slice())
}
