//! The command `keygen`: the public key of a secret.

ghost use Rattle.std.specs.Prelude.{◌≡◌, ◌<◌, ◌^◌, true, [], ◌∷◌, ◌++◌, IfOk, codes, nat_lt};
ghost use Rattle.std.specs.Prelude.{if◌then◌else◌, string_bytes, IfSome, option_map};
ghost use Rattle.std.specs.Fmt.{decimal};
ghost use Rattle.base64.specs.GeneralPurpose.{encode_of};
ghost use Rattle.base64.specs.Engines.{standard};
ghost use Rattle.lms_core.specs.Heights.{IsSigningHeight};
ghost use Rattle.mtc_words.specs.Commands.{is_height, is_width};
ghost use Rattle.mtc_cosigner.specs.KeygenOutcome.{lms_type, ots_type, public_line, keygen_says};
ghost use Rattle.mtc_cosigner.specs.KeygenOutcome.{keygen_outcome};
ghost use Rattle.mtc_command.specs.Answers.{ending_of, stop_ending, replied, refused};
ghost use Rattle.mtc_command.specs.Endings.{Replies};
ghost use Rattle.mtc_command.specs.Served.{HasAnswered};

use base64::engine::general_purpose::STANDARD;
use hss_core::{LmsType, OtsType, SECRET_LEN, Secret};
use hss_keys::HssKey;
use mtc_command::{Answer, INPUT_LIMIT, Reason, Said, Stop, Stopped, read_input, refuse_file};
use mtc_io::{Bytes, Memory};
use mtc_room::Room;
use std::alloc::{AllocError, Global};

pub(crate) fn tree_of_height(height: u64) -> LmsType
    requires { is_height height ≡ true }
    ensures is { result ≡ lms_type height }
    ensures signs { IsSigningHeight result }
{
    match height {
        5 => LmsType::H5,
        10 => LmsType::H10,
        _ => unreachable!(),
    }
}

// The type of lower trees, if they have a height.
pub(crate) fn lower_of_height(low: Option<u64>) -> Option<LmsType>
    requires { IfSome low (λ height. is_height height ≡ true) }
    ensures is { result ≡ option_map lms_type low }
    ensures signs { IfSome result IsSigningHeight }
{
    match low {
        Some(height) => Some(tree_of_height(height)),
        None => None,
    }
}

pub(crate) fn chains_of_width(width: u64) -> OtsType
    requires { is_width width ≡ true }
    ensures { result ≡ ots_type width }
{
    match width {
        1 => OtsType::W1,
        2 => OtsType::W2,
        4 => OtsType::W4,
        8 => OtsType::W8,
        _ => unreachable!(),
    }
}

fn in_base64(alloc: Global, bytes: &[u8]) -> Result<String, AllocError>
    ensures { IfOk result (λ text. string_bytes text ≡ encode_of standard bytes.now) }
{
    STANDARD.encode(alloc, bytes)
}

// The line of a secret's public key. A key of two levels has no lower tree yet.
pub(crate) fn line_of_key(
    alloc: Global,
    tree: LmsType,
    low: Option<LmsType>,
    chains: OtsType,
    secret: &Secret,
) -> Result<Bytes, Memory>
    requires small { IsSigningHeight tree }
    requires low { IfSome low IsSigningHeight }
    ensures { IfOk result (λ text. text ≡ public_line tree low chains secret.now) }
{
    let key = HssKey::make(alloc, tree, low, chains, secret, 0, 0)?;
    let text = in_base64(alloc, &key.public())?;
    Ok(Bytes::from_vec(format!(in alloc; "{text}\n")?.into_bytes()))
}

// The refusal of a file that has not the length of a secret.
pub(crate) fn refuse_secret<'a>(file: &'a str, length: usize) -> Stop<'a>
    ensures { stop_ending result ≡ replied (refused Stopped.BadForm (Some file.now)
        (if nat_lt length 48 then codes "Short " ++ decimal 0 else codes "Trailing")) }
{
    let reason = if length < SECRET_LEN {
        Reason::with_number("Short", 0)
    } else {
        Reason::named("Trailing")
    };
    refuse_file(Stopped::BadForm, file, reason)
}

fn answer_of<'a>(
    alloc: Global,
    height: u64,
    width: u64,
    file: &'a str,
    secret: &[u8],
) -> Result<Answer, Stop<'a>>
    requires height { is_height height ≡ true }
    requires width { is_width width ≡ true }
    ensures { Replies (keygen_says height width file.now secret.now).answer (ending_of result) }
{
    let (tree, chains) = (tree_of_height(height), chains_of_width(width));
    match Secret::from_slice(secret) {
        Some(secret) => Ok(Answer {
            status: Said::Done,
            text: line_of_key(alloc, tree, None, chains, &secret)?,
        }),
        None => Err(refuse_secret(file, secret.len())),
    }
}

/// The command `keygen HEIGHT WIDTH SECRET`.
pub fn keygen<'a, R: Room>(
    alloc: Global,
    room: &mut R,
    height: u64,
    width: u64,
    file: &'a str,
) -> Result<Answer, Stop<'a>>
    requires opened { R.opened room.old < 2 ^ 32 }
    requires height { is_height height ≡ true }
    requires width { is_width width ≡ true }
    ensures { HasAnswered R.Room R.Dsk.Disk (file.now ∷ [])
        (keygen_outcome height width file.now (R.file room.old))
        room.old room.new (ending_of result) }
{
    let secret = read_input(alloc, room, file, INPUT_LIMIT)?;
    answer_of(alloc, height, width, file, secret.as_slice())
}
