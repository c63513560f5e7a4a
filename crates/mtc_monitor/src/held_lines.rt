//! The lines of what an export says.

ghost use Rattle.std.specs.Prelude.{◌≡◌, ◌++◌, IfOk, OnOk, option_and_then, option_map};
ghost use Rattle.std.specs.Prelude.{string_bytes};
ghost use Rattle.std.specs.List.{flat_map};
ghost use Rattle.base64.specs.Engines.{standard};
ghost use Rattle.base64.specs.GeneralPurpose.{encode_of};
ghost use Rattle.cosigner_core.specs.ExportReading.{signing_terms};
ghost use Rattle.cosigner_core.specs.Progress.{first_progress};
ghost use Rattle.cosigner_steps.specs.Steps.{with_steps};
ghost use Rattle.mtc_io.specs.Streams.{joined};
ghost use Rattle.mtc_lines.specs.CheckpointLines.{checkpoint_lines};
ghost use Rattle.mtc_monitor.specs.HeldOutcome.{all_keys, held_text, left_line, party_lines};
ghost use Rattle.mtc_monitor.specs.HeldOutcome.{progress_lines, signed_line, signs_line};

use base64::engine::general_purpose::STANDARD;
use cosigner_core::{Checkpoint, Export, Step};
use hss_core::{LmsType, read_key};
use mtc_io::{Bytes, Memory};
use mtc_lines::checkpoint_text;
use std::alloc::{AllocError, Global};
use tree_core::TreeHash;

// What a cosigner holds, how many signatures it has made, and how many lower trees it has, with
// their height if there are any.
#[derive(Clone, Copy)]
struct Reached {
    held: Checkpoint,
    signs: u64,
    children: u64,
    low: Option<LmsType>,
}

// How many one-time keys sign messages in all, by the levels that the public key names.
#[tactic(auto, unfolding(cosigner_core::specs::ExportReading::signing_terms))]
fn key_count(public: &[u8], shown: Option<LmsType>) -> Option<u64>
    ensures { result ≡ option_and_then (λ terms. all_keys terms shown) (signing_terms public.now) }
{
    match read_key(public) {
        Some((1, lms, _)) if lms.is_signing_height() => Some(u64::from(lms.leaves())),
        Some((2, lms, _)) if lms.is_signing_height() => match shown {
            Some(low) => Some(u64::from(lms.leaves()) * u64::from(low.leaves())),
            None => None,
        },
        _ => None,
    }
}

// How far the steps bring a cosigner that holds nothing.
fn steps_made<H: TreeHash>(steps: &[Step]) -> Reached
    ensures { record {
      held = result.held;
      next = result.signs;
      children = result.children;
      low = result.low;
    } ≡ with_steps (first_progress H.hash) steps.now }
{
    let mut held = Checkpoint::empty::<H>();
    let mut signs = 0;
    let mut children = 0;
    let mut low = None;
    for step in steps {
        match step {
            Step::Advance { size, root, .. } => {
                held = Checkpoint {
                    size: *size,
                    root: *root,
                };
            }
            Step::Sign { .. } => signs += 1,
            Step::Child { low: height, .. } => {
                children += 1;
                low = Some(*height);
            }
        }
    }
    Reached {
        held,
        signs,
        children,
        low,
    }
}

fn in_base64(alloc: Global, bytes: &[u8]) -> Result<String, AllocError>
    ensures { IfOk result (λ text. string_bytes text ≡ encode_of standard bytes.now) }
{
    STANDARD.encode(alloc, bytes)
}

// Puts pieces after the bytes, one after another.
fn append_each(out: &mut Bytes, pieces: &[&[u8]]) -> Result<(), Memory>
    ensures { OnOk result (out.new ≡ out.old ++ joined pieces.now) }
{
    for piece in pieces {
        out.append(piece)?;
    }
    Ok(())
}

// The ids of the cosigner and of its log, and the public key in base64.
fn put_party(alloc: Global, out: &mut Bytes, export: &Export) -> Result<(), Memory>
    ensures { OnOk result (out.new ≡ out.old ++ party_lines export.now) }
{
    let id = export.cosigner.to_text()?;
    let log = export.log.to_text()?;
    let key = in_base64(alloc, &export.public)?;
    append_each(
        out,
        &[
            b"cosigner ",
            id.as_slice(),
            b"\nlog ",
            log.as_slice(),
            b"\nkey ",
            key.as_bytes(),
            b"\n",
        ],
    )
}

// How many one-time keys have not signed, where it is known how many there are.
fn put_left(alloc: Global, out: &mut Bytes, keys: Option<u64>, signs: u64) -> Result<(), Memory>
    ensures { OnOk result (out.new ≡ out.old ++ left_line keys signs) }
{
    let Some(keys) = keys else {
        return Ok(());
    };
    let left = keys.saturating_sub(signs);
    let text = format!(in alloc; "left {left}\n")?;
    out.append(text.as_bytes())
}

// The line of a signature.
fn put_step(alloc: Global, out: &mut Bytes, step: &Step) -> Result<(), Memory>
    ensures { OnOk result (out.new ≡ out.old ++ signed_line step.now) }
{
    match step {
        Step::Advance { .. } | Step::Child { .. } => Ok(()),
        Step::Sign {
            index,
            start,
            end,
            hash,
            ..
        } => {
            let hash = hex::encode(alloc, hash)?;
            let text = format!(in alloc; "signed {index} {start} {end} {hash}\n")?;
            out.append(text.as_bytes())
        }
    }
}

fn put_steps(alloc: Global, out: &mut Bytes, steps: &[Step]) -> Result<(), Memory>
    ensures { OnOk result (out.new ≡ out.old ++ flat_map signed_line steps.now) }
{
    for step in steps {
        put_step(alloc, out, step)?;
    }
    Ok(())
}

// How many signatures it has made.
fn put_signs(alloc: Global, out: &mut Bytes, signs: u64) -> Result<(), Memory>
    ensures { OnOk result (out.new ≡ out.old ++ signs_line signs) }
{
    let text = format!(in alloc; "signs {signs}\n")?;
    out.append(text.as_bytes())
}

fn put_checkpoint(alloc: Global, out: &mut Bytes, held: &Checkpoint) -> Result<(), Memory>
    ensures { OnOk result
        (out.new ≡ out.old ++ checkpoint_lines held.now.size held.now.root) }
{
    let text = checkpoint_text(alloc, held.size, &held.root)?;
    out.append(text.as_slice())
}

// What it holds, and its signatures.
fn put_progress<H: TreeHash>(alloc: Global, out: &mut Bytes, export: &Export) -> Result<(), Memory>
    ensures { OnOk result (out.new ≡ out.old ++ progress_lines export.now
        (with_steps (first_progress H.hash) export.now.steps)) }
{
    let steps = export.steps.as_slice();
    let reached = steps_made::<H>(steps);
    put_checkpoint(alloc, out, &reached.held)?;
    put_signs(alloc, out, reached.signs)?;
    let keys = key_count(&export.public, reached.low);
    put_left(alloc, out, keys, reached.signs)?;
    put_steps(alloc, out, steps)
}

/// The lines of an export, or of no bytes.
pub(crate) fn held_lines<H: TreeHash>(
    alloc: Global,
    export: Option<&Export>,
) -> Result<Bytes, Memory>
    ensures { IfOk result (λ text.
        text ≡ held_text H.hash (option_map (λ e. e.now) export.entry)) }
{
    let Some(export) = export else {
        return Bytes::copy_of(alloc, b"nothing\n");
    };
    let mut out = Bytes::new(alloc);
    put_party(alloc, &mut out, export)?;
    put_progress::<H>(alloc, &mut out, export)?;
    Ok(out)
}
