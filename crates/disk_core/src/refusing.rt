//! A disk that passes no call on any longer.

ghost use Rattle.std.specs.Prelude.{◌≡◌, ◌↔◌, if◌then◌else◌, is_err, IsErr, IsTrue, OnOk};
ghost use Rattle.mtc_io.specs.Counts.{HasCause, with_count};

use mtc_io::Failed;

// Each call fails and is counted if the disk passes none on.
pub(crate) fn refuse_if(over: bool, refused: &mut u64) -> Result<(), Failed>
    ensures over { IsErr result ↔ IsTrue over }
    ensures ok { OnOk result (refused.new ≡ refused.old) }
    ensures cause { HasCause refused.old refused.new result }
    ensures counted { refused.new
        ≡ (if is_err result then with_count refused.old 1 else refused.old) }
{
    if over {
        *refused = refused.saturating_add(1);
        return Err(Failed);
    }
    Ok(())
}
