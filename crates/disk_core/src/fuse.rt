//! A disk that stops at some call, as the machine does.

ghost use Rattle.std.specs.Prelude.{◌≡◌, ◌↔◌, ◌+◌, ◌-◌, ◌==◌, ◌||◌, true, false, if◌then◌else◌};
ghost use Rattle.std.specs.Prelude.{is_err, OnOk, OnErr, IsErr, IsTrue};
ghost use Rattle.mtc_io.specs.Counts.{HasCause, with_count};

use crate::disk::Disk;
use crate::refusing::refuse_if;
use mtc_io::Failed;

/// Passes so many calls of `write_at` and `sync` to the disk inside, and every `len` and `read_at`
/// before the first call that it fails. From that call on it fails every call, and none reaches the
/// disk inside.
#[derive(Debug, Drop)]
pub struct Fuse<D: Disk> {
    disk: D,
    passes: u64,
    blown: bool,
    refused: u64,
}

impl<D: Disk> Fuse<D> {
    ghost use Rattle.disk_core.specs.Fuse.{inner_of, passes_of, is_blown, refused_of};

    /// A fuse that has failed no call. It counts the failures of the disk inside, and each call
    /// that it fails itself.
    pub fn new(disk: D, passes: u64) -> Fuse<D>
        ensures disk { inner_of result ≡ disk }
        ensures passes { passes_of result ≡ passes }
        ensures whole { is_blown result ≡ false }
        ensures refused { refused_of result ≡ 0 }
        ensures faults { ⟦<Fuse<D> as Disk>⟧.faults result ≡ D.faults disk }
    {
        Fuse {
            disk,
            passes,
            blown: false,
            refused: 0,
        }
    }

    /// The count of the calls that it has failed itself: each adds one, up to the last value.
    pub fn refused(&self) -> u64
        ensures value { result ≡ refused_of self.now }
        ensures faults { ⟦<Fuse<D> as Disk>⟧.faults self.now
            ≡ D.faults (inner_of self.now) + result }
    {
        self.refused
    }

    /// The disk inside.
    pub fn into_inner(self) -> D
        ensures { result ≡ inner_of self }
    {
        self.disk
    }
}

// A call that changes the disk: it takes one of the passes, and where none is left the fuse blows.
fn spend(passes: &mut u64, blown: &mut bool, refused: &mut u64) -> Result<(), Failed>
    ensures burnt { IsErr result ↔ IsTrue (blown.old || passes.old == 0) }
    ensures ok { OnOk result (refused.new ≡ refused.old) }
    ensures whole { OnOk result (blown.new ≡ false) }
    ensures spent { OnOk result (passes.new ≡ passes.old - 1) }
    ensures cause { HasCause refused.old refused.new result }
    ensures counted { refused.new
        ≡ (if is_err result then with_count refused.old 1 else refused.old) }
    ensures blown { OnErr result (blown.new ≡ true) }
    ensures kept { OnErr result (passes.new ≡ passes.old) }
{
    if *blown || *passes == 0 {
        *blown = true;
        *refused = refused.saturating_add(1);
        return Err(Failed);
    }
    *passes -= 1;
    Ok(())
}

impl<D: Disk> Disk for Fuse<D> {
    ghost use Rattle.disk_core.specs.Fuse.{FuseTurn};

    ghost contents = { λ f. D.Disk.contents f.disk };

    ghost known = { λ f. D.Disk.known f.disk };

    ghost clock_at = { λ f. D.Disk.clock_at f.disk };

    ghost may_leave = { λ f. D.Disk.may_leave f.disk };

    ghost left_since = { λ f. D.Disk.left_since f.disk };

    ghost faults = { λ f. D.Disk.faults f.disk + f.refused };

    ghost turn = { λ f call ok h. FuseTurn D.Disk f call ok h };

    fn len(&mut self) -> Result<u64, Failed> {
        refuse_if(self.blown, &mut self.refused)?;
        self.disk.len()
    }

    fn read_at(&mut self, place: u64, out: &mut [u8]) -> Result<(), Failed> {
        refuse_if(self.blown, &mut self.refused)?;
        self.disk.read_at(place, out)
    }

    fn write_at(&mut self, place: u64, bytes: &[u8]) -> Result<(), Failed> {
        spend(&mut self.passes, &mut self.blown, &mut self.refused)?;
        self.disk.write_at(place, bytes)
    }

    fn sync(&mut self) -> Result<(), Failed> {
        spend(&mut self.passes, &mut self.blown, &mut self.refused)?;
        self.disk.sync()
    }

    ghost reads_crash_state = { λ f b is. D.Disk.reads_crash_state f.disk b is };

    ghost contents_bytes = { λ f b is. D.Disk.contents_bytes f.disk b is };

    ghost known_there = { λ f b is. D.Disk.known_there f.disk b is };

    ghost counts_now = { λ f t c le is. D.Disk.counts_now f.disk t c le is };

    ghost only_now = { λ f c is. D.Disk.only_now f.disk c is };

    ghost left_bytes = { λ f t c is. D.Disk.left_bytes f.disk t c is };
}
