//! The part of a file that is in memory while it is read.

ghost use Rattle.std.specs.Prelude.{◌≡◌, ◌≤◌, ◌+◌, length};
ghost use Rattle.byte_formats.specs.Types.{Text};

/// The bytes of a file from one offset to another, in a prefix of a buffer.
#[derive(Drop)]
pub(crate) struct Window {
    pub(crate) buffer: Vec<u8>,
    pub(crate) from: u64,
    pub(crate) to: u64,
    ghost capacity: { length buffer.items ≡ 131094 },
    ghost ordered: { from ≤ to },
    ghost fits: { to ≤ from + 131094 },
}

impl Window {
    ghost use Rattle.journal_core.specs.Windows.{Holds};

    /// No bytes of a file yet.
    pub(crate) fn new(buffer: Vec<u8>) -> Window
        requires { length buffer.items ≡ 131094 }
        ensures { (bytes : Text) → Holds result bytes }
    {
        Window {
            buffer,
            from: 0,
            to: 0,
        }
    }
}
