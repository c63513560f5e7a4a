//! A file of a command that was read.

/// The name of a file, and its bytes.
#[derive(Clone, Copy, Debug)]
pub(crate) struct Input<'a, 'b> {
    pub(crate) name: &'a str,
    pub(crate) bytes: &'b [u8],
}
