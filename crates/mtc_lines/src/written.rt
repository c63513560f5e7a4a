//! What becomes of a text that a command writes to standard output itself.

use mtc_io::Failed;

/// All of the text went out, or standard output failed at it.
pub type Written = Result<(), Failed>;
