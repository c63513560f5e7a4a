//! What a call answers, by the numbers that the header names.

pub(crate) const DONE: u32 = 0;

pub(crate) const BAD_FORM: u32 = 2;

pub(crate) const REFUSED: u32 = 3;

pub(crate) const NO_SUCH_NAME: u32 = 4;

pub(crate) const NO_MEMORY: u32 = 8;

pub(crate) const TOO_LONG: u32 = 9;
