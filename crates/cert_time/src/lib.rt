//! The times of a certificate's validity, and the same times as texts, both ways.
//!
//! A time is a number of seconds since 1970-01-01T00:00:00Z (Unix time), from 1950 to 9999. In a
//! certificate it is a UTCTime up to 2049 and a GeneralizedTime from 2050 on (RFC 5280, section
//! 4.1.2.5); for people it is a text like `2026-01-01T00:00:00Z`. Each time has exactly one of
//! either, so what is read is what would be written.
#![tactic(auto)]

mod calendar;
mod civil;
mod digits;
pub mod laws;
mod text;
mod time;
mod validity;
mod writing;

pub use text::{seconds_to_text, text_to_seconds};
pub use time::{GENERALIZED_TIME, UTC_TIME, read_time};
pub use validity::Validity;
pub use writing::put_validity;
