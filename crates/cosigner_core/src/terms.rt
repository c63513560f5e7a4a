//! What is known of a cosigner's key without its secret.

use lms_core::LmsType;

/// The heights of a key's trees, which determine how many one-time keys sign messages.
#[derive(Clone, Copy, Debug)]
pub enum KeyTerms {
    /// One tree of this height signs messages.
    OneLevel(LmsType),
    /// The lower trees of a tree of height `top` sign messages. They have the height `low`, or that
    /// of the first of them.
    TwoLevels { top: LmsType, low: Option<LmsType> },
}
