//! A certificate's validity.

ghost use Rattle.cert_time.specs.Calendar.{IsUnixTime};

/// The first and the last time at which a certificate is valid, in seconds since
/// 1970-01-01T00:00:00Z. Both are times from 1950 to 9999, in either order.
#[derive(Clone, Copy, Debug, PartialEq, Eq)]
pub struct Validity {
    /// The first time.
    pub not_before: i64,
    /// The last time.
    pub not_after: i64,
    pub ghost begins: { IsUnixTime not_before },
    pub ghost ends: { IsUnixTime not_after },
}
