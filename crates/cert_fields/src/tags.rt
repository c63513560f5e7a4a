//! Tags of one byte that have their meaning in one field of a certificate (RFC 5280).

/// The version, `[0]` of TBSCertificate (section 4.1.2.1).
pub const VERSION: u8 = 0xA0;

/// The extensions, `[3]` of TBSCertificate (section 4.1.2.9).
pub const EXTENSIONS: u8 = 0xA3;

/// A dNSName, `[2]` of GeneralName (section 4.2.1.6).
pub const DNS_NAME: u8 = 0x82;
