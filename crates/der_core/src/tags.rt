//! Tags of one byte by the names of X.690 and X.680: class, form and number. Those of times stand
//! in `cert_time`.

/// BOOLEAN (X.690, section 8.2).
pub const BOOLEAN: u8 = 0x01;

/// INTEGER (X.690, section 8.3).
pub const INTEGER: u8 = 0x02;

/// BIT STRING (X.690, section 8.6).
pub const BIT_STRING: u8 = 0x03;

/// OCTET STRING (X.690, section 8.7).
pub const OCTET_STRING: u8 = 0x04;

/// OBJECT IDENTIFIER (X.690, section 8.19).
pub const OBJECT_IDENTIFIER: u8 = 0x06;

/// UTF8String (X.690, section 8.23).
pub const UTF8_STRING: u8 = 0x0C;

/// SEQUENCE and SEQUENCE OF (X.690, sections 8.9 and 8.10).
pub const SEQUENCE: u8 = 0x30;

/// SET and SET OF (X.690, sections 8.11 and 8.12).
pub const SET: u8 = 0x31;
