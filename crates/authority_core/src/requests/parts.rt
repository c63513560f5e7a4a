//! What is asked for.

use crate::requests::names::Names;
use cert_time::Validity;
use mtc_io::Bytes;
use std::marker::Model;

/// What an authority is asked to issue: a certificate that is valid from the first to the last of
/// two times, for these host names, with this common name or none, and for this public key, a
/// subjectPublicKeyInfo element (RFC 5280, section 4.1.2.7). Each request can be issued.
#[derive(Debug, Drop)]
pub struct Request {
    pub validity: Validity,
    pub names: Names,
    pub common_name: Option<Bytes>,
    pub key: Bytes,
}

impl Model for Request {
    ghost use Rattle.cert_time.specs.Periods.{period};
    ghost use Rattle.authority_core.specs.Requests.{CanBeIssued, RequestParts};

    ghost Value = { RequestParts };

    ghost view = { λ r. record {
      validity = period r.validity;
      names = r.names;
      common_name = r.common_name;
      key = r.key;
    } };

    ghost invariant = { λ r. CanBeIssued (record {
      validity = period r.validity;
      names = r.names;
      common_name = r.common_name;
      key = r.key;
    }) };
}
