//! The domains that are watched.

ghost use Rattle.std.specs.Prelude.{◌≡◌, ◌≢◌, [], ◌∷◌, ◌++◌, Ok, Err, IfErr, OnOk, ◌==◌};
ghost use Rattle.std.specs.List.{list_any};
ghost use Rattle.byte_formats.specs.Readings.{Answers, Gives};
ghost use Rattle.monitor_core.specs.Reading.{domain_line, is_domain, line_with, watch_in};
ghost use Rattle.monitor_core.specs.declared.error.TextError.TheVariants.{Memory as NoCapacity};

use crate::error::TextError;
use cert_names::is_host;
use mtc_io::{Bytes, Memory};
use std::alloc::Global;
use std::marker::Model;
use tls_wire::first_line;

/// The most domains of a watch file.
pub const MOST_DOMAINS: usize = 1000;

/// Domains that are watched. Contracts see the list of them.
#[derive(Debug, Drop)]
pub struct Watch {
    domains: Vec<Bytes>,
}

impl Model for Watch {
    ghost use Rattle.std.specs.Prelude.{List};
    ghost use Rattle.byte_formats.specs.Types.{Text};

    ghost Value = { List Text };

    ghost view = { λ w. w.domains.items };
}

impl Watch {
    /// The domains, in their order.
    pub fn domains(&self) -> &[Bytes]
        ensures { result.now ≡ self.now }
    {
        self.domains.as_slice()
    }
}

// The line with this number, without its end, and what is after it.
pub(crate) fn line_with(text: &[u8], n: usize) -> Result<(&[u8], &[u8]), TextError>
    ensures { Gives (λ cut. (cut.0.now, cut.1.now)) result (line_with n text.now) }
{
    first_line(text).ok_or(TextError::BadLine(n))
}

fn has_star(text: &[u8]) -> bool
    ensures { result ≡ list_any (λ b. b == 0x2A) text.now }
{
    text.iter().any(|byte| *byte == b'*')
}

// A host name without a star.
fn is_domain(text: &[u8]) -> bool
    ensures { result ≡ is_domain text.now }
{
    is_host(text) && !has_star(text)
}

// A line with a domain, and what is after it.
fn domain_line(text: &[u8], n: usize) -> Result<(&[u8], &[u8]), TextError>
    ensures { Gives (λ cut. (cut.0.now, cut.1.now)) result (domain_line n text.now) }
{
    let (domain, rest) = line_with(text, n)?;
    if !is_domain(domain) {
        return Err(TextError::BadLine(n));
    }
    Ok((domain, rest))
}

fn push_copy(alloc: Global, domains: &mut Vec<Bytes>, domain: &[u8]) -> Result<(), Memory>
    ensures { OnOk result (domains.new.items ≡ domains.old.items ++ domain.now ∷ []) }
{
    domains.push(Bytes::copy_of(alloc, domain)?)?;
    Ok(())
}

// Puts the domains of a text after none.
fn read_domains(alloc: Global, text: &[u8], domains: &mut Vec<Bytes>) -> Result<(), TextError>
    requires { domains.old.items ≡ [] }
    ensures ok { OnOk result (watch_in text.now ≡ Ok domains.new.items) }
    ensures err { IfErr result (λ e. e ≢ NoCapacity → watch_in text.now ≡ Err e) }
{
    let mut rest = text;
    for n in 0..MOST_DOMAINS {
        if rest.is_empty() {
            return Ok(());
        }
        let (domain, following) = domain_line(rest, n)?;
        push_copy(alloc, domains, domain)?;
        rest = following;
    }
    if rest.is_empty() {
        Ok(())
    } else {
        Err(TextError::BadLine(MOST_DOMAINS))
    }
}

/// Reads a watch file: at most 1,000 lines, each a host name without a star that is ended by a
/// newline; none is watched where it is empty. `BadLine` names the first line that isn't in this
/// form, isn't ended or is too many.
pub fn read_watch(alloc: Global, text: &[u8]) -> Result<Watch, TextError>
    ensures { Answers NoCapacity (watch_in text.now) result }
{
    let mut domains = Vec::new(alloc);
    read_domains(alloc, text, &mut domains)?;
    Ok(Watch { domains })
}
