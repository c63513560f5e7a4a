//! Which names lie under watched domains.

ghost use Rattle.std.specs.Prelude.{◌≡◌};
ghost use Rattle.std.specs.Str.{str_eq_ignore_ascii_case};
ghost use Rattle.monitor_core.specs.Report.{is_under, is_watched};

use mtc_io::Bytes;

// The same bytes, with A to Z taken as a to z.
fn is_same_name(name: &[u8], domain: &[u8]) -> bool
    ensures { result ≡ str_eq_ignore_ascii_case name.now domain.now }
{
    name.eq_ignore_ascii_case(domain)
}

// The name is the domain, or ends with a dot and the domain.
pub(crate) fn is_under(name: &[u8], domain: &[u8]) -> bool
    ensures { result ≡ is_under name.now domain.now }
{
    if name.len() <= domain.len() {
        return is_same_name(name, domain);
    }
    let dot = name.len() - domain.len() - 1;
    name[dot] == b'.' && is_same_name(&name[dot + 1..], domain)
}

// The name lies under one of the domains.
pub(crate) fn is_watched(watch: &[Bytes], name: &[u8]) -> bool
    ensures { result ≡ is_watched watch.now name.now }
{
    watch.iter().any(|domain| is_under(name, domain.as_slice()))
}
