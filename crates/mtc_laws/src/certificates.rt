//! What certificates are printed, and which are accepted: the clauses are the laws, and the
//! functions do nothing, but that one calls another law.

ghost use Rattle.mtc_top.specs.Executions.{program};
ghost use Rattle.mtc_laws.specs.AcceptanceLaws.{IssuedCertificatesAreAccepted};
ghost use Rattle.mtc_laws.specs.CertLaws.{AcceptedIsPrinted, CertificatesArePrinted};
ghost use Rattle.mtc_laws.specs.CertLaws.{LightCertificatesArePrinted};
ghost use Rattle.mtc_laws.specs.CountLaws.{PrintedSignaturesCount};

use disk_core::Disk;
use issuance_log::laws::law_records_keep_to_the_rules;
use mirror_core::laws::law_records_determine_the_items;
use mtc_io::Sink;
use mtc_room::Room;
use tree_core::TreeHash;

/// From the first byte on that may have gone out of `cert` or `light-cert`, and with status 0, its
/// output is a prefix of the certificate of the log's entry at the index, and with status 0 all of
/// it: in the subtree that it was asked for, with the signatures that the file holds; or in that of
/// the least landmark above the entry. What the judgement of its files accepts `verify` accepts, by
/// the index, or it ends with status 5, 6 or 8.
pub fn law_certificates_are_printed_and_judged<H: TreeHash, R: Room, O: Sink, E: Sink>()
    ensures certificates { CertificatesArePrinted H.hash
        (program H.hash R.Room R.Dsk.Disk O.Sink E.Sink) }
    ensures light { LightCertificatesArePrinted H.hash
        (program H.hash R.Room R.Dsk.Disk O.Sink E.Sink) }
    ensures accepted { AcceptedIsPrinted H.hash
        (program H.hash R.Room R.Dsk.Disk O.Sink E.Sink) }
{}

/// A signature that a run of `cosign` or `mirror-cosign` of an execution printed has the form of
/// those in a list. It counts, for the interval and the hash of its request, in each store of the
/// cosigner's log that has its id and public key in a rule.
pub fn law_printed_signatures_count<H: TreeHash, R: Room, O: Sink, E: Sink>()
    ensures { PrintedSignaturesCount H.hash (program H.hash R.Room R.Dsk.Disk O.Sink E.Sink) }
{
    law_records_determine_the_items();
}

/// What is issued is accepted. If a run of an execution of a log's journal issued an entry, and a
/// later run of `cert` or `light-cert` printed a certificate for the index that was printed, each
/// run of `verify` over these bytes accepts them, at each time of the request's period, by each
/// store for the log that trusts the subtree with the log's hash, or whose rules are met by the
/// signatures, as they are by those that runs of `cosign` and `mirror-cosign` printed. The store
/// has to give the entry the form that the log gives it, as by the index at which the log was
/// switched. It may not revoke the entry, nor hold another hash for the subtree. Or the run ends
/// with status 5, 6 or 8.
pub fn law_issued_certificates_are_accepted<H: TreeHash, R: Room, O: Sink, E: Sink>()
    ensures { IssuedCertificatesAreAccepted H.hash
        (program H.hash R.Room R.Dsk.Disk O.Sink E.Sink) }
{
    law_records_keep_to_the_rules();
    law_records_determine_the_items();
}
