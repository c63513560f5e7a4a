//! Lists of requests and of certificates: the clauses are the laws, and the functions do nothing,
//! but that one calls another law.

ghost use Rattle.mtc_top.specs.Executions.{program};
ghost use Rattle.mtc_laws.specs.ListLaws.{AddedItemsStand, IssuedListsStand, ListsArePrinted};
ghost use Rattle.mtc_laws.specs.PemLaws.{CertificateListsArePrinted, LightListsArePrinted};
ghost use Rattle.mtc_laws.specs.PemLaws.{ListedCertificatesAreAccepted, ListedEntriesAreAccepted};

use disk_core::Disk;
use issuance_log::laws::law_records_keep_to_the_rules;
use mirror_core::laws::law_records_determine_the_items;
use mtc_io::Sink;
use mtc_room::Room;
use tree_core::TreeHash;

/// From the first byte on that may have gone out of `issue-list`, and with status 0, all entries of
/// its requests are in the log, by one record, and its output is a prefix of the lines of their
/// indexes, with status 0 all of it. Whatever runs, stops and kills follow in an execution, each of
/// these entries stands at its index, with its key, in each log that may be recovered: and so does
/// each item of a record that a run added.
pub fn law_issued_lists_stand<H: TreeHash, R: Room, O: Sink, E: Sink>()
    ensures printed { ListsArePrinted H.hash (program H.hash R.Room R.Dsk.Disk O.Sink E.Sink) }
    ensures stand { IssuedListsStand H.hash (program H.hash R.Room R.Dsk.Disk O.Sink E.Sink) }
    ensures items { AddedItemsStand H.hash (program H.hash R.Room R.Dsk.Disk O.Sink E.Sink) }
{}

/// From the first byte on that may have gone out of `certs` or `light-certs`, and with status 0,
/// its output is a prefix of the certificates of the log's entries at its indexes, as PEM, one
/// after the other, and with status 0 all of it: in the subtree that it was asked for, with the
/// signatures that the file holds; or each in that of the least landmark above its entry.
pub fn law_certificate_lists_are_printed<H: TreeHash, R: Room, O: Sink, E: Sink>()
    ensures certificates { CertificateListsArePrinted H.hash
        (program H.hash R.Room R.Dsk.Disk O.Sink E.Sink) }
    ensures light { LightListsArePrinted H.hash
        (program H.hash R.Room R.Dsk.Disk O.Sink E.Sink) }
{}

/// What is issued by a list is accepted as what is issued alone. If a run of an execution of a
/// log's journal issued entries by a list, and a later run of `cert` or `light-cert` printed a
/// certificate for one of the indexes, each run of `verify` over these bytes accepts them, at each
/// time of the request's period, by each store that backs the certificate, or ends with status 5, 6
/// or 8. And what a run of `certs` or `light-certs` printed is one certificate for each index, as
/// PEM, of which each is accepted so, whether `issue` or `issue-list` printed its index.
pub fn law_listed_certificates_are_accepted<H: TreeHash, R: Room, O: Sink, E: Sink>()
    ensures entries { ListedEntriesAreAccepted H.hash
        (program H.hash R.Room R.Dsk.Disk O.Sink E.Sink) }
    ensures certificates { ListedCertificatesAreAccepted H.hash
        (program H.hash R.Room R.Dsk.Disk O.Sink E.Sink) }
{
    law_records_keep_to_the_rules();
    law_records_determine_the_items();
}
