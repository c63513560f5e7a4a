//! The commands and what their arguments say.

use tls_wire::AnchorId;

/// A command with its arguments, in their order: the name of a file is a text, a number a `u64`,
/// and an id an anchor id. J is the journal of a log, S that of a cosigner, M that of a mirror; no
/// journal's name ends in `.tiles`, and S isn't M.
#[derive(Debug, Drop)]
pub enum Command<'a> {
    /// `member FILE`: evaluate the inclusion path that the file holds.
    Member(&'a str),
    /// `show CERT`: print what a certificate says.
    Show(&'a str),
    /// `verify CERT STORE NOW`: judge a certificate by a store at a time, in seconds since
    /// 1970-01-01T00:00:00Z, at most 253402300799.
    Verify(&'a str, &'a str, u64),
    /// `init-log J LOGID MAXACTIVE LIMIT`: make the journal of a log, with 1 to 10,000 active
    /// landmarks and at most 2 to 16,777,216 entries.
    InitLog(&'a str, AnchorId, u64, u64),
    /// `issue J REQUEST`: add the entry of a request to the log.
    Issue(&'a str, &'a str),
    /// `checkpoint J`: print the size of the log and its tree hash.
    Checkpoint(&'a str),
    /// `entries J SIZE`: write the first entries of the log with their keys.
    Entries(&'a str, u64),
    /// `entries-from J FIRST SIZE`: write the entries of the log from one index on, as far as it
    /// had them at a size, with their keys.
    EntriesFrom(&'a str, u64, u64),
    /// `consist J OLD NEW`: write a request to a cosigner to advance from one size of the log to
    /// another.
    Consist(&'a str, u64, u64),
    /// `subtree J START END SIZE`: write a request to a cosigner to sign a subtree.
    Subtree(&'a str, u64, u64, u64),
    /// `keygen HEIGHT WIDTH SECRET`: print the public key of a secret. The height is 5 or 10, the
    /// width 1, 2, 4 or 8.
    Keygen(u64, u64, &'a str),
    /// `init-cosigner S ID LOGID HEIGHT WIDTH SECRET`: make the journal of a cosigner with this id,
    /// for the log of LOGID and with the key of a secret. The height is 5 or 10, the width 1, 2, 4
    /// or 8.
    ///
    /// `init-cosigner2 S ID LOGID TOP LOW WIDTH SECRET`: the same with a key of two levels, whose
    /// upper tree has the first height, and its lower trees the second one.
    InitCosigner(&'a str, AnchorId, AnchorId, u64, Option<u64>, u64, &'a str),
    /// `advance S REQUEST`: hold the root of the larger log in a request.
    Advance(&'a str, &'a str),
    /// `child S`: begin the next lower tree of a key of two levels.
    Child(&'a str),
    /// `cosign S REQUEST`: sign the subtree of a request.
    Cosign(&'a str, &'a str),
    /// `export S`: write what others may know of a cosigner.
    Export(&'a str),
    /// `landmark J`: set a landmark at the size of the log.
    Landmark(&'a str),
    /// `landmarks J`: write the list of the active landmarks.
    Landmarks(&'a str),
    /// `light-cert J INDEX`: write the certificate of an entry without signatures, with its path in
    /// the subtree that an active landmark has for it.
    LightCert(&'a str, u64),
    /// `trust-landmarks LIST MAXACTIVE ENTRIES`: write the tables of a store that trusts the
    /// subtrees of the active landmarks of a list, of which at most 1 to 10,000 may be active.
    TrustLandmarks(&'a str, u64, &'a str),
    /// `cert J INDEX START END SIGNATURES`: write the certificate of an entry, with its path in the
    /// subtree from START to END and the cosigners' signatures.
    Cert(&'a str, u64, u64, u64, &'a str),
    /// `audit CERT STORE NOW ENTRIES EXPORT`: judge a certificate by a store at a time as `verify`
    /// does, and compare what is accepted with the entries of a log and the export of a cosigner.
    Audit(&'a str, &'a str, u64, &'a str, &'a str),
    /// `quarrel EXPORT`: find two signatures of a cosigner for one interval with different hashes
    /// in its export, and two strings with one hash that they show.
    Quarrel(&'a str),
    /// `drill NUMBER`: play the drill with this number on devices in memory, and print what came of
    /// it.
    Drill(u64),
    /// `tile J`: store the tiles of the log that are full and not stored.
    Tile(&'a str),
    /// `tile-anew J`: write the tiles of the log that were stored again, into a file that is lost,
    /// cut or changed.
    TileAnew(&'a str),
    /// `switch J`: from the size of the log on entries name the algorithm of their key.
    Switch(&'a str),
    /// `issue-list J REQUESTS`: add the entries of several requests to the log, all or none.
    IssueList(&'a str, &'a str),
    /// `light-certs J FIRST LAST`: write the certificates of the entries from FIRST up to LAST,
    /// without it, that need no signatures, as PEM.
    LightCerts(&'a str, u64, u64),
    /// `certs J FIRST LAST START END SIGNATURES`: write the certificates of the entries from FIRST
    /// up to LAST, without it, in one subtree and with the cosigners' signatures, as PEM.
    Certs(&'a str, u64, u64, u64, u64, &'a str),
    /// `mirror-init M LOGID`: make the journal of a mirror of the log of LOGID.
    MirrorInit(&'a str, AnchorId),
    /// `mirror-take M ENTRIES`: add to the mirror the next entries of its log, of which a file has
    /// all, with their keys.
    MirrorTake(&'a str, &'a str),
    /// `mirror-tile M`: store the tiles of the mirror that are full and not stored.
    MirrorTile(&'a str),
    /// `mirror-entries M SIZE`: write the first entries of the mirror with their keys.
    MirrorEntries(&'a str, u64),
    /// `mirror-advance S M SIZE`: have the cosigner hold the root of the first entries of the
    /// mirror.
    MirrorAdvance(&'a str, &'a str, u64),
    /// `mirror-cosign S M START END`: have the cosigner sign a subtree of the mirror.
    MirrorCosign(&'a str, &'a str, u64, u64),
    /// `root ENTRIES`: print the number of the entries of a file and their tree hash.
    Root(&'a str),
    /// `held EXPORT`: print what an export says of its cosigner.
    Held(&'a str),
    /// `monitor-init LOGID`: print the state that a monitor of a log begins with.
    MonitorInit(AnchorId),
    /// `monitor STATE WATCH REQUEST ENTRIES`: test that new entries lead from a state to the size
    /// and the root of a request, report those with watched names, and print the next state.
    Monitor(&'a str, &'a str, &'a str, &'a str),
    /// `help`: print a line for each command.
    Help,
    /// `version`: print the profile and the draft.
    Version,
}
