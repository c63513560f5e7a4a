//! The text of `help`. Made by tests/manual.sh from docs/COMMANDS.md.

/// A line for each command: its arguments, and what it prints.
pub(crate) const HELP: &str = "\
member FILE: member INDEX, or refused NAME where the judgement is against\n\
show CERT: what it says, a line for each field\n\
verify CERT STORE NOW: accepted INDEX, or refused NAME .. where the judgement is against\n\
init-log J LOGID MAXACTIVE LIMIT: log LOGID\n\
issue J REQUEST: issued INDEX\n\
issue-list J REQUESTS: issued INDEX, a line for each request\n\
checkpoint J: size N and root HASH, two lines\n\
entries J SIZE: the entries file of its first SIZE entries\n\
entries-from J FIRST SIZE: the entries file of its entries from FIRST up to SIZE, without SIZE\n\
consist J OLD NEW: the request to a cosigner that holds the first OLD entries to hold the first \
NEW ones; without a proof for OLD 0\n\
subtree J START END SIZE: the request to a cosigner that holds the first SIZE entries to sign the \
subtree from START up to END, without END\n\
keygen HEIGHT WIDTH SECRET: the public key of 60 bytes in base64\n\
init-cosigner S ID LOGID HEIGHT WIDTH SECRET: the public key of 60 bytes in base64\n\
init-cosigner2 S ID LOGID TOP LOW WIDTH SECRET: the public key of 60 bytes in base64\n\
advance S REQUEST: advanced SIZE\n\
child S: child NUMBER\n\
cosign S REQUEST: the signature, with the cosigner's id\n\
export S: what others may know of it: all of its journal but the secret\n\
landmark J: landmark NUMBER SIZE\n\
landmarks J: the list of its active landmarks\n\
light-cert J INDEX: the certificate, in DER\n\
light-certs J FIRST LAST: the certificates, as PEM\n\
switch J: switched INDEX\n\
tile J: tiled SIZE\n\
tile-anew J: tiled SIZE\n\
trust-landmarks LIST MAXACTIVE ENTRIES: the tables of a store that trusts the subtrees of the \
active landmarks\n\
cert J INDEX START END SIGNATURES: the certificate, in DER\n\
certs J FIRST LAST START END SIGNATURES: the certificates, as PEM\n\
mirror-init M LOGID: mirror LOGID\n\
mirror-take M ENTRIES: mirrored SIZE\n\
mirror-tile M: tiled SIZE\n\
mirror-entries M SIZE: the entries file of its first SIZE entries\n\
mirror-advance S M SIZE: advanced SIZE\n\
mirror-cosign S M START END: the signature, with the cosigner's id\n\
audit CERT STORE NOW ENTRIES EXPORT: stands INDEX, foreign WANTED FOUND, unrecorded, or collision \
and two lines in hexadecimal; refused NAME .. as verify\n\
quarrel EXPORT: agree; or quarrel FIRST SECOND, the numbers of their one-time keys, and two lines \
in hexadecimal\n\
drill NUMBER: its summary, eight lines\n\
root ENTRIES: size N and root HASH, their number and their tree hash, as checkpoint\n\
held EXPORT: what it holds and has signed, line by line\n\
monitor-init LOGID: the state\n\
monitor STATE WATCH REQUEST ENTRIES: a line for each name under a watched domain and for each \
entry that doesn't read, and the next state\n\
help: a line for each command: its arguments, and what it prints\n\
version: profile N and draft NAME, two lines\n\
";
