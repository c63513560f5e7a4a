//! Which commands stop, and what is left.
//!
//! A line of a case is one of these:
//!
//! ```text
//! run WORD ..     the command, which adds one record to its journal
//! device NAME     the file whose device stops
//! journal NAME    the command's journal
//! limit N         how many entries its log may have, if it is that of a log and not new
//! lower           if it is that of a cosigner, that its key has lower trees
//! mirror ID       if it is that of a mirror, the log's id
//! tiled BYTES     the journal when the tiles were stored that it has at first
//! old BYTES       its header and its records at first, without the commit byte that closes it
//! record BYTES    the record, with its commit byte
//! ask WORD ..     a command that opens what is left
//! before BYTES    what its output begins with if the record isn't there, and
//! before| TEXT    a line of that, or
//! before! TEXT    what it reports, with status 4; none of these if there is no journal without
//!                 the record
//! after BYTES     what its output begins with if the record is there, and
//! after| TEXT     a line of that, or
//! after! TEXT     what it reports, with status 4
//! signed BYTES    a public key and a message, if each output is a signature of it, after the
//!                 cosigner's id and a length of two bytes
//! from N          how many calls the device passes at the first of these stops; 0 if it isn't said
//! stops N ..      how many of sixteen crash states have the record, after each stop
//! then N          how many have it after the run that comes next, and doesn't stop
//! ```
//!
//! By its lowest two bits a pick leaves nothing of a write, all of it, a prefix, or a prefix with
//! other bytes after it. So half of them commit, once the commit byte is written and not synced.

/// A new journal: its record is written and synced, and so is the commit byte before it.
pub const NEW_LOG: &str = "
run init-log j 32473.1 2 64
device j
journal j
old HEADER
record LOG
ask checkpoint j
after| size 1
after| root 709e80c88487a2411e1ee4dfb9f22a861492d20c4765150c0c794abd70f8147c
stops 0 0 0 8
then 16
";

/// A journal that is opened is synced first.
pub const ISSUE: &str = "
run issue j r
device j
journal j
limit 64
old HEADER LOG
record ENTRY
ask checkpoint j
before| size 1
before| root 709e80c88487a2411e1ee4dfb9f22a861492d20c4765150c0c794abd70f8147c
after| size 2
after| root 77566825cd25f263271e3fa5341db28ed2c87945ee98f731b2aa96b9e6b11cf6
stops 0 0 0 0 8
then 16
";

/// Two entries by one record: each crash state has both, or none.
pub const ISSUE_LIST: &str = "
run issue-list j q
device j
journal j
limit 64
old HEADER LOG
record 01 00000169 06 0002 2*ITEM
ask checkpoint j
before| size 1
before| root 709e80c88487a2411e1ee4dfb9f22a861492d20c4765150c0c794abd70f8147c
after| size 3
after| root f2ce814f4c469cc3345b4e09f337f46d4dce10d0c521d1ce15fdbef35d11002a
stops 0 0 0 0 8
then 16
";

pub const LANDMARK: &str = "
run landmark j
device j
journal j
limit 64
old HEADER LOG ENTRY
record 0100000009030000000000000002
ask landmarks j
before| 0 0
before| 0
after| 1 1
after| 2
after| 0
stops 0 0 0 0 8
then 16
";

/// What is left is asked to switch once more.
pub const SWITCH: &str = "
run switch j
device j
journal j
limit 64
old HEADER LOG ENTRY
record 0100000009050000000000000002
ask switch j
before| switched 2
after! mtc: switch: AlreadySwitched 2
stops 0 0 0 0 8
then 16
";

/// 512 entries, of which 256 fill a tile that is stored.
pub const TILE: &str = "
run tile j
device j
journal j
tiled HEADER LONG 255*ENTRY
limit 1024
old HEADER LONG 255*ENTRY TILED_256 256*ENTRY
record TILED_512
ask checkpoint j
before| size 512
before| root 6d0a2d1ba4e0f5fa3da1d5f3a971f52138c7c8fe6a522849b21d16b7bedf720b
after| size 512
after| root 6d0a2d1ba4e0f5fa3da1d5f3a971f52138c7c8fe6a522849b21d16b7bedf720b
stops 0 0 0
";

/// The same, from the commit byte on.
pub const TILE_COMMIT: &str = "
run tile j
device j
journal j
tiled HEADER LONG 255*ENTRY
limit 1024
old HEADER LONG 255*ENTRY TILED_256 256*ENTRY
record TILED_512
ask checkpoint j
before| size 512
before| root 6d0a2d1ba4e0f5fa3da1d5f3a971f52138c7c8fe6a522849b21d16b7bedf720b
after| size 512
after| root 6d0a2d1ba4e0f5fa3da1d5f3a971f52138c7c8fe6a522849b21d16b7bedf720b
from 3
stops 0 8
then 16
";

/// The same from the beginning, where the file of the tiles stops: synced, written and synced.
pub const TILES: &str = "
run tile j
device j.tiles
journal j
tiled HEADER LONG 255*ENTRY
limit 1024
old HEADER LONG 255*ENTRY TILED_256 256*ENTRY
record TILED_512
ask checkpoint j
before| size 512
before| root 6d0a2d1ba4e0f5fa3da1d5f3a971f52138c7c8fe6a522849b21d16b7bedf720b
after| size 512
after| root 6d0a2d1ba4e0f5fa3da1d5f3a971f52138c7c8fe6a522849b21d16b7bedf720b
stops 0 0 0
then 16
";

/// A cosigner is asked without its key, which takes long to rebuild.
pub const NEW_COSIGNER: &str = "
run init-cosigner s 32473.2 32473.1 5 1 f
device s
journal s
old HEADER
record COSIGNER
ask advance s a
after| advanced 1024
stops 0 0 0 8
then 16
";

pub const ADVANCE: &str = "
run advance s a
device s
journal s
old HEADER COSIGNER
record 01 ADVANCE
ask advance s a
before| advanced 1024
after! mtc: advance: NotNewer 1024
stops 0 0 0 0 8
then 16
";

pub const COSIGN: &str = "
run cosign s t
device s
journal s
old HEADER COSIGNER 01 ADVANCE
record 01 SIGN
ask advance s a
before! mtc: advance: NotNewer 1024
after! mtc: advance: NotNewer 1024
stops 0 0 0 0 8
then 16
";

/// The signature that comes next is by the key after those of the records.
pub const COSIGN_AGAIN: &str = "
run cosign s t
device s
journal s
old HEADER COSIGNER 01 ADVANCE
record 01 SIGN
ask cosign s t
before 0481fd590221f0 00000000 00000000
after 0481fd590221f0 00000000 00000001
from 4
stops 8
";

/// A key with lower trees has none at first.
pub const NEW_COSIGNER_2: &str = "
run init-cosigner2 s 32473.2 32473.1 5 5 1 f
device s
journal s
old HEADER
record COSIGNER_2
ask child s
after| child 0
stops 0 0 0 8
then 16
";

/// What is left is asked for its next lower tree.
pub const CHILD: &str = "
run child s
device s
journal s
lower trees
old HEADER COSIGNER_2 01 ADVANCE
record 01 CHILD
ask child s
before| child 0
after! mtc: child: ChildLeft 32
stops 0 0 0 0 8
then 16
";

/// The next signature is by the first key of the lower tree, if that is there.
pub const CHILD_SIGNS: &str = "
run child s
device s
journal s
lower trees
old HEADER COSIGNER_2 01 ADVANCE
record 01 CHILD
ask cosign s t
before! mtc: cosign: NeedsChild
after 0481fd59024414 00000001 00000000
signed KEY_2 MESSAGE
from 4
stops 8
then 16
";

/// A signature takes a key of the lower tree.
pub const COSIGN_2: &str = "
run cosign s t
device s
journal s
lower trees
old HEADER COSIGNER_2 01 ADVANCE 01 CHILD
record 01 SIGN
ask child s
before! mtc: child: ChildLeft 32
after! mtc: child: ChildLeft 31
stops 0 0 0 0 8
then 16
";
