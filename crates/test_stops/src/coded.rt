//! Texts of lines, each of which begins with a word that says what it is, and bytes as words.

use std::alloc::Global;

// What a name represents, in hexadecimal. The values are those of an implementation that was
// written apart from the program. LOG and LONG are the first records of log 32473.1 with 2 active
// landmarks, and at most 64 or 1,024 entries. ITEM is the item of ENTRY, as a Batch has it. KEY_2
// is the public key of COSIGNER_2, and MESSAGE what this one signs where ALL asks for it. EIGHT are
// the items of eight entries without keys. MIRROR is the first record of a mirror of log 32473.1,
// and BATCH_8 that of these items; ADVANCE_5 and SIGN_4 are those of a cosigner that advances to
// the first five and signs the first four.
const NAMES: &str = "
HEADER 6d74632d6a6f75726e616c2f76310a00
LOG 010000000e010481fd59010000000200000040
LONG 010000000e010481fd59010000000200000400
ENTRY 01000000b40200830001a003020102301931173015060a2b0601040182da4b2f010c0733323437332e3130 \
1e170d3236303130313030303030305a170d3236303130383030303030305a30000420722abd12e99a5367f375aeb9 \
672a8e07712e03c2add16fa8d6914d1cfa2efe0ca31b301930170603551d110101ff040d300b8209612e657861 \
6d706c65002c302a300506032b6570032100000000000000000000000000000000000000000000000000000000 \
0000000000
ITEM 00830001a003020102301931173015060a2b0601040182da4b2f010c0733323437332e3130 \
1e170d3236303130313030303030305a170d3236303130383030303030305a30000420722abd12e99a5367f375aeb9 \
672a8e07712e03c2add16fa8d6914d1cfa2efe0ca31b301930170603551d110101ff040d300b8209612e657861 \
6d706c65002c302a300506032b6570032100000000000000000000000000000000000000000000000000000000 \
0000000000
TILED_256 0100000009040000000000000100
TILED_512 0100000009040000000000000200
SECRET 000102030405060708090a0b0c0d0e0f \
101112131415161718191a1b1c1d1e1f202122232425262728292a2b2c2d2e2f
COSIGNER 0100000043110481fd59020481fd59010000000500000001 000102030405060708090a0b0c0d0e0f \
101112131415161718191a1b1c1d1e1f202122232425262728292a2b2c2d2e2f
ADVANCE 0000002b120000000000000400 \
77566825cd25f263271e3fa5341db28ed2c87945ee98f731b2aa96b9e6b11cf6 0000
SIGN 00000037130000000000000000000000000000000000000400 \
77566825cd25f263271e3fa5341db28ed2c87945ee98f731b2aa96b9e6b11cf6 0000
TO_1024 0481fd59010000000000000400 \
77566825cd25f263271e3fa5341db28ed2c87945ee98f731b2aa96b9e6b11cf6 0000
ALL 0481fd590100000000000000000000000000000400 \
77566825cd25f263271e3fa5341db28ed2c87945ee98f731b2aa96b9e6b11cf6 0000
COSIGNER_2 0100000047150481fd59020481fd5901000000050000000500000001 \
000102030405060708090a0b0c0d0e0f 101112131415161718191a1b1c1d1e1f202122232425262728292a2b2c2d2e2f
CHILD 00000009140000000000000005
KEY_2 000000020000000500000001 000102030405060708090a0b0c0d0e0f \
a8664067560a77f7c00d2a0bed57b441c83745aef846c2f262f81941b396e652
MESSAGE 6d74632d737562747265652f76310a00 0481fd59020481fd5901 00000000000000000000000000000400 \
77566825cd25f263271e3fa5341db28ed2c87945ee98f731b2aa96b9e6b11cf6
EIGHT 00000000000100000000011000000002202100000002303100000004404142430000000850515253545556570000 \
0010606162636465666768696a6b6c6d6e6f0000
MIRROR 0100000006210481fd5901
BATCH_8 0100000045220008 \
00000000000100000000011000000002202100000002303100000004404142430000000850515253545556570000 \
0010606162636465666768696a6b6c6d6e6f0000
ADVANCE_5 0000002b120000000000000005 \
4e3bbb1f7b478dcfe71fb631631519a3bca12c9aefca1612bfce4c13a86264d4 0000
SIGN_4 00000057130000000000000000000000000000000000000004 \
d37ee418976dd95753c1c73862b9398fa2a2cf9b4ff0fdfe8b30cd95209614b7 0020 \
bc1a0643b12e4d2d7c77918f44e0f4f79a838b6cf9ec5b5c283e1f4d88599e6b
";

/// What follows a word in the first line that begins with it; nothing if there is no such line.
pub fn field<'a>(text: &'a str, key: &str) -> &'a str {
    for line in text.lines() {
        if let Some((word, rest)) = line.split_once(' ') {
            if word == key {
                return rest;
            }
        }
    }
    ""
}

fn append_digits(alloc: Global, bytes: &mut Vec<u8>, digits: &str) -> Option<()> {
    let piece = hex::decode(alloc, digits).ok()?;
    bytes.extend_from_slice(piece.as_slice()).ok()
}

fn append_once(alloc: Global, bytes: &mut Vec<u8>, word: &str) -> Option<()> {
    let named = field(NAMES, word);
    let coded = if named.is_empty() { word } else { named };
    for digits in coded.split_whitespace() {
        append_digits(alloc, bytes, digits)?;
    }
    Some(())
}

// A word, or so many times a word: `N*WORD`.
fn append_word(alloc: Global, bytes: &mut Vec<u8>, word: &str) -> Option<()> {
    let (times, once) = word.split_once('*').unwrap_or(("1", word));
    let mut piece = Vec::new(alloc);
    append_once(alloc, &mut piece, once)?;
    for _ in 0..times.parse::<u64>().ok()? {
        bytes.extend_from_slice(piece.as_slice()).ok()?;
    }
    Some(())
}

/// The bytes of words; none where a word is none, or memory is refused.
pub fn coded(alloc: Global, words: &str) -> Option<Vec<u8>> {
    let mut bytes = Vec::new(alloc);
    for word in words.split_whitespace() {
        append_word(alloc, &mut bytes, word)?;
    }
    Some(bytes)
}

/// The journal with the records of a line of a case.
pub fn journal_of(alloc: Global, case: &str, key: &str) -> Option<Vec<u8>> {
    let mut bytes = coded(alloc, field(case, key))?;
    bytes.push(0).ok()?;
    Some(bytes)
}

fn append_line(text: &mut Vec<u8>, line: &str, key: &str) -> Option<()> {
    if let Some((word, rest)) = line.split_once(' ') {
        if word == key {
            text.extend_from_slice(rest.as_bytes()).ok()?;
            text.push(b'\n').ok()?;
        }
    }
    Some(())
}

/// What follows a word in all lines that begin with it, as lines.
pub fn lines(alloc: Global, text: &str, key: &str) -> Option<Vec<u8>> {
    let mut found = Vec::new(alloc);
    for line in text.lines() {
        append_line(&mut found, line, key)?;
    }
    Some(found)
}

/// The numbers of a text.
pub fn numbers(alloc: Global, text: &str) -> Option<Vec<u64>> {
    let mut numbers = Vec::new(alloc);
    for word in text.split_whitespace() {
        numbers.push(word.parse::<u64>().ok()?).ok()?;
    }
    Some(numbers)
}
