//! Words and numbers of a text.

use mtc_io::Memory;
use std::alloc::Global;

/// A line can't be read, or memory is refused.
#[derive(Clone, Copy, Debug, PartialEq, Eq)]
pub struct Unread;

/// The first word of a line, and what follows the blank after it.
pub fn parted(line: &str) -> (&str, &str) {
    line.split_once(' ').unwrap_or((line, ""))
}

fn put_word(alloc: Global, words: &mut Vec<String>, word: &str) -> Result<(), Memory> {
    let text = if word == "''" { "" } else { word };
    words.push(String::from_str(alloc, text)?)?;
    Ok(())
}

fn put_words(alloc: Global, words: &mut Vec<String>, text: &str) -> Result<(), Memory> {
    for word in text.split_whitespace() {
        put_word(alloc, words, word)?;
    }
    Ok(())
}

/// The arguments of a text, as the program gets them; '' is an empty one.
pub fn owned_words(alloc: Global, text: &str) -> Result<Vec<String>, Memory> {
    let mut words = Vec::new(alloc);
    put_words(alloc, &mut words, text)?;
    Ok(words)
}

fn put_numbers(numbers: &mut Vec<u64>, text: &str) -> Option<()> {
    for word in text.split_whitespace() {
        numbers.push(word.parse::<u64>().ok()?).ok()?;
    }
    Some(())
}

/// The numbers of a text; none where a word is none, or memory is refused.
pub fn numbers(alloc: Global, text: &str) -> Option<Vec<u64>> {
    let mut numbers = Vec::new(alloc);
    put_numbers(&mut numbers, text)?;
    Some(numbers)
}
