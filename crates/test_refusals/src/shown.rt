//! A list of refusals as it is displayed.

use std::alloc::Global;
use std::fmt::Display;
use std::test::Fail;

/// Each of the list, on a line of its own.
pub fn shown<T: Display>(alloc: Global, list: &[T]) -> Result<String, Fail> {
    let mut text = String::new(alloc);
    for one in list {
        let line = format!(in alloc; "{one}\n")?;
        text.push_str(line.as_str())?;
    }
    Ok(text)
}
