//! Rows of text.
use std::alloc::{AllocError, Global};

/// A text with the values of a row in it: the first in each place of `$1`, and so on.
///
/// # Errors
///
/// Where memory is refused.
pub fn filled(alloc: Global, text: &str, row: &[String]) -> Result<String, AllocError> {
    let mut all = String::from_str(alloc, text)?;
    for (index, value) in row.iter().enumerate() {
        let mark = format!(in alloc; "${}", index.saturating_add(1))?;
        all = all.replace(alloc, mark.as_str(), value)?;
    }
    Ok(all)
}

/// A text in which the first OLD of `OLD => NEW` is NEW, if there is one. A bar stands for the end of a line.
pub fn changed(alloc: Global, text: &str, change: &str) -> Option<String> {
    let change = change.replace(alloc, "|", "\n").ok()?;
    let (old, new) = change.as_str().split_once(" => ")?;
    let (before, after) = text.split_once(old)?;
    format!(in alloc; "{before}{new}{after}").ok()
}

/// The whole numbers of a line, if each of its words is one.
pub fn numbers(alloc: Global, line: &str) -> Option<Vec<i64>> {
    let mut row = Vec::new(alloc);
    for word in line.split_whitespace() {
        row.push(word.parse::<i64>().ok()?).ok()?;
    }
    Some(row)
}
