//! Rows of tables: cells between bars, and words between blanks.

/// The cell of a row, from 0 on; empty where there is none.
pub fn cell(row: &str, k: usize) -> &str {
    row.split('|').nth(k).unwrap_or("")
}

/// What stands before a sign and behind it; nothing behind where it isn't there.
pub fn parts(text: &str, sign: char) -> (&str, &str) {
    text.split_once(sign).unwrap_or((text, ""))
}

/// The number that a word says; 0 for any other word.
pub fn number(word: &str) -> u32 {
    word.parse().unwrap_or(0)
}
