//! Words of a line of a table.
use containers::{Bytes, NoMemory};
use eu_base::ReviveError;
use std::alloc::Global;
use task_numbers::TaskNo;

/// A number, 0 where the word is none.
pub fn number(word: &str) -> u32 {
    word.parse::<u32>().unwrap_or(0)
}

/// A task by its number.
pub fn task(word: &str) -> TaskNo {
    TaskNo(number(word))
}

/// Bytes, where `~` stands for fifty and `_` for none.
pub fn spelled(alloc: Global, word: &str) -> Result<Bytes, NoMemory> {
    let mut bytes = Bytes::new(alloc);
    for byte in word.as_bytes() {
        match *byte {
            b'~' => bytes.append(&[b'x'; 50])?,
            b'_' => (),
            byte => bytes.append(&[byte])?,
        }
    }
    Ok(bytes)
}

/// What a refusal is told as.
pub fn told(cause: ReviveError) -> &'static str {
    match cause {
        ReviveError::NoMemory => "no memory",
        ReviveError::NotSystem => "no",
    }
}
