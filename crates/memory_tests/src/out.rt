//! What scenes write. Where memory is refused, the text is too short, and the scene goes wrong.

use eu_base::{Bytes, MemFault, Set};

/// Adds to what a scene writes.
pub fn put(out: &mut Bytes, bytes: &[u8]) {
    let _put = out.append(bytes).is_ok();
}

/// Whether something went well.
pub fn tell(out: &mut Bytes, right: bool) {
    put(out, if right { b"+" } else { b"-" });
}

/// A call that was refused: `!` where what stands behind the pages failed, and `m` where memory was wanted.
pub fn tell_fault(out: &mut Bytes, fault: MemFault) {
    match fault {
        MemFault::Failed => put(out, b"!"),
        MemFault::NoMemory => put(out, b"m"),
    }
}

/// A call that is to go well.
pub fn tell_done(out: &mut Bytes, done: Result<(), MemFault>) {
    match done {
        Ok(()) => tell(out, true),
        Err(fault) => tell_fault(out, fault),
    }
}

/// A text that is put, or for which there is no room.
pub fn tell_set(out: &mut Bytes, set: Result<Set, MemFault>, full: bool) {
    match set {
        Ok(set) => tell(out, matches!(set, Set::HeapFull) == full),
        Err(fault) => tell_fault(out, fault),
    }
}

/// A number from 0 to 9.
pub fn put_digit(out: &mut Bytes, number: u32) {
    put(out, &[b'0' + (number % 10) as u8]);
}
