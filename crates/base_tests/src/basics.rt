//! That memory suffices where there is enough.

use eu_base::{Boxed, Bytes, List, Shared, decimal};
use std::alloc::Global;

pub fn bytes_grow(alloc: Global) -> bool {
    match Bytes::from(alloc, b"ab") {
        Ok(bytes) => {
            let mut bytes = bytes;
            bytes.append(b"c").is_ok() && bytes.as_slice() == b"abc".as_slice()
        }
        Err(_) => false,
    }
}

pub fn a_list_grows(alloc: Global) -> bool {
    match List::from_slice(alloc, [4u32, 9].as_slice()) {
        Ok(list) => {
            let mut list = list;
            list.push(5).is_ok() && list.as_slice() == [4, 9, 5].as_slice()
        }
        Err(_) => false,
    }
}

pub fn a_box_holds(alloc: Global) -> bool {
    match Boxed::new(alloc, 7u8) {
        Ok(boxed) => *boxed.get() == 7,
        Err(_) => false,
    }
}

// A value stays as long as one owner has it.
pub fn two_owners_share(alloc: Global) -> bool {
    match Shared::new(alloc, 7u8) {
        Ok(first) => match first.share() {
            Ok(second) => *first.get() == 7 && *second.get() == 7,
            Err(_) => false,
        },
        Err(_) => false,
    }
}

fn is_decimal(alloc: Global, number: i64, digits: &str) -> bool {
    match decimal(alloc, number) {
        Ok(found) => found.as_slice() == digits.as_bytes(),
        Err(_) => false,
    }
}

pub fn numbers_are_decimal(alloc: Global) -> bool {
    let small = is_decimal(alloc, 0, "0")
        && is_decimal(alloc, 7, "7")
        && is_decimal(alloc, -32768, "-32768");
    let most = is_decimal(alloc, i64::MAX, "9223372036854775807");
    small && most && is_decimal(alloc, i64::MIN, "-9223372036854775808")
}
