//! How many rows of each table are right.

use crate::answers::Asked;
use crate::rows::{Says, right_rows};
use crate::{deep, lexed, parsed, places};
use std::alloc::Global;

// The first table of which not all rows are right.
fn wrong_table(alloc: Global) -> &'static str {
    if right_rows(alloc, lexed::TOKENS, Says::Answer, Asked::Tokens) != 58 {
        "tokens"
    } else if right_rows(alloc, lexed::MOST, Says::Cells, Asked::Count) != 4 {
        "number of tokens"
    } else if right_rows(alloc, parsed::PROGRAMS, Says::Tree, Asked::Program) != 36 {
        "programs"
    } else if right_rows(alloc, parsed::NO_PROGRAMS, Says::NoTree, Asked::Program) != 24 {
        "no programs"
    } else if right_rows(alloc, parsed::PACKETS, Says::Tree, Asked::Packet) != 3 {
        "packets"
    } else if right_rows(alloc, parsed::NO_PACKETS, Says::NoTree, Asked::Packet) != 4 {
        "no packets"
    } else if right_rows(alloc, parsed::GROUPED, Says::Answer, Asked::Groups) != 24 {
        "operators"
    } else if right_rows(alloc, places::PROGRAMS, Says::Mark, Asked::Program) != 38 {
        "places of programs"
    } else if right_rows(alloc, places::PACKETS, Says::Mark, Asked::Packet) != 8 {
        "places of packets"
    } else {
        ""
    }
}

#[test]
fn each_row_is_right(rt: HostRuntime) {
    assert_eq!(rt; wrong_table(rt.alloc()), "");
}

#[test]
fn trees_are_at_most_400_deep(rt: HostRuntime) {
    let forms = right_rows(rt.alloc(), deep::FORMS, Says::Depth, Asked::Program);
    let places = right_rows(rt.alloc(), deep::PLACES, Says::Cells, Asked::Program);
    assert!(rt; forms == 25 && places == 13);
}
