//! What is tested in memory alone.

use crate::{basics, crafted, disks, stopped, streams};
use std::alloc::Global;

// The first of these that is not as it should be.
fn wrong_part(alloc: Global) -> &'static str {
    if !basics::bytes_grow(alloc) {
        "bytes"
    } else if !basics::a_list_grows(alloc) {
        "list"
    } else if !basics::a_box_holds(alloc) {
        "box"
    } else if !basics::two_owners_share(alloc) {
        "two owners"
    } else if !basics::numbers_are_decimal(alloc) {
        "decimal"
    } else if !streams::source_is_right(alloc) {
        "source"
    } else if !streams::sink_is_right(alloc) {
        "sink"
    } else if disks::right_scenes(alloc) != 9 {
        "disks"
    } else if disks::right_fused(alloc) != 3 {
        "disks behind a fuse"
    } else {
        ""
    }
}

#[test]
fn lists_streams_and_disks_are_as_told(rt: HostRuntime) {
    assert_eq!(rt; wrong_part(rt.alloc()), "");
}

fn stops_are_right(alloc: Global) -> bool {
    let first = stopped::each_stop_is_right(alloc, false, false)
        && stopped::each_stop_is_right(alloc, false, true);
    first
        && stopped::each_stop_is_right(alloc, true, false)
        && stopped::each_stop_is_right(alloc, true, true)
}

fn wrong_fixpoint(alloc: Global) -> &'static str {
    if crafted::right_cases(alloc) != 20 {
        "contents"
    } else if !(crafted::is_not_foreign(alloc, 1) && crafted::is_not_foreign(alloc, 2)) {
        "foreign"
    } else if !stops_are_right(alloc) {
        "stops"
    } else if !(stopped::each_failed_call_is_right(alloc, false)
        && stopped::each_failed_call_is_right(alloc, true))
    {
        "failed calls"
    } else if !stopped::all_go_on(alloc) {
        "going on"
    } else if !stopped::each_failed_format_is_told(alloc) {
        "format"
    } else {
        ""
    }
}

#[test]
fn fixpoints_are_as_told(rt: HostRuntime) {
    assert_eq!(rt; wrong_fixpoint(rt.alloc()), "");
}
