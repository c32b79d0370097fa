//! How many rows of each table are as they say.

use crate::record_roots::{are_roots, is_replaced};
use crate::record_rows::{records, refusals, wholes};
use crate::record_tables::{FORMS, LARGE, REFUSED, ROOTED, SMALL, TASK, TASK_AGAIN, WAITING};

#[test]
fn a_record_is_read_and_written_again(rt: HostRuntime) {
    assert_eq!(rt; records(rt.alloc(), SMALL), 17);
    assert_eq!(rt; records(rt.alloc(), WAITING), 54);
    assert_eq!(rt; records(rt.alloc(), FORMS), 30);
    assert_eq!(rt; records(rt.alloc(), LARGE), 17);
}

#[test]
fn what_is_past_a_limit_is_refused(rt: HostRuntime) {
    assert_eq!(rt; refusals(rt.alloc(), REFUSED), 55);
}

#[test]
fn a_part_of_a_record_is_none_and_nothing_stands_behind_it(rt: HostRuntime) {
    assert_eq!(rt; wholes(rt.alloc(), SMALL), 17);
    assert_eq!(rt; wholes(rt.alloc(), WAITING), 54);
    assert_eq!(rt; wholes(rt.alloc(), FORMS), 30);
}

#[test]
fn roots_are_told_and_replaced(rt: HostRuntime) {
    let alloc = rt.alloc();
    assert!(rt; are_roots(alloc, ROOTED, &[7, 8, 9, 4, 5, 6, 1, 2, 3, 0]));
    assert!(rt; is_replaced(alloc, TASK, &[0, 1, 2, 3, 4], TASK_AGAIN));
}
