// Mark words by example.
use crate::run::Run;
use crate::words::{cleared, due_bytes, first_run};

#[test]
fn a_line_with_nothing_due_has_no_run(rt: HostRuntime) {
    assert_eq!(rt; first_run(0), None);
    assert_eq!(rt; due_bytes(0), 0);
}

#[test]
fn the_first_run_ends_before_a_gap(rt: HostRuntime) {
    assert_eq!(rt; first_run(0b0110_1110_0100), Some(Run { start: 2, len: 1 }));
    assert_eq!(rt; first_run(0b0110_1110_0000), Some(Run { start: 5, len: 3 }));
    assert_eq!(rt; due_bytes(0b0110_1110_0100), 6);
}

#[test]
fn a_run_may_reach_the_end_of_the_line(rt: HostRuntime) {
    assert_eq!(rt; first_run(u64::MAX), Some(Run { start: 0, len: 64 }));
    assert_eq!(rt; first_run(1 << 63), Some(Run { start: 63, len: 1 }));
    assert_eq!(rt; due_bytes(u64::MAX), 64);
}

#[test]
fn clearing_takes_only_those_marks(rt: HostRuntime) {
    assert_eq!(rt; cleared(0b1111_1111, 2, 3), 0b1110_0011);
    assert_eq!(rt; cleared(u64::MAX, 0, 64), 0);
    assert_eq!(rt; cleared(u64::MAX, 63, 1), u64::MAX >> 1);
    assert_eq!(rt; cleared(0b1010, 1, 0), 0b1010);
}

#[test]
fn marks_beyond_the_line_are_not_cleared(rt: HostRuntime) {
    assert_eq!(rt; cleared(u64::MAX, 1, 64), u64::MAX);
    assert_eq!(rt; cleared(u64::MAX, 64, 1), u64::MAX);
    assert_eq!(rt; cleared(u64::MAX, u32::MAX, u32::MAX), u64::MAX);
}
