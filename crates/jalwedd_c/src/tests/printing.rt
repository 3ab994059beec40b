//! The line of a datagram that was made by hand, in rooms of several sizes.

use super::*;
use crate::print::{jalwedd_print, jalwedd_print_plain};
use std::process::Abort;

/// A receiver report of 7, with a block about 0xbb by which 64 of 256 were lost, -1 in all; and its CNAME `a"`.
const REPORT: [u8; 48] = [
    0x81, 0xc9, 0, 7, 0, 0, 0, 7, // of 7
    0, 0, 0, 0xbb, 64, 0xff, 0xff, 0xff, 0, 0, 0, 12, 0, 0, 0, 40, // about 0xbb
    0, 2, 0x80, 0, 0, 1, 0, 0, // lsr: 2.5 s; dlsr: 1 s
    0x81, 0xca, 0, 3, 0, 0, 0, 7, 1, 2, 0x61, 0x22, 0, 0, 0, 0,
];

const LINE: [u8; 83] =
    *b"ok RR(00000007,[000000bb/64/-1/12/40/00028000/00010000],0) SDES([00000007{1=6122}])";

/// What stands in a room before a call.
const BEFORE: u8 = 0xee;

/// A call leaves this text in a room of so many octets, a zero octet after it, and the others as they were.
fn leaves(rt: &impl Abort, room: &[u8], text: &[u8]) {
    assert!(rt; text.len() < room.len());
    assert_eq!(rt; &room[..text.len()], text);
    assert_eq!(rt; room[text.len()], 0);
    for octet in &room[text.len() + 1..] {
        assert_eq!(rt; *octet, BEFORE);
    }
}

#[test]
fn whole_lines(rt: HostRuntime) {
    let mut room = [BEFORE; 200];
    assert_eq!(rt; jalwedd_print(&REPORT, &mut room), 83);
    leaves(&rt, &room, &LINE);
}

#[test]
fn whole_lines_in_plain_words(rt: HostRuntime) {
    let mut room = [BEFORE; 200];
    let units =
        b"ok RR ssrc=00000007 block about=000000bb loss=25.0% lost=-1 highest=12 jitter=40units \
        lsr=2.500000s dlsr=1.000000s SDES ssrc=00000007 cname=\"a\\\"\"";
    assert_eq!(rt; jalwedd_print_plain(&REPORT, 0, &mut room), units.len());
    leaves(&rt, &room, units.as_slice());
    let milliseconds =
        b"ok RR ssrc=00000007 block about=000000bb loss=25.0% lost=-1 highest=12 jitter=5.000ms \
        lsr=2.500000s dlsr=1.000000s SDES ssrc=00000007 cname=\"a\\\"\"";
    let mut other = [BEFORE; 200];
    assert_eq!(rt;
        jalwedd_print_plain(&REPORT, 8_000, &mut other),
        milliseconds.len()
    );
    leaves(&rt, &other, milliseconds.as_slice());
}

#[test]
fn cut_lines(rt: HostRuntime) {
    let mut room = [BEFORE; 84];
    assert_eq!(rt; jalwedd_print(&REPORT, &mut room), 83);
    leaves(&rt, &room, &LINE);
    let mut short = [BEFORE; 83];
    assert_eq!(rt; jalwedd_print(&REPORT, &mut short), 83);
    leaves(&rt, &short, &LINE[..82]);
    let mut one = [BEFORE; 1];
    assert_eq!(rt; jalwedd_print(&REPORT, &mut one), 83);
    leaves(&rt, &one, b"".as_slice());
    assert_eq!(rt; jalwedd_print(&REPORT, &mut []), 83);
}

#[test]
fn faults(rt: HostRuntime) {
    let mut room = [BEFORE; 40];
    assert_eq!(rt; jalwedd_print(&REPORT[32..], &mut room), 17);
    leaves(&rt, &room, b"F3 FirstType at 0".as_slice());
    let mut other = [BEFORE; 40];
    assert_eq!(rt; jalwedd_print_plain(&REPORT[..44], 0, &mut other), 15);
    leaves(&rt, &other, b"F5 Length at 32".as_slice());
}
