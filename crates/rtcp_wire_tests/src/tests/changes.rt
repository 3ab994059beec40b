//! Each change of one octet of a named report. The expected results were worked out by hand.

use super::*;

/// An octet, a result, and how many of its 256 values give that.
static CHANGES: [(usize, Option<(FaultReason, usize)>, u32); 40] = [
    // The first word: version, padding bit and count; type; length.
    (0, Some((FaultReason::Version, 0)), 192),
    (0, Some((FaultReason::FirstPadding, 0)), 32),
    (0, Some((FaultReason::Body, 0)), 31),
    (0, None, 1),
    (1, Some((FaultReason::FirstType, 0)), 254),
    (1, Some((FaultReason::Body, 0)), 1),
    (1, None, 1),
    (2, Some((FaultReason::Length, 0)), 255),
    (2, None, 1),
    (3, Some((FaultReason::Body, 0)), 1),
    (3, Some((FaultReason::Version, 12)), 1),
    (3, Some((FaultReason::Version, 16)), 1),
    (3, Some((FaultReason::Length, 0)), 251),
    (3, None, 2),
    // The header of the source description: read as another type, its body of two words is too short for a report's
    // block, and a BYE has room for its source and a reason of one octet.
    (8, Some((FaultReason::Version, 8)), 192),
    (8, Some((FaultReason::Padding, 8)), 32),
    (8, Some((FaultReason::Body, 8)), 31),
    (8, None, 1),
    (9, Some((FaultReason::Body, 8)), 2),
    (9, None, 254),
    (10, Some((FaultReason::Length, 8)), 255),
    (10, None, 1),
    (11, Some((FaultReason::Body, 8)), 1),
    (11, Some((FaultReason::Item, 8)), 1),
    (11, Some((FaultReason::Length, 8)), 253),
    (11, None, 1),
    // Any SSRC is read, and so is any octet of the text.
    (4, None, 256),
    (5, None, 256),
    (6, None, 256),
    (7, None, 256),
    (12, None, 256),
    (13, None, 256),
    (14, None, 256),
    (15, None, 256),
    (18, None, 256),
    // The item's type and length, and the zero octet after it: a type of 0 ends the items at once, and three octets
    // are left for the fill.
    (16, None, 256),
    (17, None, 1),
    (17, Some((FaultReason::Item, 8)), 255),
    (19, None, 1),
    (19, Some((FaultReason::Item, 8)), 255),
];

/// How many of the 256 values of an octet give this result, a fault or none.
fn counted(place: usize, expected: Option<(FaultReason, usize)>) -> u32 {
    let mut count: u32 = 0;
    for value in 0..=255u8 {
        let mut octets = NAMED;
        if place < octets.len() {
            octets[place] = value;
        }
        let found = Compound::read(&octets).err();
        if found.map(|fault| (fault.reason, fault.place)) == expected && count < 256 {
            count += 1;
        }
    }
    count
}

/// Each octet of the named report with each value.
#[test]
fn each_octet(rt: HostRuntime) {
    for (place, expected, count) in &CHANGES {
        let found = counted(*place, *expected);
        assert_eq!(rt; found, *count, "octet {place}, {expected:?}");
    }
}
