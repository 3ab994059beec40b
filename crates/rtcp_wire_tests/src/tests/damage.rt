//! Damage: each prefix of a datagram, and each change of one octet of it, read as RTCP and as RTP.
//!
//! The numbers are those of compare/program/damage, whose decoder and model are written from docs/ alone. The named
//! report as RTCP is left out: its numbers were worked out by hand, octet by octet (`changes`, `prefixes`).

use super::samples::*;
use super::*;

/// How many datagrams are read; and by the offset, how many have each fault there, from F1 to F9.
type Results = (u32, &'static [(usize, [u32; 9])]);

/// A datagram, and the results of its prefixes and of its changes.
static COMPOUNDS: [(&[u8], Results, Results); 16] = [
    (
        REPORT,
        (1, &[(0, [4, 0, 0, 0, 4, 0, 0, 0, 0])]),
        (1020, &[(0, [0, 192, 254, 32, 509, 0, 33, 0, 0])]),
    ),
    (
        NAMED_AND_OCTET,
        (
            2,
            &[
                (0, [4, 0, 0, 0, 4, 0, 0, 0, 0]),
                (8, [3, 0, 0, 0, 8, 0, 0, 0, 0]),
                (20, [1, 0, 0, 0, 0, 0, 0, 0, 0]),
            ],
        ),
        (
            0,
            &[
                (0, [0, 192, 254, 32, 506, 0, 33, 0, 0]),
                (8, [0, 192, 0, 0, 508, 32, 34, 511, 0]),
                (12, [0, 1, 0, 0, 0, 0, 0, 0, 0]),
                (16, [0, 1, 0, 0, 0, 0, 0, 0, 0]),
                (20, [3059, 0, 0, 0, 0, 0, 0, 0, 0]),
            ],
        ),
    ),
    (
        PADDED_REPORT,
        (0, &[(0, [4, 0, 0, 9, 0, 0, 0, 0, 0])]),
        (1, &[(0, [0, 192, 254, 2582, 0, 0, 31, 0, 0])]),
    ),
    (
        PADDED_GOODBYE,
        (
            2,
            &[
                (0, [4, 0, 0, 0, 4, 0, 0, 0, 0]),
                (8, [3, 0, 0, 0, 8, 0, 0, 0, 0]),
            ],
        ),
        (
            3060,
            &[
                (0, [0, 192, 254, 32, 506, 0, 33, 0, 0]),
                (8, [0, 192, 0, 0, 508, 256, 63, 1, 1]),
                (12, [0, 1, 0, 0, 0, 0, 0, 0, 0]),
                (16, [0, 1, 0, 0, 0, 0, 0, 0, 0]),
            ],
        ),
    ),
    (
        CUT_REPORT,
        (0, &[(0, [4, 0, 0, 0, 4, 0, 0, 0, 0])]),
        (0, &[(0, [0, 192, 254, 32, 1306, 0, 1, 0, 0])]),
    ),
    (
        MISSING_BLOCK,
        (0, &[(0, [4, 0, 0, 0, 4, 0, 1, 0, 0])]),
        (1, &[(0, [0, 192, 254, 32, 509, 0, 1052, 0, 0])]),
    ),
    (
        LONG_ITEM,
        (
            1,
            &[
                (0, [4, 0, 0, 0, 4, 0, 0, 0, 0]),
                (8, [3, 0, 0, 0, 8, 0, 0, 1, 0]),
            ],
        ),
        (
            256,
            &[
                (0, [0, 192, 254, 32, 506, 0, 33, 0, 0]),
                (8, [0, 192, 0, 0, 508, 32, 4, 3089, 0]),
                (12, [0, 1, 0, 0, 0, 0, 0, 0, 0]),
                (16, [0, 1, 0, 0, 0, 0, 0, 0, 0]),
            ],
        ),
    ),
    (
        LONG_REASON,
        (
            1,
            &[
                (0, [4, 0, 0, 0, 4, 0, 0, 0, 0]),
                (8, [3, 0, 0, 0, 8, 0, 0, 0, 1]),
            ],
        ),
        (
            258,
            &[
                (0, [0, 192, 254, 32, 506, 0, 33, 0, 0]),
                (8, [0, 192, 0, 0, 508, 32, 32, 1, 3057]),
                (12, [0, 1, 0, 0, 0, 0, 0, 0, 0]),
                (16, [0, 2, 0, 0, 0, 0, 0, 0, 0]),
            ],
        ),
    ),
    (
        SENDER_REPORT,
        (1, &[(0, [4, 0, 0, 0, 24, 0, 0, 0, 0])]),
        (6121, &[(0, [0, 192, 254, 32, 504, 0, 37, 0, 0])]),
    ),
    (
        PACKET,
        (0, &[(0, [4, 0, 9, 0, 0, 0, 0, 0, 0])]),
        (0, &[(0, [0, 192, 2866, 0, 2, 0, 0, 0, 0])]),
    ),
    (
        NEXT_PACKET,
        (0, &[(0, [4, 0, 9, 0, 0, 0, 0, 0, 0])]),
        (0, &[(0, [0, 192, 2866, 0, 2, 0, 0, 0, 0])]),
    ),
    (
        GOODBYE,
        (
            2,
            &[
                (0, [4, 0, 0, 0, 4, 0, 0, 0, 0]),
                (8, [3, 0, 0, 0, 4, 0, 0, 0, 0]),
            ],
        ),
        (
            2293,
            &[
                (0, [0, 192, 254, 32, 507, 0, 33, 0, 0]),
                (8, [0, 192, 0, 0, 509, 32, 34, 1, 0]),
                (12, [0, 1, 0, 0, 0, 0, 0, 0, 0]),
            ],
        ),
    ),
    (
        APPLICATION,
        (
            2,
            &[
                (0, [4, 0, 0, 0, 4, 0, 0, 0, 0]),
                (8, [3, 0, 0, 0, 12, 0, 0, 0, 0]),
            ],
        ),
        (
            4395,
            &[
                (0, [0, 192, 254, 32, 505, 0, 33, 0, 0]),
                (8, [0, 192, 0, 0, 507, 0, 5, 1, 0]),
                (12, [0, 1, 0, 0, 0, 0, 0, 0, 0]),
                (16, [0, 1, 0, 0, 0, 0, 0, 0, 0]),
                (20, [0, 2, 0, 0, 0, 0, 0, 0, 0]),
            ],
        ),
    ),
    (
        GOODBYE_WITH_REASON,
        (
            2,
            &[
                (0, [4, 0, 0, 0, 4, 0, 0, 0, 0]),
                (8, [3, 0, 0, 0, 8, 0, 0, 0, 0]),
            ],
        ),
        (
            3062,
            &[
                (0, [0, 192, 254, 32, 506, 0, 33, 0, 0]),
                (8, [0, 192, 0, 0, 508, 32, 32, 1, 253]),
                (12, [0, 1, 0, 0, 0, 0, 0, 0, 0]),
                (16, [0, 2, 0, 0, 0, 0, 0, 0, 0]),
            ],
        ),
    ),
    (
        GOODBYE_WITH_EMPTY_REASON,
        (
            2,
            &[
                (0, [4, 0, 0, 0, 4, 0, 0, 0, 0]),
                (8, [3, 0, 0, 0, 8, 0, 0, 0, 0]),
            ],
        ),
        (
            3063,
            &[
                (0, [0, 192, 254, 32, 506, 0, 33, 0, 0]),
                (8, [0, 192, 0, 0, 508, 32, 32, 0, 253]),
                (12, [0, 1, 0, 0, 0, 0, 0, 0, 0]),
                (16, [0, 2, 0, 0, 0, 0, 0, 0, 0]),
            ],
        ),
    ),
    (
        GOODBYE_OF_NOBODY,
        (
            2,
            &[
                (0, [4, 0, 0, 0, 4, 0, 0, 0, 0]),
                (8, [3, 0, 0, 0, 0, 0, 0, 0, 0]),
            ],
        ),
        (
            1273,
            &[
                (0, [0, 192, 254, 32, 508, 0, 33, 0, 0]),
                (8, [0, 192, 0, 0, 510, 32, 34, 0, 0]),
            ],
        ),
    ),
];

/// A datagram, and how many of its prefixes and of its changes are read as RTP, and how many have each fault,
/// from G1 to G5.
static HEADS: [(&[u8], [u32; 6], [u32; 6]); 17] = [
    (REPORT, [0, 9, 0, 0, 0, 0], [0, 2040, 0, 0, 0, 0]),
    (&NAMED, [0, 12, 0, 9, 0, 0], [246, 208, 36, 4610, 0, 0]),
    (
        NAMED_AND_OCTET,
        [0, 12, 0, 10, 0, 0],
        [246, 208, 36, 4865, 0, 0],
    ),
    (
        PADDED_REPORT,
        [0, 12, 0, 1, 0, 0],
        [0, 240, 12, 2562, 0, 246],
    ),
    (
        PADDED_GOODBYE,
        [0, 12, 0, 9, 0, 0],
        [246, 208, 36, 4610, 0, 0],
    ),
    (CUT_REPORT, [0, 8, 0, 0, 0, 0], [0, 1785, 0, 0, 0, 0]),
    (MISSING_BLOCK, [0, 9, 0, 0, 0, 0], [0, 2040, 0, 0, 0, 0]),
    (LONG_ITEM, [0, 12, 0, 9, 0, 0], [246, 208, 36, 4610, 0, 0]),
    (LONG_REASON, [0, 12, 0, 9, 0, 0], [246, 208, 36, 4610, 0, 0]),
    (
        SENDER_REPORT,
        [0, 12, 0, 17, 0, 0],
        [246, 176, 60, 6658, 0, 0],
    ),
    (PACKET, [1, 12, 0, 0, 0, 0], [2795, 240, 12, 10, 2, 1]),
    (NEXT_PACKET, [1, 12, 0, 0, 0, 0], [2795, 240, 12, 10, 2, 1]),
    (GOODBYE, [0, 12, 0, 5, 0, 0], [246, 224, 24, 3586, 0, 0]),
    (
        APPLICATION,
        [0, 12, 0, 13, 0, 0],
        [246, 192, 48, 5634, 0, 0],
    ),
    (
        GOODBYE_WITH_REASON,
        [0, 12, 0, 9, 0, 0],
        [246, 208, 36, 4610, 0, 0],
    ),
    (
        GOODBYE_WITH_EMPTY_REASON,
        [0, 12, 0, 9, 0, 0],
        [246, 208, 36, 4610, 0, 0],
    ),
    (
        GOODBYE_OF_NOBODY,
        [0, 12, 0, 1, 0, 0],
        [246, 240, 12, 2562, 0, 0],
    ),
];

/// What counts the results of datagrams.
trait Tally {
    /// Reads a datagram, and counts what comes of it.
    fn count(&mut self, octets: &[u8]);

    /// Counts each prefix of a datagram, the empty one and the whole among them.
    fn count_prefixes(&mut self, octets: &[u8]) {
        for size in 0..=octets.len() {
            self.count(octets.split_at(size).0);
        }
    }

    /// Counts each change of one octet.
    fn count_changes(&mut self, octets: &mut [u8]) {
        for place in 0..octets.len() {
            self.count_changes_at(octets, place);
        }
    }

    /// Counts each of the other 255 values of an octet.
    fn count_changes_at(&mut self, octets: &mut [u8], place: usize) {
        for mask in 1..=255u8 {
            change(octets, place, mask);
            self.count(octets);
            change(octets, place, mask);
        }
    }
}

/// Changes the bits of an octet that are set in the mask.
fn change(octets: &mut [u8], place: usize, mask: u8) {
    if let Some(octet) = octets.get_mut(place) {
        *octet ^= mask;
    }
}

/// How many datagrams are read as RTCP; and by the offset in words, how many have each fault there.
#[derive(Clone, Copy, Debug, PartialEq, Eq)]
struct CompoundTally {
    read: u32,
    faults: [[u32; 9]; 8],
}

impl CompoundTally {
    fn none() -> CompoundTally {
        CompoundTally {
            read: 0,
            faults: [[0; 9]; 8],
        }
    }

    /// These results.
    fn of((read, faults): Results) -> CompoundTally {
        let mut tally = CompoundTally::none();
        tally.read = read;
        for (place, counts) in faults {
            if let Some(row) = tally.faults.get_mut(place / 4) {
                *row = *counts;
            }
        }
        tally
    }
}

impl Tally for CompoundTally {
    fn count(&mut self, octets: &[u8]) {
        match Compound::read(octets) {
            Ok(_) => increment(Some(&mut self.read)),
            Err(WireFault { reason, place }) => {
                if let Some(row) = self.faults.get_mut(place / 4) {
                    increment(row.get_mut(reason as usize));
                }
            }
        }
    }
}

/// How many datagrams are read as RTP, and how many have each fault.
#[derive(Clone, Copy)]
struct HeadTally([u32; 6]);

impl Tally for HeadTally {
    fn count(&mut self, octets: &[u8]) {
        let result = match RtpHead::read(octets) {
            Ok(_) => 0,
            Err(fault) => fault as usize + 1,
        };
        increment(self.0.get_mut(result));
    }
}

/// Adds one to a count, where there is one.
fn increment(count: Option<&mut u32>) {
    if let Some(count) = count {
        *count = count.saturating_add(1);
    }
}

#[test]
fn compounds(rt: HostRuntime) -> Result<(), Fail> {
    for (octets, prefixes, changes) in &COMPOUNDS {
        let mut found = CompoundTally::none();
        found.count_prefixes(octets);
        assert_eq!(rt;
            found,
            CompoundTally::of(*prefixes),
            "prefixes of {octets:?}"
        );
        let mut found = CompoundTally::none();
        found.count_changes(&mut Vec::from_slice(rt.alloc(), octets)?);
        assert_eq!(rt; found, CompoundTally::of(*changes), "changes of {octets:?}");
    }
    Ok(())
}

#[test]
fn heads(rt: HostRuntime) -> Result<(), Fail> {
    for (octets, prefixes, changes) in &HEADS {
        let mut found = HeadTally([0; 6]);
        found.count_prefixes(octets);
        assert_eq!(rt; found.0, *prefixes, "prefixes of {octets:?}");
        let mut found = HeadTally([0; 6]);
        found.count_changes(&mut Vec::from_slice(rt.alloc(), octets)?);
        assert_eq!(rt; found.0, *changes, "changes of {octets:?}");
    }
    Ok(())
}
