//! Configurations that are refused, and in which order, and some that are not.

use super::*;
use crate::begin::{jalwedd_free, jalwedd_new};

/// A configuration that differs from `CONFIG` in these.
#[derive(Clone, Copy)]
struct Given {
    start: u64,
    capacity: u32,
    limit: u32,
    receiver_bw: u32,
    rate: u32,
    clocks: Clocks<'static>,
}

impl Given {
    fn config(&self) -> Config {
        Config {
            start: self.start,
            capacity: self.capacity,
            limit: self.limit,
            receiver_bw: self.receiver_bw,
            rate: self.rate,
            clock_count: self.clocks.count,
            clocks: self.clocks.room(),
            ..CONFIG
        }
    }
}

const USUAL: Given = Given {
    start: 0,
    capacity: 1_024,
    limit: 1_472,
    receiver_bw: 300,
    rate: 8_000,
    clocks: NO_CLOCKS,
};

/// A configuration, its CNAME and its items, and the status.
type Row = (Given, &'static [u8], &'static [Item], u32);

const ITEM: Item = Item {
    kind: 8,
    size: 255,
    text: [b'n'; 255],
};

/// Of a type that there is not.
const STRANGE: Item = Item { kind: 9, ..ITEM };

/// The first start that is too late: 2^63.
const LATE: Given = Given {
    start: 9_223_372_036_854_775_808,
    ..USUAL
};

const WITHOUT_RATE: Given = Given { rate: 0, ..USUAL };

const ODD: Given = Given {
    limit: 578,
    ..USUAL
};

const SEVENTEEN: Given = Given {
    clocks: SEVENTEEN_CLOCKS,
    ..USUAL
};

const STRANGE_TYPE: Given = Given {
    clocks: STRANGE_CLOCK,
    ..USUAL
};

/// The last payload type that is an octet, at the highest rate, sixteen times.
const LAST: Given = Given {
    clocks: Clocks {
        count: 16,
        given: &[Clock {
            payload_type: 255,
            rate: 1_048_576,
        }; 16],
    },
    ..USUAL
};

/// A clock that is too fast by one unit a second.
const FAST: Given = Given {
    clocks: Clocks {
        count: 1,
        given: &[Clock {
            payload_type: 96,
            rate: 1_048_577,
        }],
    },
    ..USUAL
};

/// A start of 2^63 or later is refused after all else that is.
static ROWS: [Row; 21] = [
    (WITHOUT_RATE, b"", &[STRANGE], 11),
    (USUAL, &[b'a'; 256], &[ITEM; 8], 11),
    (SEVENTEEN, &[b'a'; 256], &[], 11),
    (SEVENTEEN, b"a", &[ITEM; 8], 16),
    (SEVENTEEN, b"", &[], 15),
    (STRANGE_TYPE, b"", &[], 15),
    (FAST, b"", &[], 11),
    (LATE, b"", &[], 11),
    (
        Given {
            capacity: 1_025,
            ..ODD
        },
        b"a",
        &[],
        12,
    ),
    (ODD, b"a", &[], 13),
    (
        Given {
            receiver_bw: 15,
            ..USUAL
        },
        b"a",
        &[],
        14,
    ),
    (WITHOUT_RATE, b"a", &[], 15),
    (Given { rate: 0, ..LATE }, b"a", &[], 15),
    (FAST, b"a", &[STRANGE], 15),
    (USUAL, b"a", &[STRANGE], 16),
    (USUAL, b"a", &[ITEM; 8], 16),
    (LATE, b"a", &[], 17),
    (
        Given {
            start: u64::MAX,
            ..USUAL
        },
        b"a",
        &[],
        17,
    ),
    (LAST, b"a", &[], 0),
    (USUAL, &[b'a'; 255], &[ITEM; 7], 0),
    (
        Given {
            start: LATEST,
            ..USUAL
        },
        b"a",
        &[],
        0,
    ),
];

/// One that is refused leaves the handle empty, and tells a blank step.
#[test]
fn configurations(rt: HostRuntime) {
    let alloc = rt.alloc();
    for (number, (given, cname, items, wanted)) in ROWS.iter().enumerate() {
        let config = given.config();
        let (mut handle, mut step) = (Handle::empty(alloc), HostStep { next: 99, ..BLANK });
        let status = jalwedd_new(alloc, &mut handle, &config, cname, items, 0, &mut step);
        let freed = jalwedd_free(alloc, &mut handle);
        assert_eq!(rt; status, *wanted, "row {number}");
        let is_taken = status == 0;
        assert!(rt;
            (freed == 20, step == BLANK) == (!is_taken, !is_taken),
            "row {number}"
        );
        assert!(rt; (freed == 0) == is_taken, "row {number}");
    }
}
