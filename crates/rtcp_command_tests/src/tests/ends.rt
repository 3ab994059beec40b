//! Statuses, fault lines and the line of the end.

use super::same;
use rtcp_command::RunFault;
use rtcp_command::ends::{conclude, end_line, watched};
use rtcp_engine::ConfigError;
use rtcp_serve::{Cause, End};
use std::alloc::AllocError;

/// An end with other numbers in each field.
const END: End = End {
    cause: Cause::Done,
    received: 412,
    refused: 7,
    sent: 12,
    send_failures: 1,
    recv_failures: 0,
    bye: true,
};

#[test]
fn lines(rt: HostRuntime) -> Result<(), AllocError> {
    let line = end_line(rt.alloc(), &END)?;
    let want = b"end Done received=412 refused=7 sent=12 send-failures=1 recv-failures=0 bye=yes\n";
    same(&rt, &line, want, "Done");
    let down = End {
        cause: Cause::LinkDown,
        received: 0,
        recv_failures: u64::MAX,
        bye: false,
        ..END
    };
    let line = end_line(rt.alloc(), &down)?;
    let want =
        b"end LinkDown received=0 refused=7 sent=12 send-failures=1 recv-failures=18446744073709551615 bye=no\n";
    same(&rt, &line, want, "LinkDown");
    let limit = End {
        cause: Cause::Limit,
        ..END
    };
    let line = end_line(rt.alloc(), &limit)?;
    assert!(rt; line.starts_with(b"end Limit received=412 "));
    Ok(())
}

#[test]
fn statuses(rt: HostRuntime) {
    for (cause, want) in [(Cause::Done, 0), (Cause::LinkDown, 1), (Cause::Limit, 0)] {
        let mut faults = Vec::new(rt.alloc());
        let status = conclude(&Ok(End { cause, ..END }), &mut faults);
        assert_eq!(rt; status, want);
        assert!(rt; faults.is_empty());
    }
    let rows = [
        (RunFault::Config(ConfigError::Cname), 2, "config C1 Cname\n"),
        (RunFault::Link, 1, "link\n"),
        (RunFault::Record, 1, "record\n"),
        (RunFault::NoRegularFile, 1, "record no regular file\n"),
        (RunFault::Write, 1, "write\n"),
        (RunFault::Memory, 1, "memory\n"),
    ];
    for (fault, want, line) in rows {
        let mut faults = Vec::new(rt.alloc());
        let status = conclude(&Err(fault), &mut faults);
        assert_eq!(rt; status, want, "{line}");
        same(&rt, &faults, line.as_bytes(), line);
    }
}

/// An alarm changes the status of what ended well alone.
#[test]
fn alarms(rt: HostRuntime) {
    for (is_raised, status, want) in [
        (false, 0, 0),
        (false, 1, 1),
        (true, 0, 3),
        (true, 1, 1),
        (true, 2, 2),
    ] {
        assert_eq!(rt; watched(is_raised, status), want);
    }
}
