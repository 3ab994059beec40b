//! Averages, intervals and schedules.

ghost use Rattle.std.specs.Prelude.{◌≤◌};

use rtcp_clock::draw;
use rtcp_timer::{Average, Load, Schedule, Verdict, interval};
use std::test::*;

/// The example at the head of `rtcp_timer`.
#[test]
fn example(rt: HostRuntime) {
    let mut schedule = Schedule::begin(2_500_000, 0);
    assert_eq!(rt; schedule.next(), 1_026_037);
    assert_eq!(rt; schedule.expire(1_026_037, 2_500_000, 0, 4), Verdict::Due);
    schedule.sent(1_026_037, 5_000_000, 0, 4);
    assert_eq!(rt; schedule.next(), 3_078_111);
}

#[test]
fn averages(rt: HostRuntime) {
    let mut average = Average::start(20);
    let before = average.value();
    average.add(8);
    assert_eq!(rt; (before, average.value()), (12_288, 12_096));

    let mut average = Average::start(28);
    let before = average.value();
    average.add(16);
    assert_eq!(rt; (before, average.value()), (14_336, 14_144));
}

/// An average with a part of an octet is rounded down.
#[test]
fn average_is_rounded_down(rt: HostRuntime) {
    let mut average = Average::start(0);
    average.add(20);
    average.add(290);
    assert_eq!(rt; average.value(), 12_108);
    average.add(8);
    assert_eq!(rt; average.value(), 11_927);
}

#[test]
fn intervals(rt: HostRuntime) {
    let quarters_of_400 = [
        interval_of_60(100, 300, 0, false),
        interval_of_60(100, 300, 12, true),
        interval_of_60(100, 300, 12, false),
        interval_of_60(100, 300, 16, false),
    ];
    assert_eq!(rt;
        quarters_of_400,
        [20_000_000, 12_000_000, 16_000_000, 15_000_000]
    );
    let quarters_of_800 = [
        interval_of_60(200, 600, 0, false),
        interval_of_60(200, 600, 12, true),
        interval_of_60(200, 600, 12, false),
        interval_of_60(200, 600, 16, true),
        interval_of_60(200, 600, 16, false),
    ];
    assert_eq!(rt;
        quarters_of_800,
        [10_000_000, 6_000_000, 8_000_000, 7_500_000, 7_500_000]
    );
    let most_for_senders = [
        interval_of_60(300, 100, 16, true),
        interval_of_60(300, 100, 16, false),
    ];
    assert_eq!(rt; most_for_senders, [5_333_334, 44_000_000]);
    assert_eq!(rt; draw(20_000_000, 0x8000_0000), 16_416_588);
}

/// A session of one has the minimum, which doubles after the first report.
#[test]
fn minimum(rt: HostRuntime) {
    let mut load = Load {
        members: 1,
        senders: 0,
        we_sent: false,
        initial: true,
        avg: 12_288,
        sender_bw: 100,
        receiver_bw: 300,
    };
    assert_eq!(rt; interval(&load), 2_500_000);
    load.initial = false;
    assert_eq!(rt; interval(&load), 5_000_000);
}

#[test]
fn starts(rt: HostRuntime) {
    let least = Schedule::begin(2_500_000, 0);
    assert_eq!(rt; (least.last(), least.next()), (0, 1_026_037));
    let greatest = Schedule::begin(2_500_000, 0xffff_ffff);
    assert_eq!(rt; greatest.next(), 3_078_111);
}

/// A session from its start to its second try.
#[test]
fn session(rt: HostRuntime) {
    let mut schedule = Schedule::begin(2_500_000, 0);
    assert_eq!(rt; schedule.next(), 1_026_037);
    let verdicts = [
        schedule.expire(1_026_036, 2_500_000, 0, 4),
        schedule.expire(1_026_037, 2_500_000, 0, 4),
    ];
    assert_eq!(rt; verdicts, [Verdict::Early, Verdict::Due]);
    schedule.sent(1_026_037, 5_000_000, 0, 4);
    assert_eq!(rt; schedule.next(), 3_078_111);

    schedule.departed(2_026_037, 3);
    let once = (schedule.last(), schedule.next());
    // the second call finds no fewer members
    schedule.departed(2_026_037, 3);
    let twice = (schedule.last(), schedule.next());
    assert_eq!(rt; [once, twice], [(1_276_037, 2_815_092); 2]);
    let verdict = schedule.expire(2_815_092, 5_000_000, 0, 3);
    assert_eq!(rt;
        (verdict, schedule.last(), schedule.next()),
        (Verdict::Later, 1_276_037, 3_328_111)
    );
}

/// Each departure scales what the one before left.
#[test]
fn two_departures(rt: HostRuntime) {
    let mut schedule = Schedule::begin(2_500_000, 0);
    schedule.sent(1_026_037, 5_000_000, 0, 4);
    schedule.departed(2_026_037, 3);
    schedule.departed(2_526_037, 2);
    assert_eq!(rt; (schedule.last(), schedule.next()), (1_692_704, 2_718_740));
}

/// A try and a report make the members at that moment those that a departure is held against.
#[test]
fn departures_since_a_draw(rt: HostRuntime) {
    let mut schedule = Schedule::begin(2_500_000, 0);
    schedule.sent(1_026_037, 5_000_000, 0, 4);
    schedule.departed(2_026_037, 3);
    assert_eq!(rt; schedule.expire(2_815_092, 5_000_000, 0, 5), Verdict::Later);
    schedule.departed(3_000_000, 4);
    assert_eq!(rt; (schedule.last(), schedule.next()), (1_620_830, 3_262_488));

    schedule.sent(3_500_000, 5_000_000, 0, 3);
    schedule.departed(4_000_000, 3);
    assert_eq!(rt; (schedule.last(), schedule.next()), (3_500_000, 5_552_074));
}

/// Scaled distances are rounded down.
#[test]
fn departure(rt: HostRuntime) {
    let mut schedule = Schedule::begin(2_500_000, 0);
    schedule.sent(8_000_001, 4_873_122, 0x8000_0000, 4);
    assert_eq!(rt; (schedule.last(), schedule.next()), (8_000_001, 12_000_003));
    schedule.departed(10_000_000, 3);
    assert_eq!(rt; (schedule.last(), schedule.next()), (8_500_001, 11_500_002));
}

/// A departure leaves an overdue transmission as it is.
#[test]
fn departure_when_overdue(rt: HostRuntime) {
    let mut schedule = Schedule::begin(2_500_000, 0);
    schedule.sent(8_000_001, 2_436_557, 0x8000_0000, 4);
    assert_eq!(rt; (schedule.last(), schedule.next()), (8_000_001, 9_999_999));
    schedule.departed(10_000_000, 3);
    assert_eq!(rt; (schedule.last(), schedule.next()), (8_500_001, 9_999_999));
}

/// A participant that leaves counts itself alone, whatever was known before.
#[test]
fn leave_into_backoff(rt: HostRuntime) {
    let mut schedule = Schedule::begin(2_500_000, 0);
    schedule.sent(5_000_000, 5_000_000, 0, 51);
    schedule.leave(10_000_000, 2_500_000, 0);
    let before = (schedule.last(), schedule.next());
    schedule.departed(10_000_001, 1);
    let after = (schedule.last(), schedule.next());
    assert_eq!(rt; [before, after], [(10_000_000, 11_026_037); 2]);
    let verdicts = [
        schedule.expire(11_026_036, 2_500_000, 0, 1),
        schedule.expire(11_026_037, 2_500_000, 0, 1),
    ];
    assert_eq!(rt; verdicts, [Verdict::Early, Verdict::Due]);
}

/// The interval of 60 members, so many of which send, where compounds have 100 octets on average.
fn interval_of_60(sender_bw: u32, receiver_bw: u32, senders: u32, we_sent: bool) -> u64
    requires some_for_senders { 16 ≤ sender_bw }
    requires some_for_others { 16 ≤ receiver_bw }
{
    interval(&Load {
        members: 60,
        senders,
        we_sent,
        initial: false,
        avg: 25_600,
        sender_bw,
        receiver_bw,
    })
}
