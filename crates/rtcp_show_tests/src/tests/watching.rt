//! What a printer and its watcher write of a session.

use super::{PEER, config, named, same, taken};
use rtcp_engine::{Answer, Event, Participant};
use rtcp_guarded::Untaken;
use rtcp_members::SortedTable;
use rtcp_serve::Observer;
use rtcp_show::{Printer, Times, Watcher, Wording};
use rtcp_text::TextFault;
use std::alloc::Global;
use std::io;
use std::io::{ErrorKind, Write};
use std::net::{Ipv4Addr, SocketAddrV4};
use std::test::Fail;

/// A participant, and what writes its lines.
#[derive(Drop)]
struct Printed<W> {
    participant: Participant<SortedTable>,
    printer: Printer<W>,
    /// How many events were not written.
    unwritten: u32,
}

impl<W: Write + Drop> Printed<W> {
    /// A session that begins, with the start word 0. Its first report is due at 1,026,037.
    fn new(alloc: Global, writer: W) -> Result<Printed<W>, Fail> {
        let to = SocketAddrV4::new(Ipv4Addr::LOCALHOST, 5_007);
        let config = config();
        let printer = Printer::new(alloc, config.ntp_base, to, writer);
        let Ok(participant) = Participant::new(config, 0) else {
            return Err("the configuration is refused")?;
        };
        Ok(Printed {
            participant,
            printer,
            unwritten: 0,
        })
    }

    fn print(&mut self, event: &Event<'_>, answer: Answer) {
        let answer = answer.map_err(Untaken::Refused);
        if self
            .printer
            .print(event, &answer, &self.participant)
            .is_err()
        {
            self.unwritten = self.unwritten.saturating_add(1);
        }
    }

    fn rtcp(&mut self, now: u64, bytes: &[u8]) {
        let answer = self.participant.arrive_rtcp(now, PEER, 0, bytes);
        let event = Event::ArriveRtcp {
            now,
            peer: PEER,
            w: 0,
            bytes,
        };
        self.print(&event, answer);
    }

    fn tick(&mut self, now: u64) {
        let answer = self.participant.tick(now, 0, 0);
        self.print(&Event::Tick { now, w1: 0, w2: 0 }, answer);
    }

    /// A packet of source 7, of 20 milliseconds.
    fn rtp(&mut self, now: u64, number: u8) {
        self.rtp_of(now, 7, number);
    }

    /// A packet of a source below 256, of 20 milliseconds.
    fn rtp_of(&mut self, now: u64, source: u8, number: u8) {
        let timestamp = u32::from(number) * 160;
        let [_, _, high, low] = timestamp.to_be_bytes();
        let bytes = [0x80, 0, 0, number, 0, 0, high, low, 0, 0, 0, source];
        let answer = self.participant.arrive_rtp(now, PEER, 0, &bytes);
        let event = Event::ArriveRtp {
            now,
            peer: PEER,
            w: 0,
            bytes: &bytes,
        };
        self.print(&event, answer);
    }

    fn leave(&mut self, now: u64) {
        let answer = self.participant.leave(now, 0);
        self.print(&Event::Leave { now, w: 0 }, answer);
    }

    fn forget(&mut self, now: u64, ssrc: u32) {
        let answer = self.participant.forget(now, ssrc);
        self.print(&Event::Forget { now, ssrc }, answer);
    }
}

/// A report of source 7 with a block about the participant: it names a sender report of the moment 2 seconds, and half
/// a second since.
const BLOCK: [u8; 32] = [
    0x81, 0xc9, 0, 7, 0, 0, 0, 7, 0, 0, 0, 0xaa, 0, 0, 0, 0, 0, 0, 0, 0, 0, 0, 0, 0, 0, 2, 0, 0, 0,
    0, 0x80, 0,
];

/// An empty report of source 7, and its BYE.
const GOODBYE: [u8; 16] = [0x80, 0xc9, 0, 1, 0, 0, 0, 7, 0x81, 0xcb, 0, 1, 0, 0, 0, 7];

const SESSION: &str = "\
0.100000 in 127.0.0.1:5007 ok RR(00000007,[],0) SDES([00000007{1=61}])
0.100000 joined=00000007
1.000000 members=2 senders=0
source=00000007 sends=no cname=\"a\" peer=127.0.0.1:5007
2.000000 out 127.0.0.1:5007 ok RR(000000aa,[],0) SDES([000000aa{1=61}])
3.000000 in 127.0.0.1:5007 ok RR(00000007,[000000aa/0/0/0/0/00020000/00008000],0)
3.000000 members=2 senders=0
source=00000007 sends=no round-trip=500.000ms cname=\"a\" peer=127.0.0.1:5007
3.120000 began-sending=00000007
4.000000 members=2 senders=1
source=00000007 sends=yes packets=2 lost=1 jitter=0.125ms round-trip=500.000ms cname=\"a\" \
total-loss=33.3% peer=127.0.0.1:5007
4.400000 out 127.0.0.1:5007 ok \
RR(000000aa,[00000007/85/1/4/1/00000000/00000000],0) SDES([000000aa{1=61}])
4.500000 in 127.0.0.1:5007 ok RR(00000007,[],0) BYE([00000007],-)
4.500000 stopped-sending=00000007
4.500000 bye=00000007
5.000000 members=1 senders=0
source=00000007 sends=no left=4.500000 packets=2 lost=1 jitter=0.125ms round-trip=500.000ms cname=\"a\" \
total-loss=33.3% interval-loss=33.2% pace=0.0/s peer=127.0.0.1:5007
5.500000 in 127.0.0.1:5007 refused E5 Wire: F1 Short at 0
6.000000 out 127.0.0.1:5007 ok RR(000000aa,[],0) SDES([000000aa{1=61}]) BYE([000000aa],-)
6.000000 members=0 senders=0
";

/// A source reports, sends, loses a packet and leaves, and the participant leaves too.
fn play(printed: &mut Printed<Vec<u8>>) {
    printed.rtcp(100_000, &named(7));
    printed.tick(999_999);
    printed.tick(1_000_000);
    printed.tick(2_000_000);
    printed.tick(2_999_999);
    printed.rtcp(3_000_000, &BLOCK);
    printed.rtp(3_100_000, 1);
    printed.rtp(3_120_000, 2);
    printed.rtp(3_162_000, 4);
    printed.tick(4_000_000);
    printed.tick(4_400_000);
    printed.rtcp(4_500_000, &GOODBYE);
    printed.tick(5_000_000);
    printed.rtcp(5_500_000, &[]);
    printed.leave(6_000_000);
}

/// Each event has its lines, and each second its rows, unless they are as they were.
#[test]
fn session(rt: HostRuntime) -> Result<(), Fail> {
    let mut printed = Printed::new(rt.alloc(), Vec::new(rt.alloc()))?;
    play(&mut printed);
    assert_eq!(rt; printed.unwritten, 0);
    let text = printed.printer.into_inner();
    assert_eq!(rt; text.as_slice(), SESSION.as_bytes());
    Ok(())
}

/// A session that begins, with so many short rows at most.
fn in_short(alloc: Global, most: u32) -> Result<Printed<Vec<u8>>, Fail> {
    let Printed {
        participant,
        printer,
        unwritten,
    } = Printed::new(alloc, Vec::new(alloc))?;
    Ok(Printed {
        participant,
        printer: printer.with_rows(most),
        unwritten,
    })
}

/// The row of whom left has 118 octets before it is cut: 97 of them stay.
const SHORT: &str = "\
0.100000 in 127.0.0.1:5007 ok RR(00000007,[],0) SDES([00000007{1=61}])
0.100000 joined=00000007
1.000000 members=2 senders=0
00000007 member peer=127.0.0.1:5007 cname=\"a\"
2.000000 out 127.0.0.1:5007 ok RR(000000aa,[],0) SDES([000000aa{1=61}])
3.000000 in 127.0.0.1:5007 ok RR(00000007,[000000aa/0/0/0/0/00020000/00008000],0)
3.000000 members=2 senders=0
00000007 member round-trip=500.000ms peer=127.0.0.1:5007 cname=\"a\"
3.120000 began-sending=00000007
4.000000 members=2 senders=1
00000007 sends total-loss=33.3% jitter=0.125ms round-trip=500.000ms peer=127.0.0.1:5007 cname=\"a\"
4.400000 out 127.0.0.1:5007 ok \
RR(000000aa,[00000007/85/1/4/1/00000000/00000000],0) SDES([000000aa{1=61}])
4.500000 in 127.0.0.1:5007 ok RR(00000007,[],0) BYE([00000007],-)
4.500000 stopped-sending=00000007
4.500000 bye=00000007
5.000000 members=1 senders=0
00000007 left loss=33.2% total-loss=33.3% jitter=0.125ms round-trip=500.000ms pace=0.0/s peer=127...
5.500000 in 127.0.0.1:5007 refused E5 Wire: F1 Short at 0
6.000000 out 127.0.0.1:5007 ok RR(000000aa,[],0) SDES([000000aa{1=61}]) BYE([000000aa],-)
6.000000 members=0 senders=0
";

/// The same session in short rows, of which all are shown.
#[test]
fn short_rows(rt: HostRuntime) -> Result<(), Fail> {
    let mut printed = in_short(rt.alloc(), 1)?;
    play(&mut printed);
    assert_eq!(rt; printed.unwritten, 0);
    let text = printed.printer.into_inner();
    assert_eq!(rt; text.as_slice(), SHORT.as_bytes());
    Ok(())
}

/// The end of what is written of ten sources, of which 9 lost a packet of three.
const WORST: &str = "\
10.000000 members=11 senders=1 shown=2
00000001 member peer=127.0.0.1:5007 cname=\"a\"
00000009 sends loss=33.2% total-loss=33.3% jitter=0.125ms peer=127.0.0.1:5007 cname=\"a\"
";

/// Of many sources the worst are shown, and of those that lost as much the ones of lower SSRCs.
#[test]
fn worst_rows(rt: HostRuntime) -> Result<(), Fail> {
    let mut printed = in_short(rt.alloc(), 2)?;
    for source in 1..11 {
        printed.rtcp(100_000, &named(source));
    }
    printed.tick(2_000_000);
    printed.rtp_of(9_900_000, 9, 1);
    printed.rtp_of(9_920_000, 9, 2);
    printed.rtp_of(9_962_000, 9, 4);
    printed.tick(10_000_000);
    let text = printed.printer.into_inner();
    assert!(rt; text.ends_with(WORST.as_bytes()));
    Ok(())
}

/// The end of what is written of 60 sources, the last of which is 3c, and of a leave half a second later.
const LEFT: &str = "\
source=0000003c sends=no cname=\"a\" peer=127.0.0.1:5007
11.000000 members=1 senders=0
";

/// Whoever leaves among 60 members waits with its BYE. It lists nobody then, but nobody has timed out.
#[test]
fn leaves_many(rt: HostRuntime) -> Result<(), Fail> {
    let mut printed = Printed::new(rt.alloc(), Vec::new(rt.alloc()))?;
    for source in 1..61 {
        printed.rtcp(100_000, &named(source));
    }
    printed.tick(10_000_000);
    printed.leave(10_500_000);
    assert_eq!(rt; printed.participant.members(), 1);
    printed.tick(11_000_000);
    let text = printed.printer.into_inner();
    assert!(rt; text.ends_with(LEFT.as_bytes()));
    Ok(())
}

const FORGOTTEN: &str = "\
0.100000 in 127.0.0.1:5007 ok RR(00000007,[],0) SDES([00000007{1=61}])
0.100000 joined=00000007
1.000000 members=2 senders=0
source=00000007 sends=no cname=\"a\" peer=127.0.0.1:5007
2.000000 members=1 senders=0
";

/// A source that the host forgot has not timed out: it is not listed any more.
#[test]
fn forgotten(rt: HostRuntime) -> Result<(), Fail> {
    let mut printed = Printed::new(rt.alloc(), Vec::new(rt.alloc()))?;
    printed.rtcp(100_000, &named(7));
    printed.tick(1_000_000);
    printed.forget(1_000_001, 7);
    printed.forget(2_000_000, 7);
    let text = printed.printer.into_inner();
    same(&rt, &text, FORGOTTEN.as_bytes(), "forgotten");
    Ok(())
}

const PACED: &str = "\
0.960000 joined=00000007
0.960000 began-sending=00000007
1.000000 members=2 senders=1
source=00000007 sends=yes packets=2 lost=0 jitter=0.000ms total-loss=0.0% peer=127.0.0.1:5007
2.500000 out 127.0.0.1:5007 ok \
RR(000000aa,[00000007/0/0/6/0/00000000/00000000],0) SDES([000000aa{1=61}])
2.500000 members=2 senders=1
source=00000007 sends=yes packets=5 lost=0 jitter=0.000ms total-loss=0.0% interval-loss=0.0% pace=2.0/s \
peer=127.0.0.1:5007
";

/// Three packets in the second and a half since the sources were looked at before.
#[test]
fn paces(rt: HostRuntime) -> Result<(), Fail> {
    let mut printed = Printed::new(rt.alloc(), Vec::new(rt.alloc()))?;
    printed.rtp(940_000, 1);
    printed.rtp(960_000, 2);
    printed.rtp(980_000, 3);
    printed.tick(1_000_000);
    printed.rtp(1_000_000, 4);
    printed.rtp(1_020_000, 5);
    printed.rtp(1_040_000, 6);
    printed.tick(2_500_000);
    let text = printed.printer.into_inner();
    assert_eq!(rt; text.as_slice(), PACED.as_bytes());
    Ok(())
}

const PLAIN: &str = "\
0.100000 in 127.0.0.1:5007 ok RR ssrc=00000007 SDES ssrc=00000007 cname=\"a\"
0.100000 joined=00000007
2.000000 out 127.0.0.1:5007 ok RR ssrc=000000aa SDES ssrc=000000aa cname=\"a\"
2.000000 members=2 senders=0
source=00000007 sends=no cname=\"a\" peer=127.0.0.1:5007
3.000000 in 127.0.0.1:5007 ok RR ssrc=00000007 \
block about=000000aa loss=0.0% lost=0 highest=0 jitter=0.000ms lsr=2.000000s dlsr=0.500000s
3.000000 members=2 senders=0
source=00000007 sends=no round-trip=500.000ms cname=\"a\" peer=127.0.0.1:5007
3.500000 in 127.0.0.1:5007 refused E5 Wire: F1 Short at 0
";

/// In plain words what comes and what goes out is named. All else is as it was.
#[test]
fn plain(rt: HostRuntime) -> Result<(), Fail> {
    let Printed {
        participant,
        printer,
        unwritten,
    } = Printed::new(rt.alloc(), Vec::new(rt.alloc()))?;
    let mut printed = Printed {
        participant,
        printer: printer.with_wording(Wording::Plain(Some(8_000))),
        unwritten,
    };
    printed.rtcp(100_000, &named(7));
    printed.tick(2_000_000);
    printed.rtcp(3_000_000, &BLOCK);
    printed.rtcp(3_500_000, &[]);
    assert_eq!(rt; printed.unwritten, 0);
    let text = printed.printer.into_inner();
    assert_eq!(rt; text.as_slice(), PLAIN.as_bytes());
    Ok(())
}

/// What was written last is kept, though the writer keeps nothing.
#[test]
fn last_rows(rt: HostRuntime) -> Result<(), Fail> {
    let mut printed = Printed::new(rt.alloc(), io::sink())?;
    same(&rt, printed.printer.last_rows(), b"", "none yet");
    printed.rtcp(100_000, &named(7));
    printed.tick(1_000_000);
    printed.tick(2_000_000);
    let want = "members=2 senders=0\nsource=00000007 sends=no cname=\"a\" peer=127.0.0.1:5007\n";
    same(
        &rt,
        printed.printer.last_rows(),
        want.as_bytes(),
        "the last",
    );
    Ok(())
}

/// Half a second before a midnight: 45,000 days less one second after the era began, and half a second.
const BEFORE_MIDNIGHT: u64 = (45_000 * 86_400 - 1) << 32 | 1 << 31;

const MIDNIGHT: &str = "\
23:59:59.750000Z in 127.0.0.1:5007 ok RR(00000007,[],0) SDES([00000007{1=61}])
23:59:59.750000Z joined=00000007
00:00:00.500000Z members=2 senders=0
source=00000007 sends=no cname=\"a\" peer=127.0.0.1:5007
00:00:01.500000Z out 127.0.0.1:5007 ok RR(000000aa,[],0) SDES([000000aa{1=61}])
00:00:02.500000Z in 127.0.0.1:5007 ok RR(00000007,[],0) BYE([00000007],-)
00:00:02.500000Z bye=00000007
00:00:02.500000Z members=1 senders=0
source=00000007 sends=no left=00:00:02.500000Z cname=\"a\" peer=127.0.0.1:5007
00:00:02.750000Z unsent 127.0.0.1:5007
";

/// The time of day goes on across midnight, in each line that begins with a moment and where a source left.
#[test]
fn midnight(rt: HostRuntime) -> Result<(), Fail> {
    let to = SocketAddrV4::new(Ipv4Addr::LOCALHOST, 5_007);
    let printer = Printer::new(rt.alloc(), BEFORE_MIDNIGHT, to, Vec::new(rt.alloc()));
    let Ok(participant) = Participant::new(config(), 0) else {
        return Err("the configuration is refused")?;
    };
    let mut printed = Printed {
        participant,
        printer: printer.with_times(Times::OfDay),
        unwritten: 0,
    };
    printed.rtcp(250_000, &named(7));
    printed.tick(1_000_000);
    printed.tick(2_000_000);
    printed.rtcp(3_000_000, &GOODBYE);
    let written = printed.printer.print_unsent(3_250_000);
    assert!(rt; written.is_ok());
    assert_eq!(rt; printed.unwritten, 0);
    let text = printed.printer.into_inner();
    same(&rt, &text, MIDNIGHT.as_bytes(), "midnight");
    Ok(())
}

/// A send that fails is told, at the moment of the event before it; one that does not fail is not.
#[test]
fn unsent(rt: HostRuntime) -> Result<(), Fail> {
    let printed = Printed::new(rt.alloc(), Vec::new(rt.alloc()))?;
    let mut watcher = Watcher::new(printed.printer);
    let event = Event::Tick {
        now: 2_500_000,
        w1: 0,
        w2: 0,
    };
    watcher.told(&event, &taken(None, None), &printed.participant);
    watcher.sent(false);
    watcher.sent(true);
    let mut printer = watcher.into_printer();
    let written = printer.print_unsent(3_000_001);
    assert!(rt; written.is_ok());
    let text = printer.into_inner();
    let want =
        "2.500000 members=1 senders=0\n2.500000 unsent 127.0.0.1:5007\n3.000001 unsent 127.0.0.1:5007\n";
    same(&rt, &text, want.as_bytes(), "sends");
    Ok(())
}

/// Takes nothing: each write fails.
#[derive(Drop)]
struct Full;

impl Write for Full {
    fn write(&mut self, _buf: &[u8]) -> io::Result<usize> {
        Err(io::Error::from(ErrorKind::Other))
    }

    fn flush(&mut self) -> io::Result<()> {
        Ok(())
    }
}

/// The first fault of what an observer is told is kept.
#[test]
fn faults(rt: HostRuntime) -> Result<(), Fail> {
    let printed = Printed::new(rt.alloc(), Full)?;
    let mut watcher = Watcher::new(printed.printer);
    assert_eq!(rt; watcher.fault(), None);
    let event = Event::Tick {
        now: 500_000,
        w1: 0,
        w2: 0,
    };
    watcher.told(&event, &taken(None, None), &printed.participant);
    assert_eq!(rt; watcher.fault(), None);
    watcher.sent(true);
    assert_eq!(rt; watcher.fault(), Some(TextFault::Write));
    Ok(())
}

/// Where nothing can be written, the session goes on.
#[test]
fn unwritten(rt: HostRuntime) -> Result<(), Fail> {
    let mut printed = Printed::new(rt.alloc(), Full)?;
    printed.rtcp(100_000, &named(7));
    printed.tick(2_000_000);
    assert_eq!(rt; printed.participant.members(), 2);
    assert_eq!(rt; printed.unwritten, 2);
    Ok(())
}
