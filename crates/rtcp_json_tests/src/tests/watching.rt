//! What a watcher writes of a session.

use super::{PEER, plain, quiet, same};
use rtcp_engine::{Answer, Event, Participant};
use rtcp_guarded::Untaken;
use rtcp_json::JsonWatcher;
use rtcp_members::SortedTable;
use rtcp_serve::Observer;
use rtcp_text::TextFault;
use std::alloc::Global;
use std::io;
use std::io::{ErrorKind, Write};
use std::test::Fail;

/// A participant, and what watches it.
#[derive(Drop)]
struct Watched<W> {
    participant: Participant<SortedTable>,
    watcher: JsonWatcher<W>,
}

impl<W: Write + Drop> Watched<W> {
    /// A session that begins, with the start word 0. Its first report is due at 1,026,037.
    fn new(alloc: Global, writer: W) -> Result<Watched<W>, Fail> {
        let Ok(participant) = Participant::new(plain(), 0) else {
            return Err("the configuration is refused")?;
        };
        Ok(Watched {
            participant,
            watcher: JsonWatcher::new(alloc, writer),
        })
    }

    fn watch(&mut self, event: &Event<'_>, answer: Answer) {
        let answer = answer.map_err(Untaken::Refused);
        self.watcher.told(event, &answer, &self.participant);
    }

    /// The named compound of source 7 comes.
    fn rtcp(&mut self, now: u64) {
        let answer = self.participant.arrive_rtcp(now, PEER, 0, &NAMED);
        let event = Event::ArriveRtcp {
            now,
            peer: PEER,
            w: 0,
            bytes: &NAMED,
        };
        self.watch(&event, answer);
    }

    fn tick(&mut self, now: u64) {
        let answer = self.participant.tick(now, 0, 0);
        self.watch(&Event::Tick { now, w1: 0, w2: 0 }, answer);
    }

    /// A tick of which only the watcher is told.
    fn quiet_tick(&mut self, now: u64) {
        let answer = Ok(quiet());
        let event = Event::Tick { now, w1: 0, w2: 0 };
        self.watcher.told(&event, &answer, &self.participant);
    }

    /// A packet of source 7, of 20 milliseconds, of which only the participant is told.
    fn rtp(&mut self, now: u64, number: u8) {
        let [_, _, high, low] = (u32::from(number) * 160).to_be_bytes();
        let bytes = [0x80, 0, 0, number, 0, 0, high, low, 0, 0, 0, 7];
        let _ = self.participant.arrive_rtp(now, PEER, 0, &bytes);
    }

    fn leave(&mut self, now: u64) {
        let answer = self.participant.leave(now, 0);
        self.watch(&Event::Leave { now, w: 0 }, answer);
    }
}

/// A receiver report and the CNAME of source 7.
const NAMED: [u8; 20] = [
    0x80, 0xc9, 0, 1, 0, 0, 0, 7, 0x81, 0xca, 0, 2, 0, 0, 0, 7, 1, 1, b'a', 0,
];

/// An empty report of source 7, and its BYE.
const GOODBYE: [u8; 16] = [0x80, 0xc9, 0, 1, 0, 0, 0, 7, 0x81, 0xcb, 0, 1, 0, 0, 0, 7];

const CAME: &str = "{\"moment\":0,\"event\":\"rtcp\",\"peer\":\"127.0.0.1:5007\",\"datagram\":\
    {\"packets\":[{\"type\":\"RR\",\"ssrc\":\"00000007\",\"blocks\":[],\"extension\":\"\"},\
    {\"type\":\"SDES\",\"chunks\":[{\"ssrc\":\"00000007\",\"items\":[{\"type\":\"cname\",\
    \"text\":\"a\"}]}]}]},\
    \"answer\":{\"members\":2,\"senders\":0,\"next\":1026037,\"out\":null,\"ssrc\":null}}\n";

const THERE: &str = "{\"moment\":1000000,\"members\":2,\"senders\":0,\"sources\":[\
    {\"ssrc\":\"00000007\",\"member\":true,\"sender\":false,\"left\":null,\
    \"packets\":null,\"lost\":null,\"jitter\":null,\"rate\":null}]}\n";

const REPORTED: &str = "{\"moment\":1026037,\"event\":\"tick\",\"peer\":null,\"datagram\":null,\
    \"answer\":{\"members\":2,\"senders\":0,\"next\":3078111,\"out\":{\"kind\":\"report\",\
    \"octets\":\"80c90001000000aa81ca0002000000aa01016100\"},\"ssrc\":null}}\n";

const UNSENT: &str = "{\"moment\":1026037,\"event\":\"unsent\",\"peer\":null,\"datagram\":null,\
    \"answer\":null}\n";

const LEFT: &str = "{\"moment\":2000000,\"event\":\"leave\",\"peer\":null,\"datagram\":null,\
    \"answer\":{\"members\":0,\"senders\":0,\"next\":null,\"out\":{\"kind\":\"bye\",\
    \"octets\":\"80c90001000000aa81ca0002000000aa0101610081cb0001000000aa\"},\"ssrc\":null}}\n";

const NOBODY: &str = "{\"moment\":2000000,\"members\":0,\"senders\":0,\"sources\":[]}\n";

const REFUSED: &str = "{\"moment\":3000000,\"event\":\"tick\",\"peer\":null,\"datagram\":null,\
    \"answer\":{\"refused\":\"E1 Left\"}}\n";

/// A member comes, and a report is not sent. Then the participant leaves, and its BYE is sent. Once a second comes who
/// is there, unless that is as before.
#[test]
fn session(rt: HostRuntime) -> Result<(), Fail> {
    let mut watched = Watched::new(rt.alloc(), Vec::new(rt.alloc()))?;
    watched.rtcp(0);
    watched.tick(1_000_000);
    watched.tick(1_026_037);
    watched.watcher.sent(true);
    watched.leave(2_000_000);
    watched.watcher.sent(false);
    watched.tick(3_000_000);
    assert_eq!(rt; watched.watcher.fault(), None);
    let text = watched.watcher.into_inner();
    let want = format!(in rt.alloc(); "{CAME}{THERE}{REPORTED}{UNSENT}{LEFT}{NOBODY}{REFUSED}")?;
    same(&rt, &text, want.as_bytes(), "session");
    Ok(())
}

const SOURCES: &str = "{\"moment\":4000000,\"members\":2,\"senders\":1,\"sources\":[\
    {\"ssrc\":\"00000007\",\"member\":true,\"sender\":true,\"left\":null,\
    \"packets\":2,\"lost\":1,\"jitter\":1,\"rate\":8000}]}\n\
    {\"moment\":6000000,\"members\":1,\"senders\":0,\"sources\":[\
    {\"ssrc\":\"00000007\",\"member\":false,\"sender\":false,\"left\":5100000,\
    \"packets\":2,\"lost\":1,\"jitter\":1,\"rate\":8000}]}\n";

/// Of packets 1, 2 and 4 of a source the first is not counted, 3 is lost, and 4 is 16 units late, of which jitter takes
/// a sixteenth. Nothing is written where all is as before, nor twice in a second.
#[test]
fn sources(rt: HostRuntime) -> Result<(), Fail> {
    let mut watched = Watched::new(rt.alloc(), Vec::new(rt.alloc()))?;
    let _ = watched.participant.arrive_rtcp(100_000, PEER, 0, &NAMED);
    watched.rtp(3_100_000, 1);
    watched.rtp(3_120_000, 2);
    watched.rtp(3_162_000, 4);
    watched.quiet_tick(4_000_000);
    watched.quiet_tick(5_000_000);
    let _ = watched
        .participant
        .arrive_rtcp(5_100_000, PEER, 0, &GOODBYE);
    watched.quiet_tick(5_200_000);
    watched.quiet_tick(6_000_000);
    assert_eq!(rt; watched.watcher.fault(), None);
    let text = watched.watcher.into_inner();
    same(&rt, &text, SOURCES.as_bytes(), "sources");
    Ok(())
}

/// Keeps what is written, but for one write that fails.
#[derive(Drop)]
struct Stumbling {
    text: Vec<u8>,
    /// How many writes come before it.
    before: u32,
    has_failed: bool,
}

impl Write for Stumbling {
    fn write(&mut self, buf: &[u8]) -> io::Result<usize> {
        if self.before == 0 && !self.has_failed {
            self.has_failed = true;
            return Err(io::Error::from(ErrorKind::Other));
        }
        self.before = self.before.saturating_sub(1);
        match self.text.extend_from_slice(buf) {
            Ok(()) => Ok(buf.len()),
            Err(_) => Err(io::Error::from(ErrorKind::OutOfMemory)),
        }
    }

    fn flush(&mut self) -> io::Result<()> {
        Ok(())
    }
}

/// The second line is not written, and none after it, though its writer could take them. The session goes on.
#[test]
fn a_write_fails(rt: HostRuntime) -> Result<(), Fail> {
    let writer = Stumbling {
        text: Vec::new(rt.alloc()),
        before: 1,
        has_failed: false,
    };
    let mut watched = Watched::new(rt.alloc(), writer)?;
    watched.rtcp(0);
    assert_eq!(rt; watched.watcher.fault(), None);
    watched.tick(1_026_037);
    assert_eq!(rt; watched.watcher.fault(), Some(TextFault::Write));
    watched.watcher.sent(true);
    watched.leave(2_000_000);
    assert_eq!(rt; watched.watcher.fault(), Some(TextFault::Write));
    assert_eq!(rt; watched.participant.members(), 0);
    let text = watched.watcher.into_inner().text;
    same(&rt, &text, CAME.as_bytes(), "one line");
    Ok(())
}
