//! The host's loop of the crate's front page.

use super::*;

/// Two sockets, a clock and random words, in memory.
#[derive(Drop)]
struct Host<'a> {
    now: u64,
    rtcp: Option<&'a [u8]>,
    rtp: Option<&'a [u8]>,
    sent: ArrayVec<usize, 4>,
}

impl<'a> Host<'a> {
    /// The moment, 20 milliseconds after the one before.
    fn now(&mut self) -> u64 {
        self.now = self.now.saturating_add(20_000);
        self.now
    }

    /// The next RTCP datagram, and its peer.
    fn rtcp(&mut self) -> Option<(u64, &'a [u8])> {
        self.rtcp.take().map(|datagram| (1, datagram))
    }

    /// The next RTP datagram, and its peer.
    fn rtp(&mut self) -> Option<(u64, &'a [u8])> {
        self.rtp.take().map(|datagram| (1, datagram))
    }

    /// A random word.
    fn word(&mut self) -> u32 {
        1 << 31
    }

    /// Sends the compound of an answer, if it has one, to the other participants.
    fn send(&mut self, answer: Answer) {
        if let Ok(Step { out: Some(out), .. }) = answer {
            let _ = self.sent.try_push(out.bytes.len());
        }
    }
}

fn serve<T: MemberTable>(host: &mut Host<'_>, participant: &mut Participant<T>, turns: u32) {
    for _ in 0..turns {
        let now = host.now();
        if let Some((peer, datagram)) = host.rtcp() {
            let answer = participant.arrive_rtcp(now, peer, host.word(), datagram);
            host.send(answer);
        }
        if let Some((peer, datagram)) = host.rtp() {
            let answer = participant.arrive_rtp(now, peer, host.word(), datagram);
            host.send(answer);
        }
        if participant.next().is_some_and(|next| next <= now) {
            let answer = participant.tick(now, host.word(), host.word());
            host.send(answer);
        }
    }
}

/// A report of a source comes in the first turn, and a packet of another. Then the participant reports once
/// in the first five seconds, without a block.
#[test]
fn front_page(rt: HostRuntime) {
    let named = [
        0x80, 0xc9, 0x00, 0x01, 0x00, 0x00, 0x00, 0x07, 0x81, 0xca, 0x00, 0x02, 0x00, 0x00, 0x00,
        0x07, 0x01, 0x01, 0x61, 0x00,
    ];
    let packet = [0x80, 0, 0, 1, 0, 0, 0, 0, 0, 0, 0, 9];
    let mut host = Host {
        now: 0,
        rtcp: Some(&named),
        rtp: Some(&packet),
        sent: ArrayVec::new(),
    };
    let mut session = Session::<ListTable>::usual(&rt);
    serve(&mut host, &mut session.participant, 250);
    assert!(&rt; host.sent.as_slice() == [20].as_slice());
    assert_eq!(&rt; session.participant.members(), 2);
    assert_eq!(&rt; session.participant.senders(), 0);
}
