//! Replays in JSON, over memory: the sessions of docs/FORMATS.md.

use super::{plain, same};
use rtcp_guarded_text::GuardLimits;
use rtcp_json::{replay_guarded_json, replay_json};
use rtcp_text::Counted;

/// A member comes, a report is sent, a datagram is refused, and the participant leaves.
#[test]
fn session(rt: HostRuntime) {
    let events = "rtcp 0 1 00000000 80c900010000000781ca00020000000701016100\n\
        tick 1026037 00000000 00000000\n\
        rtcp 1026037 1 00000000 -\n\
        leave 2000000 00000000\n\
        tick 3078111 00000000 00000000\n";
    let want = "{\"start\":{\"members\":1,\"senders\":0,\"next\":1026037}}\n\
        {\"members\":2,\"senders\":0,\"next\":1026037,\"out\":null,\"ssrc\":null}\n\
        {\"members\":2,\"senders\":0,\"next\":3078111,\"out\":{\"kind\":\"report\",\"octets\":\
        \"80c90001000000aa81ca0002000000aa01016100\"},\"ssrc\":null}\n\
        {\"refused\":\"E5 Wire\",\"fault\":\"F1 Short\",\"at\":0}\n\
        {\"members\":0,\"senders\":0,\"next\":null,\"out\":{\"kind\":\"bye\",\"octets\":\
        \"80c90001000000aa81ca0002000000aa0101610081cb0001000000aa\"},\"ssrc\":null}\n\
        {\"refused\":\"E1 Left\"}\n";
    let mut reader = Counted::new(events.as_bytes());
    let mut writer = Counted::new(Vec::new(rt.alloc()));
    let ended = replay_json(rt.alloc(), 5, &mut reader, &mut writer, plain(), 0);
    assert_eq!(rt; ended, Ok(()));
    same(&rt, &writer.into_inner(), want.as_bytes(), events);
}

/// The identifier changes; an RTP datagram and settings are refused.
#[test]
fn changes(rt: HostRuntime) {
    let events = "rtcp 0 7 000000bb 80c90001000000aa\n\
        rtcp 0 7 000000bb 80c90001000000aa\n\
        rtcp 0 7 000000cc 80c90001000000bb\n\
        rtp 0 7 00000000 80\n\
        configure 0 0 0 - - 1 0000000000000000\n";
    let want = "{\"start\":{\"members\":1,\"senders\":0,\"next\":1026037}}\n\
        {\"members\":1,\"senders\":0,\"next\":1026037,\"out\":null,\"ssrc\":\"000000bb\"}\n\
        {\"members\":1,\"senders\":0,\"next\":1026037,\"out\":null,\"ssrc\":null}\n\
        {\"refused\":\"E7 OwnSsrc\"}\n\
        {\"refused\":\"E6 Rtp\",\"fault\":\"G1 Short\"}\n\
        {\"refused\":\"E8 Settings\",\"fault\":\"C4 Bandwidth\"}\n";
    let mut reader = Counted::new(events.as_bytes());
    let mut writer = Counted::new(Vec::new(rt.alloc()));
    let ended = replay_json(rt.alloc(), 5, &mut reader, &mut writer, plain(), 0);
    assert_eq!(rt; ended, Ok(()));
    same(&rt, &writer.into_inner(), want.as_bytes(), events);
}

/// With a guard: a source that belongs to one origin is held back from another, and a second source of an origin that
/// may have one.
#[test]
fn guarded(rt: HostRuntime) {
    let events = "rtcp 0 65536 00000000 80c9000100000007\n\
        rtcp 0 131072 00000000 80c9000100000007\n\
        rtcp 0 65536 00000000 80c9000100000008\n\
        rtcp 0 65536 00000000 -\n";
    let want = "{\"start\":{\"members\":1,\"senders\":0,\"next\":1026037}}\n\
        {\"members\":1,\"senders\":0,\"next\":1026037,\"out\":null,\"ssrc\":null}\n\
        {\"refused\":\"H1 Stranger\"}\n\
        {\"refused\":\"H2 Crowd\"}\n\
        {\"refused\":\"E5 Wire\",\"fault\":\"F1 Short\",\"at\":0}\n";
    let limits = GuardLimits {
        names: 1,
        hold: 60_000_000,
    };
    let mut reader = Counted::new(events.as_bytes());
    let mut writer = Counted::new(Vec::new(rt.alloc()));
    let ended = replay_guarded_json(rt.alloc(), 4, &mut reader, &mut writer, plain(), 0, limits);
    assert_eq!(rt; ended, Ok(()));
    same(&rt, &writer.into_inner(), want.as_bytes(), events);
}
