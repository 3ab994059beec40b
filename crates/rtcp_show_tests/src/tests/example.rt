//! The example that rtcp_show opens with.

use super::taken;
use rtcp_engine::Event;
use rtcp_show::push_lines;

#[test]
fn example(rt: HostRuntime) {
    let mut text = Vec::new(rt.alloc());
    let event = Event::ArriveRtcp {
        now: 250_000,
        peer: 0x7f00_0001 * 65_536 + 5_007,
        w: 0,
        bytes: &[0x80, 0xc9, 0x00, 0x01, 0x00, 0x00, 0x00, 0x07],
    };
    assert!(rt; push_lines(&mut text, 0, &event, &taken(None, None)).is_ok());
    assert_eq!(rt;
        text.as_slice(),
        b"0.250000 in 127.0.0.1:5007 ok RR(00000007,[],0)\n".as_slice()
    );
}
