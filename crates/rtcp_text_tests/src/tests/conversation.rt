//! The beginning of the session in samples/, with most of its ticks and RTP packets left out. The answers are
//! those of the model in compare/.

use super::sessions::{ended, ends_well, plain};
use arrayvec::ArrayVec;
use rtcp_engine::{Config, Item};
use std::test::Fail;

/// The participant of `--ssrc 4a616c77 --cname jalwedd@example.com --tool jalwedd --note listening
/// --session-bps 128000 --ntp eead0eea00000000`.
fn listener() -> Result<Config, Fail> {
    let mut config = plain();
    config.ssrc = 0x4a61_6c77;
    config.cname.clear();
    config.cname.try_extend_from_slice(b"jalwedd@example.com")?;
    config.extras.try_push(item(6, b"jalwedd")?)?;
    config.extras.try_push(item(7, b"listening")?)?;
    config.sender_bw = 200;
    config.receiver_bw = 600;
    config.ntp_base = 0xeead_0eea_0000_0000;
    Ok(config)
}

fn item(kind: u8, octets: &[u8]) -> Result<Item, Fail> {
    let mut text = ArrayVec::new();
    text.try_extend_from_slice(octets)?;
    Ok(Item { kind, text })
}

const LINES: &[u8] = b"\
    tick 0 a26ee930 5a0139bb\n\
    rtp 154765 1 00000000 80880663b462e5b476bdc505\n\
    rtp 159546 1 00000000 8080645e64ec2c8f4e1c8dc2\n\
    rtcp 228480 1 00000000 80c800065efa318eeead0eea08b43958772855e3000000000000000081ca00065efa318e010e66664\
    06578616d706c652e6f726700000000\n\
    rtp 229057 1 00000000 800002ad772855e35efa318e\n\
    rtp 282823 1 00000000 80080664b462e9b476bdc505\n\
    rtp 287567 1 00000000 8000645f64ec308f4e1c8dc2\n\
    rtp 360129 1 00000000 800002ae772859e35efa318e\n\
    tick 1020000 422a21a6 8ecbfa1b\n\
    tick 1040000 76470fcc 50ab4415\n\
    rtcp 1239187 1 00000000 82c8001276bdc505eead0eeb0b71758eb46307970000000a000028004e1c8dc200ffffff00006466\
    0000000000000000000000005efa318e00000000000002b40000000c0eea08b40001028381ca000d76bdc505011175736572315f\
    6578616d706c652e6e65740208537065616b65723106094753747265616d6572070568616c6c3100\n\
    rtcp 1239431 1 00000000 83c900138a4555764e1c8dc200ffffff000064660000000000000000000000005efa318e00000000\
    000002b40000000c0eea08b40001026e76bdc50500ffffff0000066b00000000000000000000000081ca000d8a45557601117573\
    6572335f6578616d706c652e6e65740208537065616b65723306094753747265616d6572070568616c6c3300\n\
    rtcp 1432156 1 00000000 83c90013f4351fbc4e1c8dc200ffffff000064670000000000000000000000005efa318e00000000\
    000002b6000000100eea08b4000133ef76bdc50500ffffff0000066c000000000eeb0b710000313681ca000df4351fbc01117573\
    6572325f6578616d706c652e6e65740208537065616b65723206094753747265616d6572070568616c6c3200\n\
    tick 1960000 ed76d0d8 1fe5fece\n\
    tick 1980000 7183c011 ae2ed64a\n\
    rtcp 3039514 1 00000000 82c800124e1c8dc2eead0eecd7a775fb64ec867a00000018000060005efa318e00000000000002c2\
    000000190eea08b40002cecc76bdc50500ffffff00000679000000000eeb0b710001cc1481ca000d4e1c8dc2011175736572305f\
    6578616d706c652e6e65740208537065616b65723006094753747265616d6572070568616c6c3000\n\
    tick 6820000 8a8245b9 a93f7d17\n\
    tick 6840000 d27f2431 45575843\n\
    tick 9860000 07bdec01 ea7daea5\n\
    tick 9880000 2e81de4f 4627fa54\n\
    tick 9900000 7ac7536d 25488b46\n";

const ANSWERS: &str = "\
    start members=1 senders=0 next=1026037\n\
    ok members=1 senders=0 next=1026037 out=-\n\
    ok members=1 senders=0 next=1026037 out=-\n\
    ok members=1 senders=0 next=1026037 out=-\n\
    ok members=2 senders=0 next=1026037 out=-\n\
    ok members=2 senders=0 next=1026037 out=-\n\
    ok members=3 senders=1 next=1026037 out=-\n\
    ok members=4 senders=2 next=1026037 out=-\n\
    ok members=4 senders=3 next=1026037 out=-\n\
    ok members=4 senders=3 next=1026037 out=-\n\
    ok members=4 senders=3 next=1974140 out=-\n\
    ok members=4 senders=3 next=1974140 out=-\n\
    ok members=5 senders=3 next=1974140 out=-\n\
    ok members=6 senders=3 next=1974140 out=-\n\
    ok members=6 senders=3 next=1974140 out=-\n\
    ok members=6 senders=3 next=6824544 out=report:83c900134a616c774e1c8dc2000000000000645f000000000\
    0000000000000005efa318e00000000000002ae000000000eea08b40001c06376bdc5050000000000000664000000000\
    eeb0b710000bda581ca00074a616c7701136a616c77656464406578616d706c652e636f6d000000\n\
    ok members=6 senders=3 next=6824544 out=-\n\
    ok members=6 senders=3 next=6824544 out=-\n\
    ok members=6 senders=3 next=7406719 out=-\n\
    ok members=6 senders=3 next=15671391 out=report:80c900014a616c7781ca00074a616c7701136a616c776564\
    64406578616d706c652e636f6d000000\n\
    ok members=6 senders=3 next=15671391 out=-\n\
    ok members=6 senders=3 next=15671391 out=-\n";

#[test]
fn beginning(rt: HostRuntime) -> Result<(), Fail> {
    let ended = ended(rt.alloc(), listener()?, LINES, 2);
    ends_well(&rt, ended, ANSWERS);
    Ok(())
}
