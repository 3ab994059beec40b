//! Links over the loopback interface.

use arrayvec::ArrayVec;
use rand_core::{Rng, SeedableRng};
use rand_pcg::Pcg32;
use rtcp_engine::{Config, Participant};
use rtcp_members::SortedTable;
use rtcp_serve::{Cause, Link, Port, Received, serve};
use rtcp_udp::UdpLink;
use std::net::{Ipv4Addr, SocketAddrV4};
use std::process::Abort;

/// A wait that would be noticed, in microseconds.
const LONG: u64 = 20_000_000;

fn local(port: u16) -> SocketAddrV4 {
    SocketAddrV4::new(Ipv4Addr::LOCALHOST, port)
}

/// The named compound of a source below 256.
fn named(ssrc: u8) -> [u8; 20] {
    [
        0x80, 0xc9, 0x00, 0x01, 0x00, 0x00, 0x00, ssrc, 0x81, 0xca, 0x00, 0x02, 0x00, 0x00, 0x00,
        ssrc, 0x01, 0x01, 0x61, 0x00,
    ]
}

/// The participant of `--ssrc 000000aa --cname a`.
fn participant(rt: &impl Abort) -> Participant<SortedTable> {
    let mut cname = ArrayVec::new();
    cname.push(b'a');
    let config = Config {
        ssrc: 0xaa,
        cname,
        extras: ArrayVec::new(),
        capacity: 1_024,
        limit: 1_472,
        sender_bw: 100,
        receiver_bw: 300,
        rate: 8_000,
        clocks: ArrayVec::new(),
        ntp_base: 0,
    };
    match Participant::new(config, 0) {
        Ok(participant) => participant,
        Err(_) => panic!(rt; "the configuration is refused"),
    }
}

/// The word that the generator of this seed gives after so many others.
fn after(seed: u64, words: u32) -> u32 {
    let mut rng = Pcg32::seed_from_u64(seed);
    for _ in 0..words {
        let _ = rng.next_u32();
    }
    rng.next_u32()
}

/// A compound that one link sends comes to the port of RTCP of the other one, from 127.0.0.1 and that port of its own.
#[test]
fn loopback(rt: HostRuntime) {
    for port in [
        41_870, 42_970, 43_570, 44_170, 45_270, 46_370, 47_470, 48_570u16,
    ] {
        let alloc = rt.alloc();
        let here = UdpLink::bind(&rt, alloc, local(port), local(port + 1), local(port + 3));
        let there = UdpLink::bind(
            &rt,
            alloc,
            local(port + 2),
            local(port + 3),
            local(port + 1),
        );
        if let (Ok(mut here), Ok(mut there)) = (here, there) {
            assert!(rt; here.send(&named(7)).is_ok());
            let from = 0x7f00_0001 * 65_536 + u64::from(port) + 1;
            let mut buf = [0; 100];
            let received = there.recv(Port::Rtcp, &mut buf, 200_000);
            assert_eq!(rt; received, Received::Got(20, from));
            assert!(rt; here.send(&named(7)).is_ok());
            let (mut heard, mut rng) = (participant(&rt), Pcg32::seed_from_u64(1));
            let mut room = [0; 65_535];
            let end = serve(&mut there, &mut heard, &mut rng, 5, &mut room);
            assert_eq!(rt; end.cause, Cause::Done);
            assert_eq!(rt; (end.received, end.refused, end.sent), (1, 0, 0));
            assert_eq!(rt; rng.next_u32(), after(1, 12));
            return;
        }
    }
    panic!(rt; "no port is free");
}

/// Where nothing comes, the receive from the port of RTP lasts as long as its wait. A compound at the other port ends
/// it, and is left to the next turn. What is queued at a port is taken at once, and after it there is no wait.
#[test]
fn waits(rt: HostRuntime) {
    for port in [
        41_880, 42_980, 43_580, 44_180, 45_280, 46_380, 47_480, 48_580u16,
    ] {
        let alloc = rt.alloc();
        let link = UdpLink::bind(&rt, alloc, local(port), local(port + 1), local(port + 3));
        let reporter = UdpLink::bind(
            &rt,
            alloc,
            local(port + 2),
            local(port + 3),
            local(port + 1),
        );
        let sender = UdpLink::bind(&rt, alloc, local(port + 4), local(port + 5), local(port));
        if let (Ok(mut link), Ok(mut reporter), Ok(mut sender)) = (link, reporter, sender) {
            let mut buf = [0; 100];
            let began = link.now();
            assert_eq!(rt; link.recv(Port::Rtcp, &mut buf, LONG), Received::Nothing);
            assert_eq!(rt; link.recv(Port::Rtp, &mut buf, 100_000), Received::Nothing);
            let waited = link.now();
            assert!(rt; waited.saturating_sub(began) >= 100_000);
            assert_eq!(rt; link.recv(Port::Rtcp, &mut buf, LONG), Received::Nothing);
            assert!(rt; reporter.send(&named(7)).is_ok());
            assert_eq!(rt; link.recv(Port::Rtp, &mut buf, LONG), Received::Nothing);
            assert!(rt; sender.send(&named(8)).is_ok());
            let from = 0x7f00_0001 * 65_536 + u64::from(port);
            assert_eq!(rt;
                link.recv(Port::Rtcp, &mut buf, LONG),
                Received::Got(20, from + 3)
            );
            assert_eq!(rt;
                link.recv(Port::Rtp, &mut buf, LONG),
                Received::Got(20, from + 5)
            );
            assert_eq!(rt; link.recv(Port::Rtp, &mut buf, LONG), Received::Nothing);
            assert!(rt; link.now().saturating_sub(waited) < LONG);
            return;
        }
    }
    panic!(rt; "no port is free");
}

/// A port of 0 is one that the system picks. It is told, and what is sent there comes.
#[test]
fn picked_ports(rt: HostRuntime) {
    let alloc = rt.alloc();
    let Ok(mut here) = UdpLink::bind(&rt, alloc, local(0), local(0), local(9)) else {
        panic!(rt; "no port is free");
    };
    let (rtp, rtcp) = here.endpoints();
    assert!(rt; rtp.port() != 0 && rtcp.port() != 0 && rtp.port() != rtcp.port());
    assert_eq!(rt;
        (*rtp.ip(), *rtcp.ip()),
        (Ipv4Addr::LOCALHOST, Ipv4Addr::LOCALHOST)
    );
    let Ok(mut there) = UdpLink::bind(&rt, alloc, local(0), local(0), rtcp) else {
        panic!(rt; "no port is free");
    };
    let (_, sender) = there.endpoints();
    assert!(rt; there.send(&named(7)).is_ok());
    let from = 0x7f00_0001 * 65_536 + u64::from(sender.port());
    let mut buf = [0; 100];
    assert_eq!(rt;
        here.recv(Port::Rtcp, &mut buf, 200_000),
        Received::Got(20, from)
    );
}
