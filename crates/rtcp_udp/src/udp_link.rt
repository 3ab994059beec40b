//! A link over two UDP sockets.

ghost use Rattle.std.specs.Prelude.{◌≡◌, ◌≢◌, ◌≤◌, [], ◌∷◌, IfOk, IfSome};
ghost use Rattle.std.specs.Net.Socket.{v4_port};
ghost use Rattle.rtcp_udp.specs.Senders.{sender_number};
ghost use Rattle.rtcp_serve.specs.Links.{IsWithin, WereCalled, clock_read};

use mio::net::UdpSocket;
use mio::{Events, Interest, Poll, Token};
use rtcp_serve::{Link, LinkFault, Port, Received, endpoint_number};
use std::alloc::Global;
use std::io::{self, ErrorKind};
use std::net::{Net, SocketAddr, SocketAddrV4};
use std::thread;
use std::time::{Clock, Duration, Instant};
use thiserror::Error;

/// Why no link was bound.
#[derive(Clone, Copy, Debug, PartialEq, Eq, Error)]
pub enum BindFault {
    /// A port could not be bound or waited for, or the clock not be read.
    #[error("a port could not be bound or waited for, or the clock not be read")]
    Io,
    /// Memory was asked for and refused.
    #[error("no memory for a link")]
    Memory,
}

/// A link over UDP: RTP and RTCP come to a socket each, and compounds go to one peer, which may be a group. It
/// tells no log: what a socket carried no contract knows.
///
/// A receive takes what is queued at its port, and returns at once. Only where both ports have nothing queued does that
/// of the RTP port wait, until either has, and then it returns `Nothing` all the same. So its caller reads the clock
/// between an arrival and the receive that takes it, and no wait comes between the two.
#[derive(Drop)]
pub struct UdpLink<'r, R> {
    runtime: &'r R,
    /// The moment 0.
    began: Instant,
    /// The last moment that was given.
    last: u64,
    rtp: UdpSocket,
    rtcp: UdpSocket,
    /// Where RTP comes in, and where RTCP does.
    endpoints: (SocketAddrV4, SocketAddrV4),
    peer: SocketAddr,
    /// Waits for either port. It reports what comes to a port after a receive found nothing queued there.
    poll: Poll,
    /// What a wait reports. Nothing reads it: the receives that follow try both ports.
    events: Events,
    /// Whether the last receive was from the RTCP port, and found nothing queued.
    is_rtcp_empty: bool,
    failed_receives: u64,
    failed_sends: u64,
}

impl<'r, R: Net + Clock> UdpLink<'r, R> {
    /// Binds the ports of a session, which begins now, and names where its compounds go. A port of 0 is left to the
    /// system to pick: `endpoints` tells which it is.
    ///
    /// # Errors
    ///
    /// - [`BindFault::Io`] where a port cannot be bound, waited for or told, or the clock cannot be read.
    /// - [`BindFault::Memory`] where memory is refused.
    pub fn bind(
        runtime: &'r R,
        alloc: Global,
        rtp: SocketAddrV4,
        rtcp: SocketAddrV4,
        peer: SocketAddrV4,
    ) -> Result<UdpLink<'r, R>, BindFault>
        ensures receives { IfOk result (λ link. link.failed_receives ≡ 0) }
        ensures sends { IfOk result (λ link. link.failed_sends ≡ 0) }
        ensures rtp { v4_port rtp ≢ 0 → IfOk result (λ link. link.endpoints.0 ≡ rtp) }
        ensures rtcp { v4_port rtcp ≢ 0 → IfOk result (λ link. link.endpoints.1 ≡ rtcp) }
    {
        let Ok(events) = Events::with_capacity(alloc, 2) else {
            return Err(BindFault::Memory);
        };
        let Ok(poll) = Poll::new(runtime) else {
            return Err(BindFault::Io);
        };
        let (Ok(rtp), Ok(rtcp)) = (open(runtime, &poll, rtp), open(runtime, &poll, rtcp)) else {
            return Err(BindFault::Io);
        };
        let ((rtp, rtp_at), (rtcp, rtcp_at)) = (rtp, rtcp);
        let Ok(began) = Instant::now(runtime) else {
            return Err(BindFault::Io);
        };
        Ok(UdpLink {
            runtime,
            began,
            last: 0,
            rtp,
            rtcp,
            endpoints: (rtp_at, rtcp_at),
            peer: SocketAddr::V4(peer),
            poll,
            events,
            is_rtcp_empty: false,
            failed_receives: 0,
            failed_sends: 0,
        })
    }

    /// Where RTP comes in, and where RTCP does: as `bind` was asked, but for a port of 0, where it is the one that the
    /// system picked.
    pub fn endpoints(&self) -> (SocketAddrV4, SocketAddrV4)
        ensures { result ≡ self.now.endpoints }
    {
        self.endpoints
    }
}

impl<'r, R: Net + Clock> Link for UdpLink<'r, R> {
    ghost use Rattle.rtcp_udp.specs.UdpLinks.{value_of};

    ghost value = { value_of };

    /// The moment by the clock, or the last one where the clock cannot be read: never one less than the last.
    fn now(&mut self) -> u64
        ensures called { WereCalled (clock_read result ∷ []) (value_of self.old) (value_of self.new) }
        ensures forward { self.old.last ≤ result }
        ensures kept { self.new.last ≡ result }
    {
        if let Ok(elapsed) = self.began.elapsed(self.runtime) {
            let now = u64::try_from(elapsed.as_micros()).unwrap_or(u64::MAX);
            self.last = self.last.max(now);
        }
        self.last
    }

    fn recv(&mut self, port: Port, buf: &mut [u8], wait_us: u64) -> Received {
        let wait = Duration::from_micros(wait_us);
        let queued = match port {
            Port::Rtcp => take_queued(&self.rtcp, buf),
            Port::Rtp => take_queued(&self.rtp, buf),
        };
        let waits = port == Port::Rtp && queued.is_none() && self.is_rtcp_empty;
        self.is_rtcp_empty = port == Port::Rtcp && queued.is_none();
        let received = match queued {
            Some(received) => received,
            None if waits && self.poll.poll(&mut self.events, Some(wait)).is_err() =>
                Received::Failed,
            None => Received::Nothing,
        };
        if received == Received::Failed {
            // A row of failures ends a session, so each takes its time.
            thread::sleep(self.runtime, wait);
            self.failed_receives += 1;
        }
        received
    }

    fn send(&mut self, bytes: &[u8]) -> Result<(), LinkFault> {
        if let Ok(sent) = self.rtcp.send_to(bytes, self.peer) {
            if sent == bytes.len() {
                return Ok(());
            }
        }
        self.failed_sends += 1;
        Err(LinkFault)
    }
}

/// A socket at an address, for whose datagrams `poll` waits, and that address with the port that it has.
fn open<R: Net>(
    runtime: &R,
    poll: &Poll,
    address: SocketAddrV4,
) -> io::Result<(UdpSocket, SocketAddrV4)>
    ensures { v4_port address ≢ 0 → IfOk result (λ opened. opened.1 ≡ address) }
{
    let mut socket = UdpSocket::bind(runtime, SocketAddr::V4(address))?;
    poll.registry()
        .register(&mut socket, Token(0), Interest::READABLE)?;
    if address.port() != 0 {
        return Ok((socket, address));
    }
    let picked = socket.local_addr()?.port();
    Ok((socket, SocketAddrV4::new(*address.ip(), picked)))
}

/// What is queued at a socket, or `None` where nothing is.
fn take_queued(socket: &UdpSocket, buf: &mut [u8]) -> Option<Received>
    ensures { IfSome result (λ received. IsWithin received buf.new) }
{
    match socket.recv_from(buf) {
        Ok((count, from)) => Some(Received::Got(count, peer_number(from))),
        Err(error) => match error.kind() {
            ErrorKind::WouldBlock => None,
            ErrorKind::Interrupted => Some(Received::Nothing),
            _ => Some(Received::Failed),
        },
    }
}

/// A number for where a datagram came from.
fn peer_number(from: SocketAddr) -> u64
    ensures { result ≡ sender_number from }
{
    match from {
        SocketAddr::V4(from) => endpoint_number(from),
        SocketAddr::V6(from) => u64::from(from.port()),
    }
}
