//! What a participant needs of a network and a clock.

ghost use Rattle.std.specs.Prelude.{◌≡◌, ◌<◌, ◌-◌, ◌^◌, [], ◌∷◌, length, is_err};
ghost use Rattle.rtcp_serve.specs.Links.{LinkValue, WereCalled, IsWithin, clock_read, port_heard, compound_sent, endpoint_number, heard_in};

use std::net::SocketAddrV4;
use thiserror::Error;

/// One of the two ports of a session (RFC 3550, 11).
#[derive(Clone, Copy, Debug, PartialEq, Eq)]
pub enum Port {
    /// The port of RTCP.
    Rtcp,
    /// The port of RTP.
    Rtp,
}

/// What came while a port was listened to.
#[derive(Clone, Copy, Debug, PartialEq, Eq)]
pub enum Received {
    /// A datagram of so many octets, which are the first ones of the buffer, and a number for where it came from.
    Got(usize, u64),
    /// Nothing came in time.
    Nothing,
    /// The call failed.
    Failed,
}

/// A datagram was not sent.
#[derive(Clone, Copy, Debug, PartialEq, Eq, Error)]
#[error("the link did not send a datagram")]
pub struct LinkFault;

/// A clock and two ports. What becomes of a datagram that was handed over nobody promises.
pub trait Link {
    /// What a clause knows of it: its calls so far, where it exposes these, and how many calls failed.
    ghost value: { Self → LinkValue };

    /// The moment, in microseconds since the session began. It may go back.
    fn now(&mut self) -> u64
        ensures called { WereCalled (clock_read result ∷ []) (value self.old) (value self.new) };

    /// Waits for a datagram on a port, for `wait_us` microseconds at most. What does not fit the buffer is lost.
    fn recv(&mut self, port: Port, buf: &mut [u8], wait_us: u64) -> Received
        requires { (value self.old).failed_receives < 2 ^ 64 - 1 }
        ensures called { WereCalled (port_heard port wait_us (heard_in buf.new result) ∷ [])
            (value self.old) (value self.new) }
        ensures length { length buf.new ≡ length buf.old }
        ensures within { IsWithin result buf.new };

    /// Sends a datagram to the others.
    ///
    /// # Errors
    ///
    /// [`LinkFault`] where it was not handed to the network.
    fn send(&mut self, bytes: &[u8]) -> Result<(), LinkFault>
        requires { (value self.old).failed_sends < 2 ^ 64 - 1 }
        ensures called { WereCalled (compound_sent bytes.now (is_err result) ∷ [])
            (value self.old) (value self.new) };
}

/// The number of an address and a port, which no other two have: the address times 65,536, plus the port.
pub fn endpoint_number(endpoint: SocketAddrV4) -> u64
    ensures { result ≡ endpoint_number endpoint }
{
    u64::from(endpoint.ip().to_bits()) * 65_536 + u64::from(endpoint.port())
}
