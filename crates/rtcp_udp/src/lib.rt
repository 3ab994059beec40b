//! A link over UDP for `rtcp_serve`: [`UdpLink`] is a clock and two sockets, one for each port of a session. It takes
//! what the sockets give, waits where they give nothing, and counts what failed; it reads no octet of a datagram.
//! Clock and network are those of the runtime that the caller lends.
//!
//! ```
//! let mut link = UdpLink::bind(&rt, alloc, rtp, rtcp, peer)?;
//! let end = serve(&mut link, &mut participant, &mut rng, 1_000, &mut buf);
//! ```
//!
//! `specs/` defines the number that stands for a sender (`Senders`).
#![tactic(auto)]

mod udp_link;

pub use udp_link::{BindFault, UdpLink};
