//! One RTCP participant of a session (RFC 3550, 6.2 to 6.5, 8.2). Its host tells it which datagrams arrive, which RTP
//! packets it sends and what time it is; the participant answers with the member count, a compound to send, if there is
//! one, and the next deadline. It reads no clock, opens no socket, draws no random number and does not allocate. Every
//! answer is defined over everything that the participant was told, and two reports never lie too close together,
//! whatever arrives ([`run`] states the promise).
//!
//! A host has two sockets, a clock and random words. It passes on each datagram with the peer that it came from, calls
//! `tick` once `next` has come, and sends the compound of an answer that has one:
//!
//! ```
//! fn serve<T: MemberTable>(host: &mut Host<'_>, participant: &mut Participant<T>, turns: u32) {
//!     for _ in 0..turns {
//!         let now = host.now();
//!         if let Some((peer, datagram)) = host.rtcp() {
//!             let answer = participant.arrive_rtcp(now, peer, host.word(), datagram);
//!             host.send(answer);
//!         }
//!         if let Some((peer, datagram)) = host.rtp() {
//!             let answer = participant.arrive_rtp(now, peer, host.word(), datagram);
//!             host.send(answer);
//!         }
//!         if participant.next().is_some_and(|next| next <= now) {
//!             let answer = participant.tick(now, host.word(), host.word());
//!             host.send(answer);
//!         }
//!     }
//! }
//! ```
//!
//! To leave, a host calls `leave`, sends the compound that it may get, and goes on until `next` is `None`: in a large
//! session the BYE comes later, from a tick (6.3.7).
//!
//! Each answer has room for a compound, 1.5 KB. A host with little stack keeps that room itself and calls
//! [`tick_into`](Participant::tick_into) and its like: they write a compound to the start of it, and return a [`WrittenStep`]
//! that describes it.
//!
//! A call that is refused (`Refusal`) changes nothing. `specs/` defines the answer to each call over everything that
//! the participant was told (`Histories`, `Ticks`, `Lives`, `Answers`); `laws` states properties of these definitions,
//! and `heard_laws` who is a member by them.
//! [`run`] makes the calls of a list of events and passes on each answer.
#![tactic(auto)]

mod arrival;
mod byes;
mod changes;
mod clock;
mod config;
pub mod difference_laws;
mod event;
mod extra;
pub mod heard_laws;
pub mod laws;
mod own;
mod pace;
mod participant;
mod presence;
mod refusal;
mod runs;
mod sayings;
mod settings;
mod sink;
mod step;
mod table;

pub use clock::Clock;
pub use config::{Config, ConfigError, rtcp_bw_of, shares_of};
pub use event::Event;
pub use own::OwnCounts;
pub use participant::{InspectedRtcp, InspectedRtp, Participant};
pub use refusal::Refusal;
pub use rtcp_listing::{Change, Changes, Listed, Role, is_rising};
pub use rtcp_report::Item;
pub use runs::{Ran, run};
pub use settings::Settings;
pub use sink::{Sink, SinkStop};
pub use step::{Answer, Out, OutKind, Reply, Standing, Step, Written, WrittenStep};
