//! A participant on a link, which is a clock and two ports: [`serve`] drives it for a number of turns, and then lets it
//! leave, and [`serve_until`] until an [`Ending`] is met, as a moment ([`Until`]). Each compound that the participant
//! hands out is sent over the link once, and the calls of the link, with the random words, determine everything that it
//! was told. Sockets, clock and random numbers are those of the link and the generator that the caller passes; the
//! crate does not allocate.
//!
//! ```
//! let mut buf = [0; 65_535];
//! let end = serve(&mut link, &mut participant, &mut rng, 1_000, &mut buf);
//! assert_eq!(rt; end.cause, Cause::Done);
//! ```
//!
//! A host implements [`Link`]. What watches a session is an [`Observer`], which [`serve_until`] tells of it.
//! `specs/` defines what contracts see of a link (`Links`) and the state of a session after its calls (`Serving`,
//! `Sessions`); `serve_laws` states in plain words what follows.
#![tactic(auto)]

mod attendant;
mod ending;
mod link;
mod observer;
pub mod serve_laws;
mod serving;

pub use attendant::Attendant;
pub use ending::{Ending, Until};
pub use link::{Link, LinkFault, Port, Received, endpoint_number};
pub use observer::Observer;
pub use serving::{Cause, End, MOST_TURNS, serve, serve_guarded_until, serve_until};
