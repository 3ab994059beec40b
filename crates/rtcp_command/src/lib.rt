//! The command line of the program `rtcp`, from its arguments to the exit status. [`arguments::order`] reads the arguments
//! as an [`Order`]: work over text, which [`command::command`] does over any reader and any writer, or a session over a
//! link. [`ends::end_line`] is the line printed at the end of a session, and [`ends::conclude`] gives its exit
//! status. The crate does not touch the process: it reads no standard stream, no clock and no environment, and opens no
//! socket.
//!
//! ```
//! let mut faults = Vec::new(alloc);
//! let Ok(asked) = order(alloc, &["rtcp", "check"]) else {
//!     return Err("the words are refused")?;
//! };
//! let asked = match asked {
//!     Order::Text(asked) => asked,
//!     _listening => return Err("the words are refused")?,
//! };
//! let status = command(alloc, asked, b"0".as_slice(), Vec::new(alloc), &mut faults);
//! assert_eq!(rt; status, 2);
//! assert_eq!(rt; faults.as_slice(), b"line 1: X4 Hex\n".as_slice());
//! ```
//!
//! `specs/` defines the meaning of options (`Options`, `Listening`, `Watches`, `Endpoints`), what is written (`Orders`), the lines
//! before and after a session (`Groups`, `Ports`, `EndText`) and the exit statuses (`Status`). `laws` states that an
//! endpoint has one text.
#![tactic(auto)]

pub mod arguments;
pub mod command;
pub mod endpoint;
pub mod ends;
mod fault;
pub mod groups;
mod guard;
pub mod laws;
mod numbers;
mod options;
mod orders;
pub mod ports;
pub mod replay_command;
pub mod session_recorder;
mod watch;

pub use fault::RunFault;
pub use orders::{ListenOrder, Order, OrderFault, TextOrder, Watch};
