//! Sessions over a link in memory.

use arrayvec::ArrayVec;
use rtcp_engine::{Answer, Config, Participant};
use rtcp_members::SortedTable;
use rtcp_serve::{Cause, End, Link, Port, serve};
use std::process::Abort;
use std::test::*;

mod draws;
mod endings;
mod example;
mod guarded;
mod log;
mod logs;
mod memory_link;
mod observers;
mod reader;
mod rows;
mod session;
mod watch;
mod zeros;
