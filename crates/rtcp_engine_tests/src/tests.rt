use arrayvec::ArrayVec;
use rtcp_engine::*;
use rtcp_members::{InlineTable, ListTable, MemberTable, SortedTable};
use rtcp_wire::{Compound, FaultReason, RtpFault, WireFault};
use std::alloc::{AllocError, Global};
use std::process::Abort;
use std::test::*;

mod changes;
mod configs;
mod damage;
mod floods;
mod heap;
mod host;
mod leaving;
mod list;
mod listing;
mod rooms;
mod rows;
mod runs;
mod session;
mod sorted;
mod telling;

use session::{
    BYE, Call, OURS, REPORT, REPORT_OF_BB, Row, Script, Seen, Session, Setup, USUAL, config,
    seen_of,
};
