//! Tables of members: each row runs over both.

use rtcp_members::{
    Applied, Dropped, HeapTable, InlineTable, ListTable, MemberTable, Place, SortedTable,
    SourceState, Sources,
};
use rtcp_wire::{Block, Fact};
use std::test::*;

mod forgotten;
mod histories;
mod list;
mod rooms;
mod senders;
mod session;
mod sorted;
mod told;
mod turns;

use session::Session;
