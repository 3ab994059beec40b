//! The parts of a datagram, one after the other, by a cursor of the host's: the datagram is tested once.

ghost use Rattle.std.specs.Prelude.{◌≡◌, ◌≤◌, ◌+◌, length};
ghost use Rattle.rtcp_wire.specs.Contents.{packet_apps, packet_blocks, packet_goodbyes, packet_items, packet_senders};
ghost use Rattle.rtcp_parts.specs.Cursors.{LeavesBlocks, LeavesGoodbyes, LeavesItems, LeavesNone};
ghost use Rattle.jalwedd_host.specs.Apps.{ShowsApp, WalksOwn};
ghost use Rattle.jalwedd_host.specs.Parts.{ShowsGoodbye, ShowsItem, ShowsSender};
ghost use Rattle.jalwedd_host.specs.Readings.{ShowsBlock};
ghost use Rattle.jalwedd_host.specs.Walks.{Continues};

use jalwedd_host::app::AppPlace;
use jalwedd_host::parts::{GoodbyePlace, ItemPlace, SenderInfo};
use jalwedd_host::reading::Report;
use jalwedd_host::walks::show_next;
use rtcp_parts::{Cursor, PlacedApp, PlacedGoodbye, PlacedItem, Reported, Sender};

/// Tells of the next part of a walk over the sender reports of a datagram, in their order, and moves the cursor after
/// it. Begin with a cursor of zeros, and go on with it until the status is not 0: then each part was told once. Else
/// `sender` is left as it is. Only the call that begins a walk tests the datagram, so that the time of a whole walk
/// grows with its octets alone.
///
/// Statuses: 0; 5 where a walk begins over a datagram that is not a compound, and the cursor is then as it was; 8 after
/// the last part, and again from then on.
#[unsafe(no_mangle)]
pub extern "C" fn jalwedd_next_sender(
    datagram: &[u8],
    cursor: &mut Cursor,
    sender: &mut SenderInfo,
) -> u32
    ensures { Continues packet_senders LeavesNone ShowsSender
        datagram.now cursor.old cursor.new result sender.old sender.new }
{
    show_next::<Sender>(datagram, cursor, sender)
}

/// The same, of a walk over the blocks of all reports.
#[unsafe(no_mangle)]
pub extern "C" fn jalwedd_next_block(
    datagram: &[u8],
    cursor: &mut Cursor,
    report: &mut Report,
) -> u32
    ensures { Continues packet_blocks LeavesBlocks ShowsBlock
        datagram.now cursor.old cursor.new result report.old report.new }
{
    show_next::<Reported>(datagram, cursor, report)
}

/// The same, of a walk over the items of all chunks of all source descriptions, and where the text of each stands.
#[unsafe(no_mangle)]
pub extern "C" fn jalwedd_next_sdes_item(
    datagram: &[u8],
    cursor: &mut Cursor,
    item: &mut ItemPlace,
) -> u32
    ensures tells { Continues packet_items LeavesItems (ShowsItem datagram.now)
        datagram.now cursor.old cursor.new result item.old item.new }
    ensures within { result ≡ 0 → item.new.offset + item.new.size ≤ length datagram.now }
{
    show_next::<PlacedItem>(datagram, cursor, item)
}

/// The same, of a walk over the sources that all BYEs name, and where the reason of its BYE stands.
#[unsafe(no_mangle)]
pub extern "C" fn jalwedd_next_goodbye(
    datagram: &[u8],
    cursor: &mut Cursor,
    goodbye: &mut GoodbyePlace,
) -> u32
    ensures tells { Continues packet_goodbyes LeavesGoodbyes (ShowsGoodbye datagram.now)
        datagram.now cursor.old cursor.new result goodbye.old goodbye.new }
    ensures within { result ≡ 0 → goodbye.new.offset + goodbye.new.size ≤ length datagram.now }
{
    show_next::<PlacedGoodbye>(datagram, cursor, goodbye)
}

/// The same, of a walk over the packets of applications, and where the data of each stand. With a cursor at a
/// boundary of the datagram's packets, as a walk over an accepted one leaves it, each is one of the datagram's own, and
/// none inside another.
#[unsafe(no_mangle)]
pub extern "C" fn jalwedd_next_app(datagram: &[u8], cursor: &mut Cursor, app: &mut AppPlace) -> u32
    ensures tells { Continues packet_apps LeavesNone (ShowsApp datagram.now)
        datagram.now cursor.old cursor.new result app.old app.new }
    ensures within { result ≡ 0 → app.new.offset + app.new.size ≤ length datagram.now }
    ensures own { WalksOwn datagram.now cursor.old cursor.new result app.new }
{
    show_next::<PlacedApp>(datagram, cursor, app)
}
