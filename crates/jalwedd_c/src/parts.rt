//! The parts of a datagram by index: senders, report blocks, SDES items, BYEs and packets of applications.

ghost use Rattle.rtcp_wire.specs.Contents.{all_apps, all_blocks, all_goodbyes, all_items, all_senders};
ghost use Rattle.jalwedd_host.specs.Apps.{ShowsOwnApp};
ghost use Rattle.jalwedd_host.specs.Parts.{Locates, ShowsGoodbye, ShowsItem, ShowsSender};
ghost use Rattle.jalwedd_host.specs.Readings.{ShowsBlock};

use jalwedd_host::app::AppPlace;
use jalwedd_host::parts::{GoodbyePlace, ItemPlace, SenderInfo};
use jalwedd_host::reading::Report;
use jalwedd_host::walks::show_at;
use rtcp_parts::{PlacedApp, PlacedGoodbye, PlacedItem, Reported, Sender};

/// Tells of the sender reports of a datagram, in their order, the one at `index`, from 0 on. Ask with 0, 1, .. until
/// the status is not 0. Else `sender` is left as it is.
///
/// Each call walks there from the start of the datagram: to read all parts so takes a time that grows with the square
/// of its octets. `jalwedd_next_sender` reads it once.
///
/// Statuses: 0; 5 where the datagram is not a compound; 8 where it has no such report.
#[unsafe(no_mangle)]
pub extern "C" fn jalwedd_sender(datagram: &[u8], index: u32, sender: &mut SenderInfo) -> u32
    ensures { Locates all_senders ShowsSender datagram.now index result sender.old sender.new }
{
    show_at::<Sender>(datagram, index, sender)
}

/// The same, of the blocks of all reports. `jalwedd_next_block` reads the datagram once.
#[unsafe(no_mangle)]
pub extern "C" fn jalwedd_block(datagram: &[u8], index: u32, report: &mut Report) -> u32
    ensures { Locates all_blocks ShowsBlock datagram.now index result report.old report.new }
{
    show_at::<Reported>(datagram, index, report)
}

/// The same, of the items of all chunks of all source descriptions, and where the text of each stands.
/// `jalwedd_next_sdes_item` reads the datagram once.
#[unsafe(no_mangle)]
pub extern "C" fn jalwedd_sdes_item(datagram: &[u8], index: u32, item: &mut ItemPlace) -> u32
    ensures { Locates all_items (ShowsItem datagram.now) datagram.now index result item.old item.new }
{
    show_at::<PlacedItem>(datagram, index, item)
}

/// The same, of the sources that all BYEs name, and where the reason of its BYE stands.
/// `jalwedd_next_goodbye` reads the datagram once.
#[unsafe(no_mangle)]
pub extern "C" fn jalwedd_goodbye(datagram: &[u8], index: u32, goodbye: &mut GoodbyePlace) -> u32
    ensures { Locates all_goodbyes (ShowsGoodbye datagram.now) datagram.now index result goodbye.old goodbye.new }
{
    show_at::<PlacedGoodbye>(datagram, index, goodbye)
}

/// The same, of the packets of applications, and where the data of each stand. `jalwedd_next_app` reads the datagram
/// once.
#[unsafe(no_mangle)]
pub extern "C" fn jalwedd_app(datagram: &[u8], index: u32, app: &mut AppPlace) -> u32
    ensures { Locates all_apps (ShowsOwnApp datagram.now) datagram.now index result app.old app.new }
{
    show_at::<PlacedApp>(datagram, index, app)
}
