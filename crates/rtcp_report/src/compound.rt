//! Compound reports (RFC 3550, 6.1, 6.4, 6.5).

ghost use Rattle.std.specs.Prelude.{◌≡◌, ◌+◌, ◌*◌, ◌<◌, ◌≤◌, ℕ, [], None, length, take, drop, option_map};
ghost use Rattle.std.specs.Option.{ForSome};
ghost use Rattle.rtcp_wire.specs.Writing.{written_all, IsWritableItem};
ghost use Rattle.rtcp_report.specs.Gathered.{IsReport};
ghost use Rattle.rtcp_report.specs.Reports.{Reporter, further_count, packets_with, items_of, first_report_size};
ghost use Rattle.rtcp_report.specs.Views.{extra_of, reporter_of, sent_value};

use crate::description::{description_size, put_description};
use crate::reports::{BLOCK_SIZE, BLOCKS_OF_PACKET, RECEIVER_SIZE, SENDER_SIZE, put_reports};
use crate::sender::{Item, Sender};
use arrayvec::ArrayVec;
use rtcp_members::MemberTable;
use rtcp_wire::MAX_COMPOUND;

/// The compound report of a participant at the moment `t`, in microseconds: at most `limit` octets, which is
/// from 576 to 1,472.
///
/// It begins with a sender report where `sender.sr` says what was sent, else with a receiver report (RFC
/// 3550, 6.4). It has a block of each source that has news and did not leave, or of as many as fit: in cyclic
/// turn by rising SSRC, beginning above the cursor, none twice. At most 31 blocks stand in a packet, and the
/// others in receiver reports after it. The last packet describes the participant by its CNAME, of at most
/// 255 octets, and by the extra item, if there is one (6.5).
///
/// The sources that it has blocks of have no news any more, and the cursor is left at the SSRC of the last
/// block, or as it was where there is none. Call it when a report is due, with the cursor of the call before,
/// which is `None` at first. A needless call takes the news out of the next report.
pub fn report<T: MemberTable>(
    sender: &Sender<'_>,
    table: &mut T,
    t: u64,
    limit: u32,
    cursor: &mut Option<u32>,
    extra: Option<&Item>,
) -> ArrayVec<u8, MAX_COMPOUND>
    requires least { 576 ≤ limit }
    requires most { limit ≤ 1472 }
    requires cname { length sender.now.cname.now ≤ 255 }
    requires extra { ForSome (extra_of extra) IsWritableItem }
    ensures { IsReport (reporter_of sender.now extra.entry) limit t cursor.old (T.content table.old)
        result.items (T.content table.new) cursor.new }
{
    let mut octets = ArrayVec::new();
    write_report(sender, table, t, limit, cursor, extra, &mut octets);
    octets
}

/// Writes the compound of [`report`] into the caller's room, in place of what stood there: `octets` are
/// cleared first. What it takes from the table, and where it leaves the cursor, is as there.
pub fn write_report<T: MemberTable>(
    sender: &Sender<'_>,
    table: &mut T,
    t: u64,
    limit: u32,
    cursor: &mut Option<u32>,
    extra: Option<&Item>,
    octets: &mut ArrayVec<u8, MAX_COMPOUND>,
)
    requires least { 576 ≤ limit }
    requires most { limit ≤ 1472 }
    requires cname { length sender.now.cname.now ≤ 255 }
    requires extra { ForSome (extra_of extra) IsWritableItem }
    ensures { IsReport (reporter_of sender.now extra.entry) limit t cursor.old (T.content table.old)
        octets.new.items (T.content table.new) cursor.new }
{
    let mut room = [0; MAX_COMPOUND];
    let size = write_report_into(sender, table, t, limit, cursor, extra, &mut room);
    copy(&room[..size], octets);
}

/// Writes the compound of [`report`] to the start of the caller's octets, and returns how many it has: those after
/// it are left as they were. What it takes from the table, and where it leaves the cursor, is as there.
pub fn write_report_into<T: MemberTable>(
    sender: &Sender<'_>,
    table: &mut T,
    t: u64,
    limit: u32,
    cursor: &mut Option<u32>,
    extra: Option<&Item>,
    octets: &mut [u8; MAX_COMPOUND],
) -> usize
    requires least { 576 ≤ limit }
    requires most { limit ≤ 1472 }
    requires cname { length sender.now.cname.now ≤ 255 }
    requires extra { ForSome (extra_of extra) IsWritableItem }
    ensures report { IsReport (reporter_of sender.now extra.entry) limit t cursor.old (T.content table.old)
        (take result octets.new) (T.content table.new) cursor.new }
    ensures small { result ≤ 1472 }
    ensures rest { drop result octets.new ≡ drop result octets.old }
{
    let described = description_size(sender.cname, extra);
    let most = most_blocks(sender, limit as usize - described);
    let end = put_reports(sender, table, t, cursor, most, octets);
    put_description(octets, end, sender.ssrc, sender.cname, extra)
}

/// Puts a compound in place of what stood in `octets`.
pub(crate) fn copy(compound: &[u8], octets: &mut ArrayVec<u8, MAX_COMPOUND>)
    requires { length compound.now ≤ 1472 }
    ensures { octets.new.items ≡ compound.now }
{
    octets.clear();
    let fits = octets.try_extend_from_slice(compound).is_ok();
    prove!(fits);
}

/// The octets of the first compound that a participant with this CNAME, of at most 255 octets, expects to
/// send (RFC 3550, 6.3.2): a receiver report without blocks, and the description by the CNAME alone.
pub fn first_size(cname: &[u8]) -> u32
    requires { length cname.now ≤ 255 }
    ensures exact { (ssrc : ℕ) → let reporter : Reporter = record
        { ssrc = ssrc; sent = None; items = items_of cname.now None } in
        result ≡ length (written_all (packets_with reporter [])) }
    ensures small { result ≤ 276 }
{
    (RECEIVER_SIZE + description_size(cname, None)) as u32
}

/// How many blocks fit so many octets: each packet after the first one has a header and an SSRC of its own.
fn most_blocks(sender: &Sender<'_>, room: usize) -> usize
    requires least { first_report_size (option_map sent_value sender.now.sr) ≤ room }
    requires most { room ≤ 1472 }
    ensures few { result ≤ 60 }
    ensures fits { first_report_size (option_map sent_value sender.now.sr) + 24 * result
        + 8 * further_count result ≤ room }
    ensures greatest { room
        < first_report_size (option_map sent_value sender.now.sr) + 24 * (result + 1)
        + 8 * further_count (result + 1) }
{
    let first = if sender.sr.is_some() {
        SENDER_SIZE
    } else {
        RECEIVER_SIZE
    };
    let room = room - first;
    if room / BLOCK_SIZE <= BLOCKS_OF_PACKET {
        room / BLOCK_SIZE
    } else {
        (room - RECEIVER_SIZE) / BLOCK_SIZE
    }
}
