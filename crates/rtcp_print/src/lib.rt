//! The line that `rtcp check` answers to a datagram, written into a room of the caller's octets: [`print`], and
//! [`print_plain`] in plain words. The text ends with a zero octet and not with a line feed. Where the room is too
//! small it is cut, and the call says how long all of it is. The crate allocates nothing, opens no socket, reads no
//! clock, and writes nothing but this text.
//!
//! ```
//! let mut room = [0; 40];
//! let size = rtcp_print::print(&[0x80, 0xc9, 0, 1, 0, 0, 0, 7], &mut room);
//! assert_eq!(rt; &room[..size], b"ok RR(00000007,[],0)".as_slice());
//! ```
//!
//! `specs/` defines what a room holds then (`Lines`, `Pages`). The texts are those that rtcp_text and rtcp_plain define.
#![tactic(auto)]

ghost use Rattle.std.specs.Prelude.{◌≡◌};
ghost use Rattle.rtcp_plain.specs.Plain.{plain_text};
ghost use Rattle.rtcp_print.specs.Lines.{AddsLine, Prints};
ghost use Rattle.rtcp_text.specs.Text.{accepted_text};

mod brief;
mod joined;
mod page;
mod plain;

use page::Page;
use rtcp_wire::Compound;

/// Writes the line of `rtcp check` for a datagram: its packets, or its first fault. Returns the octets of the whole
/// text, without the zero octet after it, whatever the room has.
pub fn print(datagram: &[u8], room: &mut [u8]) -> usize
    ensures { Prints accepted_text datagram.now room.old room.new result }
{
    let mut page = Page::over(room);
    push_line(&mut page, datagram);
    page.end()
}

/// The same in plain words, as `rtcp check --plain`. `rate` is how many units a second the jitter of report blocks has,
/// where that is known: it is then shown in milliseconds, and otherwise in units.
pub fn print_plain(datagram: &[u8], rate: Option<u32>, room: &mut [u8]) -> usize
    ensures { Prints (plain_text rate) datagram.now room.old room.new result }
{
    let mut page = Page::over(room);
    push_plain_line(&mut page, datagram, rate);
    page.end()
}

/// Appends the line of `rtcp check`.
fn push_line(page: &mut Page<'_>, datagram: &[u8])
    ensures same { page.new.room.ghost_name ≡ page.old.room.ghost_name }
    ensures adds { AddsLine accepted_text datagram.now page.old page.new }
{
    match Compound::read(datagram) {
        Ok(compound) => brief::push_accepted(page, &compound),
        Err(fault) => brief::push_fault(page, &fault),
    }
}

/// Appends the line of `rtcp check --plain`.
fn push_plain_line(page: &mut Page<'_>, datagram: &[u8], rate: Option<u32>)
    ensures same { page.new.room.ghost_name ≡ page.old.room.ghost_name }
    ensures adds { AddsLine (plain_text rate) datagram.now page.old page.new }
{
    match Compound::read(datagram) {
        Ok(compound) => plain::push_plain(page, &compound, rate),
        Err(fault) => brief::push_fault(page, &fault),
    }
}
