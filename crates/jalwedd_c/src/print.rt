//! A datagram as a line of text.

ghost use Rattle.jalwedd_host.specs.Texts.{rate_given};
ghost use Rattle.rtcp_plain.specs.Plain.{plain_text};
ghost use Rattle.rtcp_print.specs.Lines.{Prints};
ghost use Rattle.rtcp_text.specs.Text.{accepted_text};

use jalwedd_host::text::rate_of;

/// Writes the line of `rtcp check` for a datagram, without the line feed at its end: its packets, or its first fault.
/// A zero octet ends the text, which is cut where the room leaves none for it; a room of no octets holds nothing.
/// Returns the octets of the whole text, without the zero octet: if that is not less than the room, the text is cut.
#[unsafe(no_mangle)]
pub extern "C" fn jalwedd_print(datagram: &[u8], text: &mut [u8]) -> usize
    ensures { Prints accepted_text datagram.now text.old text.new result }
{
    rtcp_print::print(datagram, text)
}

/// The same of the line of `rtcp check --plain`. `rate` is how many units a second the jitter of report blocks has: it
/// is then shown in milliseconds, and with a rate of 0 in units.
#[unsafe(no_mangle)]
pub extern "C" fn jalwedd_print_plain(datagram: &[u8], rate: u32, text: &mut [u8]) -> usize
    ensures { Prints (plain_text (rate_given rate)) datagram.now text.old text.new result }
{
    rtcp_print::print_plain(datagram, rate_of(rate), text)
}
