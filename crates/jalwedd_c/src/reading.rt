//! What a datagram says: whether it is a compound, and what its reports say of one source.

ghost use Rattle.std.specs.Prelude.{◌≡◌, List};
ghost use Rattle.rtcp_clock.specs.Moments.{ntp_moment, time_of_trip};
ghost use Rattle.rtcp_wire.specs.declared.fault.WireFault.{WireFault as FirstFault};
ghost use Rattle.rtcp_wire.specs.About.{blocks_about};
ghost use Rattle.rtcp_wire.specs.Faults.{IsFirstFault};
ghost use Rattle.rtcp_wire.specs.Grammar.{IsAccepted};
ghost use Rattle.rtcp_wire.specs.Values.{RtcpPacket};
ghost use Rattle.jalwedd_host.specs.Parts.{Locates};
ghost use Rattle.jalwedd_host.specs.Readings.{ShowsBlock, ShowsFault};

use jalwedd_host::reading::{Fault, Report, reason_number, shown};
use jalwedd_host::status::{NO_BLOCK, NO_COMPOUND, TAKEN};
use rtcp_wire::Compound;

/// Tells whether a datagram is a compound (RFC 3550, 6.1). Where it is, `fault` is left as it is.
///
/// Statuses: 0; 5.
#[unsafe(no_mangle)]
pub extern "C" fn jalwedd_check(datagram: &[u8], fault: &mut Fault) -> u32
    ensures accepted { (packets : List RtcpPacket) → IsAccepted datagram.now packets →
        (result ≡ 0) × (fault.new ≡ fault.old) }
    ensures refused { (first : FirstFault) → IsFirstFault datagram.now first →
        (result ≡ 5) × ShowsFault fault.new first }
{
    match Compound::read(datagram) {
        Ok(_) => TAKEN,
        Err(first) => {
            *fault = Fault {
                offset: first.place as u64,
                reason: reason_number(first.reason),
            };
            NO_COMPOUND
        }
    }
}

/// Tells what the reports of a datagram say of the source `ssrc`: of the blocks that name it, in their order, the one
/// at `index`, from 0 on. Ask with 0, 1, .. until the status is not 0. Else `report` is left as it is.
///
/// Each call reads the datagram from its start: to read all parts so takes a time that grows with the square of its
/// octets. With `jalwedd_next_block` a host reads it once.
///
/// Statuses: 0; 5 where the datagram is not a compound; 8 where it has no such block.
#[unsafe(no_mangle)]
pub extern "C" fn jalwedd_about(datagram: &[u8], ssrc: u32, index: u32, report: &mut Report) -> u32
    ensures { Locates (blocks_about ssrc) ShowsBlock datagram.now index result report.old report.new }
{
    match Compound::read(datagram) {
        Ok(compound) => match compound.about(ssrc).nth(index as usize) {
            Some((reporter, block)) => {
                *report = shown(reporter, &block);
                TAKEN
            }
            None => NO_BLOCK,
        },
        Err(_) => NO_COMPOUND,
    }
}

/// The round-trip time by a report block, in 1/65,536 of a second and modulo 2^32: `arrival` is the middle 32 bits of
/// the NTP timestamp at which it came (`jalwedd_ntp_of`), `lsr` and `dlsr` are the block's (RFC 3550, 6.4.1). A block
/// whose `lsr` is 0 tells none.
#[unsafe(no_mangle)]
pub extern "C" fn jalwedd_round_trip(arrival: u32, lsr: u32, dlsr: u32) -> u32
    ensures { result ≡ time_of_trip arrival lsr dlsr }
{
    rtcp_clock::round_trip(arrival, lsr, dlsr)
}

/// The NTP timestamp of the moment `now`, in microseconds since a session began whose moment 0 has the NTP timestamp
/// `base` (RFC 3550, section 4).
#[unsafe(no_mangle)]
pub extern "C" fn jalwedd_ntp_of(base: u64, now: u64) -> u64
    ensures { result ≡ ntp_moment base now }
{
    rtcp_clock::ntp_of(base, now)
}
