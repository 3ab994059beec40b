//! The head of an RTP datagram, and why a datagram has none.

ghost use Rattle.std.specs.Prelude.{◌≡◌, ◌<◌, ◌≤◌, length};
ghost use Rattle.rtcp_wire.specs.declared.rtp.fault.RtpFault.{RtpFault as HeadFault};
ghost use Rattle.rtcp_wire.specs.RtpHeads.{IsRtpFault, IsRtpHead};
ghost use Rattle.jalwedd_host.specs.Heads.{ShowsHead, ShowsHeadFault};
ghost use Rattle.rtcp_wire.specs.Values.{RtpValue};

use crate::calls::LONGEST;
use jalwedd_host::head::{HeadPlace, head_place, head_reason_number};
use jalwedd_host::reading::Fault;
use jalwedd_host::status::{NO_RTP, TAKEN, TOO_LONG};
use rtcp_wire::RtpHead;

/// Tells what the head of an RTP datagram says, and where its CSRCs and its payload stand (RFC 3550, 5.1). Else `head`
/// is left as it is. Of a datagram of more than 65,535 octets none is read, as by `jalwedd_arrive_rtp`.
///
/// Statuses: 0; 23 where the datagram has more than 65,535 octets; else 6 where it has no valid head.
#[unsafe(no_mangle)]
pub extern "C" fn jalwedd_rtp_head(datagram: &[u8], head: &mut HeadPlace) -> u32
    ensures read { (value : RtpValue) (spelled : IsRtpHead datagram.now value) → length datagram.now ≤ 65535 →
        (result ≡ 0) × ShowsHead datagram.now value spelled head.new }
    ensures refused { (fault : HeadFault) → IsRtpFault datagram.now fault → length datagram.now ≤ 65535 →
        (result ≡ 6) × (head.new ≡ head.old) }
    ensures too_long { 65535 < length datagram.now → (result ≡ 23) × (head.new ≡ head.old) }
{
    if datagram.len() > LONGEST {
        return TOO_LONG;
    }
    match RtpHead::read(datagram) {
        Ok(read) => {
            *head = head_place(datagram, &read);
            TAKEN
        }
        Err(_) => NO_RTP,
    }
}

/// Tells whether a datagram has a valid RTP head (RFC 3550, 5.1). Where it has, `fault` is left as it is; else that
/// tells the first rule that the datagram breaks. Of one of more than 65,535 octets nothing is read.
///
/// Statuses: 0; 23 where the datagram has more than 65,535 octets; else 6 where it has no valid head.
#[unsafe(no_mangle)]
pub extern "C" fn jalwedd_rtp_fault(datagram: &[u8], fault: &mut Fault) -> u32
    ensures accepted { (value : RtpValue) → IsRtpHead datagram.now value → length datagram.now ≤ 65535 →
        (result ≡ 0) × (fault.new ≡ fault.old) }
    ensures refused { (first : HeadFault) → IsRtpFault datagram.now first → length datagram.now ≤ 65535 →
        (result ≡ 6) × ShowsHeadFault fault.new first }
    ensures too_long { 65535 < length datagram.now → (result ≡ 23) × (fault.new ≡ fault.old) }
{
    if datagram.len() > LONGEST {
        return TOO_LONG;
    }
    match RtpHead::read(datagram) {
        Ok(_) => TAKEN,
        Err(first) => {
            *fault = Fault {
                offset: 0,
                reason: head_reason_number(first),
            };
            NO_RTP
        }
    }
}
