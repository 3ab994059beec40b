//! RTP packets, from their octets.

ghost use Rattle.std.specs.Prelude.{◌≡◌, ◌↔◌, ◌+◌, ◌<◌, ◌≤◌, if◌then◌else◌, length, IfOk, IsOkAnd, Err, MatchResult, true};
ghost use Rattle.rtcp_wire.specs.Placed.{StandsIn};
ghost use Rattle.rtcp_wire.specs.RtpHeads.{IsReserved, IsRtpHead, IsRtpFault, extension_size, without_extension, IsPadded, without_padding, has_padding, last_of, HoldsPayload, FindsAround};
ghost use Rattle.rtcp_wire.specs.declared.rtp.fault.RtpFault.{RtpFault as Fault};
ghost use Rattle.rtcp_wire.specs.Values.{RtpValue};

use crate::ids::Ids;
use crate::layout::{ID_SIZE, VERSION, WORD_SIZE};
use crate::reader::Reader;
use crate::rtp::fault::RtpFault;
use crate::rtp::fixed::{FIXED_SIZE, take_fixed};
use std::marker::Model;

/// The first payload type that is reserved, since with the marker it looks like a type of RTCP (RFC 3551, 6).
const FIRST_RESERVED: u8 = 72;

/// The last payload type that is reserved so.
const LAST_RESERVED: u8 = 76;

/// The octets of an extension before the words that it counts (RFC 3550, 5.3.1).
const EXTENSION_SIZE: usize = 4;

/// An RTP packet (RFC 3550, 5.1): what its header says, and its payload. It borrows from the octets that were
/// read.
#[derive(Debug, Drop)]
pub struct RtpHead<'a> {
    marker: bool,
    payload_type: u8,
    sequence: u16,
    timestamp: u32,
    ssrc: u32,
    csrcs: &'a [u8],
    payload: &'a [u8],
}

impl<'a> Model for RtpHead<'a> {
    ghost use Rattle.std.specs.Prelude.{◌≤◌, length};
    ghost use Rattle.rtcp_wire.specs.RtpHeads.{csrcs_in};
    ghost use Rattle.rtcp_wire.specs.Values.{RtpValue};

    ghost Value = { RtpValue };

    ghost view = { λ head. record {
      payload_type = head.payload_type;
      marker = head.marker;
      sequence = head.sequence;
      timestamp = head.timestamp;
      ssrc = head.ssrc;
      csrcs = csrcs_in head.csrcs.now;
      payload = head.payload.now;
    } };

    ghost invariant = { λ head. length (csrcs_in head.csrcs.now) ≤ 15 };
}

impl<'a> RtpHead<'a> {
    /// Reads an RTP packet from all octets of a datagram (RFC 3550, 5.1 and 5.3.1). Any length is read, and
    /// nothing is allocated.
    ///
    /// # Errors
    ///
    /// The first rule that the octets break, in this order:
    ///
    /// - [`RtpFault::Short`] where there are fewer octets than the fixed part, or than it and the CSRCs that
    ///   it counts.
    /// - [`RtpFault::Version`] where the version is not 2.
    /// - [`RtpFault::PayloadType`] where the payload type is from 72 to 76.
    /// - [`RtpFault::Extension`] where the header extension runs past the last octet.
    /// - [`RtpFault::Padding`] where the number of padding octets is missing, 0, or more than follow the
    ///   header.
    pub fn read(octets: &'a [u8]) -> Result<RtpHead<'a>, RtpFault>
        // What is read is what the octets say, and an error is their first fault.
        ensures accepted { IfOk result (λ head. IsRtpHead octets.now head) }
        ensures refused { (fault : Fault) → result ≡ Err fault → IsRtpFault octets.now fault }

        // What the octets say is read, and a first fault is found.
        ensures reads { (head : RtpValue) → IsRtpHead octets.now head →
            IsOkAnd result (λ found. found ≡ head) }
        ensures finds { (fault : Fault) → IsRtpFault octets.now fault → result ≡ Err fault }
    {
        if octets.len() < FIXED_SIZE {
            return Err(RtpFault::Short);
        }
        let mut reader = Reader::new(octets);
        let fixed = take_fixed(&mut reader);
        let csrcs_size = ID_SIZE * usize::from(fixed.csrc_count);
        if reader.left() < csrcs_size {
            return Err(RtpFault::Short);
        }
        if fixed.version != VERSION {
            return Err(RtpFault::Version);
        }
        if is_reserved(fixed.payload_type) {
            return Err(RtpFault::PayloadType);
        }
        let csrcs = reader.take(csrcs_size);
        let payload = payload_in(reader.rest(), fixed.has_extension, fixed.has_padding)?;
        Ok(RtpHead {
            marker: fixed.marker,
            payload_type: fixed.payload_type,
            sequence: fixed.sequence,
            timestamp: fixed.timestamp,
            ssrc: fixed.ssrc,
            csrcs,
            payload,
        })
    }

    /// The payload type (RFC 3550, 5.1), which says what the payload is: below 128, and none of 72 to 76.
    pub fn payload_type(&self) -> u8
        ensures { result ≡ self.now.payload_type }
    {
        self.payload_type
    }

    /// Whether the marker is set (RFC 3550, 5.1). Its meaning is the profile's.
    pub fn marker(&self) -> bool
        ensures { result ≡ self.now.marker }
    {
        self.marker
    }

    /// The sequence number (RFC 3550, 5.1), which grows by one with each packet sent, and wraps.
    pub fn sequence(&self) -> u16
        ensures { result ≡ self.now.sequence }
    {
        self.sequence
    }

    /// The timestamp (RFC 3550, 5.1), in units of the payload type's clock.
    pub fn timestamp(&self) -> u32
        ensures { result ≡ self.now.timestamp }
    {
        self.timestamp
    }

    /// The SSRC of the source that sends the packet (RFC 3550, 5.1).
    pub fn ssrc(&self) -> u32
        ensures { result ≡ self.now.ssrc }
    {
        self.ssrc
    }

    /// The contributing sources (RFC 3550, 5.1), in their order: at most 15.
    #[tactic(auto, using(crate::proofs::WalkSteps::csrcs_are_ids))]
    pub fn csrcs(&self) -> Ids<'a>
        ensures items { result ≡ self.now.csrcs }
        ensures few { length result ≤ 15 }
    {
        Ids::new(self.csrcs)
    }

    /// The payload (RFC 3550, 5.1), without the padding after it.
    pub fn payload(&self) -> &'a [u8]
        ensures { result.now ≡ self.now.payload }
    {
        self.payload
    }

    /// The octets before the payload in the datagram that was read: the fixed part, the CSRCs and the extension
    /// (RFC 3550, 5.1 and 5.3.1).
    pub fn payload_offset(&self, datagram: &[u8]) -> usize
        requires { IsRtpHead datagram.now self.now }
        ensures offset { (spelled : IsRtpHead datagram.now self.now) →
            result ≡ length spelled.fixed + length spelled.sources + length spelled.extension }
        ensures stands { StandsIn result self.now.payload datagram.now }
    {
        datagram.len() - padding_size(datagram) - self.payload().len()
    }
}

/// The octets of the padding of a packet (RFC 3550, 5.1): its last octet counts all of them.
fn padding_size(datagram: &[u8]) -> usize
    requires { 12 ≤ length datagram.now }
    ensures { result ≡ (if has_padding datagram.now then last_of datagram.now else 0) }
{
    if datagram[0] >> 5 & 1 == 1 {
        usize::from(datagram[datagram.len() - 1])
    } else {
        0
    }
}

/// Whether this payload type is one of those that are reserved (RFC 3551, 6).
fn is_reserved(payload_type: u8) -> bool
    ensures { (result ≡ true) ↔ IsReserved payload_type }
{
    payload_type >= FIRST_RESERVED && payload_type <= LAST_RESERVED
}

/// What stands between the header extension and the padding (RFC 3550, 5.3.1 and 5.1). Most packets have neither, which
/// is one test.
fn payload_in(octets: &[u8], has_extension: bool, has_padding: bool) -> Result<&[u8], RtpFault>
    ensures { MatchResult result
        (λ payload. HoldsPayload has_extension has_padding octets.now payload.now)
        (λ fault. FindsAround fault has_extension has_padding octets.now) }
{
    if !(has_extension | has_padding) {
        return Ok(octets);
    }
    let rest = unextended(octets, has_extension)?;
    unpadded(rest, has_padding)
}

/// What follows the header extension (RFC 3550, 5.3.1), where there is one.
fn unextended(octets: &[u8], has_extension: bool) -> Result<&[u8], RtpFault>
    ensures { MatchResult result
        (λ rest. (rest.now ≡ without_extension has_extension octets.now)
        × (has_extension ≡ true → extension_size octets.now ≤ length octets.now))
        (λ fault. (fault ≡ RtpFault.Extension) × (has_extension ≡ true)
        × (length octets.now < extension_size octets.now)) }
{
    let mut reader = Reader::new(octets);
    if !has_extension {
        return Ok(reader.rest());
    }
    if reader.left() < EXTENSION_SIZE {
        return Err(RtpFault::Extension);
    }
    reader.take(2);
    let words_size = WORD_SIZE * usize::from(reader.u16());
    if reader.left() < words_size {
        return Err(RtpFault::Extension);
    }
    reader.take(words_size);
    Ok(reader.rest())
}

/// What stands before the padding (RFC 3550, 5.1), where there is some.
fn unpadded(octets: &[u8], has_padding: bool) -> Result<&[u8], RtpFault>
    ensures { MatchResult result
        (λ payload. (payload.now ≡ without_padding has_padding octets.now)
        × (has_padding ≡ true → IsPadded octets.now))
        (λ fault. (fault ≡ RtpFault.Padding) × (has_padding ≡ true) × (IsPadded octets.now → ⊥)) }
{
    if !has_padding {
        return Ok(octets);
    }
    let padding = octets.last().copied().map_or(0, usize::from);
    if padding == 0 || octets.len() < padding {
        return Err(RtpFault::Padding);
    }
    let (payload, _) = octets.split_at(octets.len() - padding);
    Ok(payload)
}
