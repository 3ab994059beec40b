//! What a guard says of a datagram before its participant takes it, for a host that keeps the two apart: one whose guard
//! is optional. A tick that is taken makes a check of the guard, and the other calls are the participant's alone.

ghost use Rattle.std.specs.Prelude.{◌≡◌, None, IfErr, IfOk, IfSome};
ghost use Rattle.rtcp_wire.specs.Grammar.{IsAccepted};
ghost use Rattle.rtcp_wire.specs.RtpHeads.{IsRtpHead};
ghost use Rattle.rtcp_engine.specs.answers.Acts.{rtcp_arrived, rtp_arrived};
ghost use Rattle.rtcp_engine.specs.state.Promises.{IsAdmitted};
ghost use Rattle.rtcp_guarded.specs.Guarded.{origin_of, reason_for};
ghost use Rattle.rtcp_guarded.specs.Promises.{HoldsBack, PassesOn};

use crate::untaken::{Reason, Untaken};
use rtcp_engine::{InspectedRtcp, InspectedRtp, Participant};
use rtcp_guard::{Guard, Verdict};
use rtcp_members::MemberTable;

/// An RTCP datagram came, of which the participant is not told yet. Returns why it is not to be: it would refuse the
/// datagram, or the guard holds this back.
pub fn judge_rtcp<T: MemberTable>(
    participant: &Participant<T>,
    guard: &mut Guard,
    now: u64,
    peer: u64,
    w: u32,
    bytes: &[u8],
) -> Option<Untaken>
    ensures held { IfSome result (λ untaken.
        HoldsBack participant.now guard.old (rtcp_arrived now peer w bytes.now) untaken guard.new) }
    ensures passes { result ≡ None →
        PassesOn participant.now guard.old (rtcp_arrived now peer w bytes.now) guard.new }
{
    match admit_rtcp(participant, guard, now, peer, w, bytes) {
        Ok(_) => None,
        Err(untaken) => Some(untaken),
    }
}

/// An RTP datagram came: as [`judge_rtcp`].
pub fn judge_rtp<T: MemberTable>(
    participant: &Participant<T>,
    guard: &mut Guard,
    now: u64,
    peer: u64,
    w: u32,
    bytes: &[u8],
) -> Option<Untaken>
    ensures held { IfSome result (λ untaken.
        HoldsBack participant.now guard.old (rtp_arrived now peer w bytes.now) untaken guard.new) }
    ensures passes { result ≡ None →
        PassesOn participant.now guard.old (rtp_arrived now peer w bytes.now) guard.new }
{
    match admit_rtp(participant, guard, now, peer, w, bytes) {
        Ok(_) => None,
        Err(untaken) => Some(untaken),
    }
}

/// An RTCP datagram came, of which the participant is not told yet. Returns what it says, for
/// [`Participant::take_rtcp_into`], which does not read it again.
///
/// # Errors
///
/// `Refused` where the participant would refuse it, or else `HeldBack` where the guard holds it back, and counts it.
// Out of line, as the next one is: a host without a guard pays for none of it.
#[inline(never)]
pub fn admit_rtcp<'a, T: MemberTable>(
    participant: &Participant<T>,
    guard: &mut Guard,
    now: u64,
    peer: u64,
    w: u32,
    bytes: &'a [u8],
) -> Result<InspectedRtcp<'a>, Untaken>
    ensures held { IfErr result (λ untaken.
        HoldsBack participant.now guard.old (rtcp_arrived now peer w bytes.now) untaken guard.new) }
    ensures passes { IfOk result (λ _.
        PassesOn participant.now guard.old (rtcp_arrived now peer w bytes.now) guard.new) }
    ensures read { IfOk result (λ inspected. IsAccepted inspected.octets.now inspected.compound) }
    ensures octets { IfOk result (λ inspected. inspected.octets.now ≡ bytes.now) }
    ensures admitted { IfOk result (λ _. IsAdmitted now participant.now) }
{
    let inspected = match participant.inspect_rtcp(now, peer, w, bytes) {
        Ok(inspected) => inspected,
        Err(refusal) => return Err(Untaken::Refused(refusal)),
    };
    let verdict = guard.arrive_rtcp(&inspected.compound, origin(peer), now, inspected.ssrc);
    match reason_of(verdict) {
        Some(reason) => Err(Untaken::HeldBack(reason)),
        None => Ok(inspected),
    }
}

/// An RTP datagram came: as [`admit_rtcp`], for [`Participant::take_rtp_into`].
///
/// # Errors
///
/// Those of [`admit_rtcp`].
#[inline(never)]
pub fn admit_rtp<'a, T: MemberTable>(
    participant: &Participant<T>,
    guard: &mut Guard,
    now: u64,
    peer: u64,
    w: u32,
    bytes: &'a [u8],
) -> Result<InspectedRtp<'a>, Untaken>
    ensures held { IfErr result (λ untaken.
        HoldsBack participant.now guard.old (rtp_arrived now peer w bytes.now) untaken guard.new) }
    ensures passes { IfOk result (λ _.
        PassesOn participant.now guard.old (rtp_arrived now peer w bytes.now) guard.new) }
    ensures read { IfOk result (λ inspected. IsRtpHead inspected.octets.now inspected.head) }
    ensures octets { IfOk result (λ inspected. inspected.octets.now ≡ bytes.now) }
    ensures admitted { IfOk result (λ _. IsAdmitted now participant.now) }
{
    let inspected = match participant.inspect_rtp(now, peer, w, bytes) {
        Ok(inspected) => inspected,
        Err(refusal) => return Err(Untaken::Refused(refusal)),
    };
    let verdict = guard.arrive_rtp(&inspected.head, origin(peer), now, inspected.ssrc);
    match reason_of(verdict) {
        Some(reason) => Err(Untaken::HeldBack(reason)),
        None => Ok(inspected),
    }
}

/// Where a datagram comes from: its peer's number without the port, which has 16 bits.
#[inline(always)]
pub fn origin(peer: u64) -> u64
    ensures { result ≡ origin_of peer }
{
    peer / (1 << 16)
}

/// Why a datagram is held back, if it is.
#[inline(always)]
fn reason_of(verdict: Verdict) -> Option<Reason>
    ensures { result ≡ reason_for verdict }
{
    match verdict {
        Verdict::Pass => None,
        Verdict::Stranger => Some(Reason::Stranger),
        Verdict::Crowd => Some(Reason::Crowd),
    }
}
