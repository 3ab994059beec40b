//! The calls of a session: what came, what was sent, what time it is, other settings, a source that is gone, and the
//! leave. Each is told what the host's clock shows, and counts from the start.

ghost use Rattle.std.specs.Prelude.{◌≡◌, ◌≤◌, ◌<◌, ℕ, Some, None, length};
ghost use Rattle.rtcp_engine.specs.answers.Acts.{forget_asked, leave_asked, packet_sent, rtcp_arrived, rtp_arrived, time_passed};
ghost use Rattle.rtcp_engine.specs.answers.Acts.{settings_given as settings_told};
ghost use Rattle.jalwedd_host.specs.Configs.{oversize_of_settings, settings_given};
ghost use Rattle.jalwedd_host.specs.Guards.{TellsGuarded};
ghost use Rattle.jalwedd_host.specs.Handles.{IsUnguarded};
ghost use Rattle.jalwedd_host.specs.Promises.{SparesArrival, SparesSession, TellsSession, TurnsAway};

use jalwedd_host::config::{Item, Settings, blank_settings, fill_settings};
use jalwedd_host::handle::Handle;
use jalwedd_host::status::{TAKEN, TOO_LONG};
use jalwedd_host::step::{Handing, HostStep};
use std::alloc::Global;

/// The most octets of a UDP datagram.
pub(crate) const LONGEST: usize = 65_535;

/// An RTCP datagram came when the host's clock showed `now`, in microseconds, with the octets that UDP carried, at most
/// 65,535. `peer` is a number for where it came from, which two peers do not share, and `word` a random word for a new
/// SSRC (RFC 3550, 8.2).
///
/// Statuses: 0; 1 to 5 and 7, by the first of E1 to E5 and E7 that applies, where a call before the start is refused
/// by E1 or E2; else 24 or 25 where the guard holds the datagram back; 20 where the handle is empty.
#[unsafe(no_mangle)]
pub extern "C" fn jalwedd_arrive_rtcp(
    alloc: Global,
    handle: &mut Handle,
    now: u64,
    peer: u64,
    word: u32,
    datagram: &[u8],
    step: &mut HostStep,
    octets: &mut [u8; 1472],
) -> u32
    ensures tells { IsUnguarded handle.old.owned.held →
        TellsSession (λ moment. rtcp_arrived moment peer word datagram.now) now handle.old.owned.held
        handle.new.owned.held result step.new octets.old octets.new }
    ensures guarded { TellsGuarded (λ moment. rtcp_arrived moment peer word datagram.now) now handle.old.owned.held
        handle.new.owned.held result step.new octets.old octets.new }
    ensures unguarded { IsUnguarded handle.old.owned.held → IsUnguarded handle.new.owned.held }
    ensures spares { SparesArrival handle.old.owned.held handle.new.owned.held result step.new octets.old octets.new }
{
    let (mut session, moment) = match handle.open(alloc, now, step) {
        Ok(opened) => opened,
        Err(status) => return status,
    };
    let status = session.judge_rtcp(moment, peer, word, datagram);
    if status != TAKEN {
        return handle.put_back_untold(session, status, step);
    }
    let reply = session
        .participant
        .arrive_rtcp_into(moment, peer, word, datagram, octets);
    handle.put_back(session, &reply, Handing::Seldom, step)
}

/// An RTP datagram came, with the octets that UDP carried: as `jalwedd_arrive_rtcp`. Of one of more than 65,535 octets
/// none is read, so that a host may give a size of -1 for what it did not receive.
///
/// Statuses: 0; 20 where the handle is empty; else 23 where the datagram has more than 65,535 octets; else 1 to 4, 6
/// and 7, by the first of E1 to E4, E6 and E7 that applies, where a call before the start is refused by E1 or E2; else
/// 24 or 25 where the guard holds the datagram back.
#[unsafe(no_mangle)]
pub extern "C" fn jalwedd_arrive_rtp(
    alloc: Global,
    handle: &mut Handle,
    now: u64,
    peer: u64,
    word: u32,
    datagram: &[u8],
    step: &mut HostStep,
    octets: &mut [u8; 1472],
) -> u32
    ensures tells { length datagram.now ≤ 65535 → IsUnguarded handle.old.owned.held →
        TellsSession (λ moment. rtp_arrived moment peer word datagram.now) now
        handle.old.owned.held handle.new.owned.held result step.new octets.old octets.new }
    ensures guarded { length datagram.now ≤ 65535 → TellsGuarded (λ moment. rtp_arrived moment peer word datagram.now)
        now handle.old.owned.held handle.new.owned.held result step.new octets.old octets.new }
    ensures turns_away { 65535 < length datagram.now →
        TurnsAway 23 handle.old.owned.held result step.new octets.old octets.new }
    ensures unguarded { IsUnguarded handle.old.owned.held → IsUnguarded handle.new.owned.held }
    ensures spares { SparesArrival handle.old.owned.held handle.new.owned.held result step.new octets.old octets.new }
{
    if datagram.len() > LONGEST {
        return handle.turn_away(alloc, TOO_LONG, step);
    }
    let (mut session, moment) = match handle.open(alloc, now, step) {
        Ok(opened) => opened,
        Err(status) => return status,
    };
    let status = session.judge_rtp(moment, peer, word, datagram);
    if status != TAKEN {
        return handle.put_back_untold(session, status, step);
    }
    let reply = session
        .participant
        .arrive_rtp_into(moment, peer, word, datagram, octets);
    handle.put_back(session, &reply, Handing::Seldom, step)
}

/// The host sent an RTP packet when its clock showed `now`, in microseconds, with this RTP timestamp and so many octets
/// of payload, without padding (RFC 3550, 6.3.8, 6.4.1). This never hands out anything.
///
/// Statuses: 0; 1 to 4, by the first of E1 to E4 that applies, where a call before the start is refused by E1 or E2; 20
/// where the handle is empty.
#[unsafe(no_mangle)]
pub extern "C" fn jalwedd_sent_rtp(
    alloc: Global,
    handle: &mut Handle,
    now: u64,
    timestamp: u32,
    size: u32,
    step: &mut HostStep,
    octets: &mut [u8; 1472],
) -> u32
    ensures tells { TellsSession (λ moment. packet_sent moment timestamp size) now handle.old.owned.held
        handle.new.owned.held result step.new octets.old octets.new }
    ensures guarded { TellsGuarded (λ moment. packet_sent moment timestamp size) now handle.old.owned.held
        handle.new.owned.held result step.new octets.old octets.new }
    ensures nothing { (step.new.kind ≡ 0) × (octets.new ≡ octets.old) }
    ensures unguarded { IsUnguarded handle.old.owned.held → IsUnguarded handle.new.owned.held }
    ensures spares { SparesSession handle.old.owned.held handle.new.owned.held result step.new octets.old octets.new }
{
    let (mut session, moment) = match handle.open(alloc, now, step) {
        Ok(opened) => opened,
        Err(status) => return status,
    };
    let reply = session
        .participant
        .sent_rtp_into(moment, timestamp, size, octets);
    handle.put_back(session, &reply, Handing::Seldom, step)
}

/// Asks, when the host's clock shows `now`, in microseconds, whether a report is due, or the BYE of a participant that
/// backs off (RFC 3550, 6.3.5, 6.3.6). There are two random words: one for the draw that decides it, and one for that
/// of the next interval.
///
/// Statuses: 0; 1 to 4, by the first of E1 to E4 that applies, where a call before the start is refused by E1 or E2; 20
/// where the handle is empty.
#[unsafe(no_mangle)]
pub extern "C" fn jalwedd_tick(
    alloc: Global,
    handle: &mut Handle,
    now: u64,
    first_word: u32,
    second_word: u32,
    step: &mut HostStep,
    octets: &mut [u8; 1472],
) -> u32
    ensures tells { TellsSession (λ moment. time_passed moment first_word second_word) now handle.old.owned.held
        handle.new.owned.held result step.new octets.old octets.new }
    ensures guarded { TellsGuarded (λ moment. time_passed moment first_word second_word) now handle.old.owned.held
        handle.new.owned.held result step.new octets.old octets.new }
    ensures unguarded { IsUnguarded handle.old.owned.held → IsUnguarded handle.new.owned.held }
    ensures spares { SparesSession handle.old.owned.held handle.new.owned.held result step.new octets.old octets.new }
{
    let (mut session, moment) = match handle.open(alloc, now, step) {
        Ok(opened) => opened,
        Err(status) => return status,
    };
    let reply = session.tick(moment, first_word, second_word, octets);
    handle.put_back(session, &reply, Handing::Often, step)
}

/// Changes the settings of the session when the host's clock shows `now`, in microseconds, to these and these items
/// beside the CNAME (RFC 3550, 6.2, 6.5). They hold from then on: the next interval that is computed is the first by
/// the new bandwidths, and the next RTP packet that comes the first by the new clocks. This never hands out anything.
///
/// Statuses: 0; 20 where the handle is empty; else 16 where there are more than 7 items, and then 15 where there are
/// more than 16 clocks, or a payload type is above 255; else 1 to 4 and 14 to 16, by the first of E1 to E4 and E8 that
/// applies, where a call before the start is refused by E1 or E2, and E8 is told by the first of C4 to C6.
#[unsafe(no_mangle)]
pub extern "C" fn jalwedd_configure(
    alloc: Global,
    handle: &mut Handle,
    now: u64,
    settings: &Settings,
    items: &[Item],
    step: &mut HostStep,
    octets: &mut [u8; 1472],
) -> u32
    ensures tells { oversize_of_settings settings.now items.now ≡ None →
        TellsSession (λ moment. settings_told moment (settings_given settings.now items.now)) now
        handle.old.owned.held handle.new.owned.held result step.new octets.old octets.new }
    ensures guarded { oversize_of_settings settings.now items.now ≡ None →
        TellsGuarded (λ moment. settings_told moment (settings_given settings.now items.now)) now
        handle.old.owned.held handle.new.owned.held result step.new octets.old octets.new }
    ensures turns_away { (status : ℕ) → oversize_of_settings settings.now items.now ≡ Some status →
        TurnsAway status handle.old.owned.held result step.new octets.old octets.new }
    ensures nothing { (step.new.kind ≡ 0) × (octets.new ≡ octets.old) }
    ensures unguarded { IsUnguarded handle.old.owned.held → IsUnguarded handle.new.owned.held }
    ensures spares { SparesSession handle.old.owned.held handle.new.owned.held result step.new octets.old octets.new }
{
    let mut given = blank_settings();
    if let Some(status) = fill_settings(&mut given, settings, items) {
        return handle.turn_away(alloc, status, step);
    }
    let (mut session, moment) = match handle.open(alloc, now, step) {
        Ok(opened) => opened,
        Err(status) => return status,
    };
    let reply = session.participant.configure_into(moment, &given, octets);
    handle.put_back(session, &reply, Handing::Seldom, step)
}

/// Tells, when the host's clock shows `now`, in microseconds, that another source is gone, as the host knows by other
/// means, or so decides. Its entry goes as if it had been silent for too long (RFC 3550, 6.3.5), which makes room for
/// another source, and what was counted of it is dropped. Named again, it comes as a new one. Nothing changes where the
/// source has no entry, sent a BYE or is the participant itself, and in a backoff. This never hands out anything.
///
/// Statuses: 0; 1 to 4, by the first of E1 to E4 that applies, where a call before the start is refused by E1 or E2; 20
/// where the handle is empty.
#[unsafe(no_mangle)]
pub extern "C" fn jalwedd_forget(
    alloc: Global,
    handle: &mut Handle,
    now: u64,
    ssrc: u32,
    step: &mut HostStep,
    octets: &mut [u8; 1472],
) -> u32
    ensures tells { TellsSession (λ moment. forget_asked moment ssrc) now handle.old.owned.held
        handle.new.owned.held result step.new octets.old octets.new }
    ensures guarded { TellsGuarded (λ moment. forget_asked moment ssrc) now handle.old.owned.held
        handle.new.owned.held result step.new octets.old octets.new }
    ensures nothing { (step.new.kind ≡ 0) × (octets.new ≡ octets.old) }
    ensures unguarded { IsUnguarded handle.old.owned.held → IsUnguarded handle.new.owned.held }
    ensures spares { SparesSession handle.old.owned.held handle.new.owned.held result step.new octets.old octets.new }
{
    let (mut session, moment) = match handle.open(alloc, now, step) {
        Ok(opened) => opened,
        Err(status) => return status,
    };
    let reply = session.participant.forget_into(moment, ssrc, octets);
    handle.put_back(session, &reply, Handing::Seldom, step)
}

/// Leaves the session when the host's clock shows `now`, in microseconds, with a random word for the draw of a backoff
/// (RFC 3550, 6.3.7). The BYE goes out at once, or from a tick: go on until the step's `next` is 2^64 - 1.
///
/// Statuses: 0; 1 to 4, by the first of E1 to E4 that applies, where a call before the start is refused by E1 or E2; 20
/// where the handle is empty.
#[unsafe(no_mangle)]
pub extern "C" fn jalwedd_leave(
    alloc: Global,
    handle: &mut Handle,
    now: u64,
    word: u32,
    step: &mut HostStep,
    octets: &mut [u8; 1472],
) -> u32
    ensures tells { TellsSession (λ moment. leave_asked moment word) now handle.old.owned.held
        handle.new.owned.held result step.new octets.old octets.new }
    ensures guarded { TellsGuarded (λ moment. leave_asked moment word) now handle.old.owned.held
        handle.new.owned.held result step.new octets.old octets.new }
    ensures unguarded { IsUnguarded handle.old.owned.held → IsUnguarded handle.new.owned.held }
    ensures spares { SparesSession handle.old.owned.held handle.new.owned.held result step.new octets.old octets.new }
{
    let (mut session, moment) = match handle.open(alloc, now, step) {
        Ok(opened) => opened,
        Err(status) => return status,
    };
    let reply = session.participant.leave_into(moment, word, octets);
    handle.put_back(session, &reply, Handing::Often, step)
}
