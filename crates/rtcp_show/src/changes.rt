//! The lines of sources whose roles changed.

ghost use Rattle.std.specs.Prelude.{◌≡◌, ◌++◌, [], Bool, List, ℕ, OnOk, map, true};
ghost use Rattle.std.specs.List.{flat_map};
ghost use Rattle.rtcp_engine.specs.answers.Histories.{History, life_at, setup_at};
ghost use Rattle.rtcp_engine.specs.answers.Lives.{WalksInLife};
ghost use Rattle.rtcp_engine.specs.state.States.{StandsAt};
ghost use Rattle.rtcp_listing.specs.Differences.{changes, listed_of, rises_from};
ghost use Rattle.rtcp_members.specs.ListViews.{state_value};
ghost use Rattle.rtcp_engine.specs.state.Views.{event_value};
ghost use Rattle.rtcp_guarded.specs.Views.{guarded_value};
ghost use Rattle.rtcp_show.specs.Numbers.{moment_text};
ghost use Rattle.rtcp_show.specs.Times.{when_text};
ghost use Rattle.rtcp_show.specs.Changes.{KeepsListing, ShowsChanges, change_text, changes_text, is_forgetting, is_leave, line_where, lists_anew, shows_others, shown_changes};

use crate::times::{Clock, When, push_when};
use rtcp_engine::{Event, Participant};
use rtcp_guarded::GuardedAnswer;
use rtcp_listing::{Change, Changes, is_rising};
use rtcp_members::{MemberTable, SourceState};
use rtcp_text::text::digits::push_word;
use std::alloc::{AllocError, Global};
use std::mem;

/// The sources, as they were after the last event that changed a role.
#[derive(Drop)]
pub(crate) struct Roles {
    listing: Vec<SourceState>,
    /// Room for the next ones.
    next: Vec<SourceState>,
}

impl Roles {
    ghost use Rattle.rtcp_show.specs.Watchers.{listed_in};

    /// Nobody is listed yet.
    pub(crate) fn new(alloc: Global) -> Roles
        ensures { listed_in result ≡ [] }
    {
        Roles {
            listing: Vec::new(alloc),
            next: Vec::new(alloc),
        }
    }

    /// Lists the sources anew, and appends whose roles changed since they were listed last, if that is told.
    pub(crate) fn compose<T: MemberTable>(
        &mut self,
        out: &mut Vec<u8>,
        told: bool,
        when: When,
        participant: &Participant<T>,
    ) -> Result<(), AllocError>
        ensures composed { (history : History) → StandsAt participant.now history →
            OnOk result ((changes : List ℕ) × ShowsChanges told (when_text when) history (listed_in self.old) changes
            × (out.new.items ≡ out.old.items ++ changes)) }
        ensures keeps { (history : History) → StandsAt participant.now history →
            OnOk result (KeepsListing true history (listed_in self.old) (listed_in self.new)) }
    {
        self.next.clear();
        push_listing(&mut self.next, participant)?;
        push_if_shown(out, told, when, &self.listing, &self.next)?;
        mem::swap(&mut self.listing, &mut self.next);
        Ok(())
    }
}

/// Whether the sources are listed anew after an event: its answer says that others changed their roles, and it is no
/// leave, after which nobody is listed.
pub(crate) fn lists_anew(event: &Event<'_>, answer: &GuardedAnswer) -> bool
    ensures { result ≡ lists_anew (event_value event.now) (guarded_value answer.now) }
{
    match answer {
        Ok(step) => step.others_changed && !is_leave(event),
        Err(_) => false,
    }
}

/// Whether lines say whose roles changed: not where the host forgot a source.
pub(crate) fn shows_others(event: &Event<'_>, answer: &GuardedAnswer) -> bool
    ensures { result ≡ shows_others (event_value event.now) (guarded_value answer.now) }
{
    lists_anew(event, answer) && !is_forgetting(event)
}

/// Whether the host asked the participant to leave.
fn is_leave(event: &Event<'_>) -> bool
    ensures { result ≡ is_leave (event_value event.now) }
{
    matches!(event, Event::Leave { .. })
}

/// Whether the host said that a source is gone.
fn is_forgetting(event: &Event<'_>) -> bool
    ensures { result ≡ is_forgetting (event_value event.now) }
{
    matches!(event, Event::Forget { .. })
}

/// Appends the sources that the participant tells of to a list.
pub(crate) fn push_listing<T: MemberTable>(
    listing: &mut Vec<SourceState>,
    participant: &Participant<T>,
) -> Result<(), AllocError>
    requires { listing.old.items ≡ [] }
    ensures { (history : History) → StandsAt participant.now history →
        OnOk result (WalksInLife (setup_at history) (life_at history) (map state_value listing.new.items)) }
{
    for state in participant.sources() {
        listing.push(state)?;
    }
    Ok(())
}

/// Appends what changed between two listings, if that is told.
fn push_if_shown(
    out: &mut Vec<u8>,
    told: bool,
    when: When,
    before: &[SourceState],
    after: &[SourceState],
) -> Result<(), AllocError>
    ensures { OnOk result (out.new.items ≡ out.old.items
        ++ shown_changes told (when_text when) (map (λ state. listed_of (state_value state)) before.now)
        (map (λ state. listed_of (state_value state)) after.now)) }
{
    if told {
        push_changes(out, when, before, after)
    } else {
        Ok(())
    }
}

/// Appends a line for each source that joined, left, began or ceased to send between two listings.
///
/// - `4.500000 joined=00000007`: it is a member, and was none.
/// - `4.500000 began-sending=00000007`: it is a sender, and was none.
/// - `4.500000 stopped-sending=00000007`: it was a sender, and is none.
/// - `4.500000 bye=00000007`: it was a member, and sent a BYE.
/// - `4.500000 timed-out=00000007`: it was a member, and was dropped without a BYE.
fn push_changes(
    out: &mut Vec<u8>,
    when: When,
    before: &[SourceState],
    after: &[SourceState],
) -> Result<(), AllocError>
    ensures { OnOk result (out.new.items ≡ out.old.items
        ++ changes_text (when_text when) (map (λ state. listed_of (state_value state)) before.now)
        (map (λ state. listed_of (state_value state)) after.now)) }
{
    if is_rising(before) && is_rising(after) {
        push_all(out, when, before, after)
    } else {
        Ok(())
    }
}

/// The same of listings that rise.
fn push_all(
    out: &mut Vec<u8>,
    when: When,
    before: &[SourceState],
    after: &[SourceState],
) -> Result<(), AllocError>
    requires before { rises_from 0 (map (λ state. listed_of (state_value state)) before.now) ≡ true }
    requires after { rises_from 0 (map (λ state. listed_of (state_value state)) after.now) ≡ true }
    ensures { OnOk result (out.new.items ≡ out.old.items
        ++ flat_map (change_text (when_text when)) (changes (map (λ state. listed_of (state_value state)) before.now)
        (map (λ state. listed_of (state_value state)) after.now))) }
{
    for change in Changes::of(before, after) {
        push_change_at(out, when, &change)?;
    }
    Ok(())
}

/// Appends the lines of what changed of a source, with the moment in seconds.
pub fn push_change(out: &mut Vec<u8>, moment: u64, change: &Change) -> Result<(), AllocError>
    ensures { OnOk result (out.new.items ≡ out.old.items ++ change_text (moment_text moment) change.now) }
{
    let when = When {
        clock: Clock::Session,
        moment,
    };
    push_change_at(out, when, change)
}

/// Appends the lines of what changed of a source, with this moment.
fn push_change_at(out: &mut Vec<u8>, when: When, change: &Change) -> Result<(), AllocError>
    ensures { OnOk result (out.new.items ≡ out.old.items ++ change_text (when_text when) change.now) }
{
    let ssrc = change.ssrc;
    push_where(out, change.joined(), when, b" joined=", ssrc)?;
    push_where(out, change.began_to_send(), when, b" began-sending=", ssrc)?;
    push_where(
        out,
        change.stopped_sending(),
        when,
        b" stopped-sending=",
        ssrc,
    )?;
    push_where(out, change.left(), when, b" bye=", ssrc)?;
    push_where(out, change.went_without_bye(), when, b" timed-out=", ssrc)?;
    Ok(())
}

/// Appends a moment, a word and a source, where it is so.
fn push_where(
    out: &mut Vec<u8>,
    so: bool,
    when: When,
    word: &[u8],
    ssrc: u32,
) -> Result<(), AllocError>
    ensures { OnOk result (out.new.items ≡ out.old.items ++ line_where so (when_text when) word.now ssrc) }
{
    if !so {
        return Ok(());
    }
    push_when(out, when)?;
    out.extend_from_slice(word)?;
    push_word(out, ssrc)?;
    out.push(b'\n')?;
    Ok(())
}
