//! Laws of what a printer tells and knows. Each is an empty function whose postcondition is the law.

ghost use Rattle.std.specs.Prelude.{◌≡◌, ◌≤◌, ◌∷◌, ℕ, List, None, Ok, length, map, true};
ghost use Rattle.rtcp_engine.specs.answers.Acts.{Act, EventValue, IsActOfEvent, left};
ghost use Rattle.rtcp_engine.specs.answers.Answers.{step_by};
ghost use Rattle.rtcp_engine.specs.answers.Histories.{History, life_at, with_act};
ghost use Rattle.rtcp_engine.specs.answers.Leaving.{Life};
ghost use Rattle.rtcp_engine.specs.answers.Lives.{WalksInLife};
ghost use Rattle.rtcp_engine.specs.answers.Setups.{Setup};
ghost use Rattle.rtcp_members.specs.Listings.{StateValue};
ghost use Rattle.rtcp_show.specs.Changes.{lists_anew};
ghost use Rattle.rtcp_show.specs.Listings.{takes_part, state_at};
ghost use Rattle.rtcp_show.specs.Notes.{NoteValue};
ghost use Rattle.rtcp_show.specs.Observations.{IsRead, Knows, Observation, heard_of, newest_note, note_of};
ghost use Rattle.rtcp_show.specs.ShortRows.{rank_of, short_row_text, shown_count};
ghost use Rattle.rtcp_show.specs.Watchers.{Watches};
ghost use Rattle.rtcp_show.specs.declared.flows.Flow.{Flow};
ghost use Rattle.rtcp_show.specs.declared.printer.Printer.{Printer};

use std::io::Write;

/// Where the sources are listed anew after an event, by its answer, the participant still takes part: so the lines of
/// who changed compare with nobody's empty listing.
pub fn listings_are_of_participants()
    ensures { (history : History) (event : EventValue) (act : Act) → IsActOfEvent event act →
        lists_anew event (Ok (step_by history act)) ≡ true → takes_part (life_at (with_act history act)) ≡ true }
{}

/// After a leave nobody is listed.
pub fn leavers_list_nobody()
    ensures { (history : History) (moment word ssrc : ℕ) →
        state_at (with_act history (left moment word)) ssrc ≡ None }
{}

/// A printer that knew what follows from all that it saw, and that writes and keeps what it should of one more, knows
/// what follows from all.
pub fn printers_know_what_they_saw<W: Write>()
    ensures { (seen : Observation) (earlier : List Observation) (before after : Printer W) → IsRead seen →
        Knows before earlier → Watches W.contents seen.event seen.answer seen.history before after →
        Knows after (seen ∷ earlier) }
{}

/// A note holds, of what came while its source was listed and since it was forgotten last, the newest CNAME of the
/// source, and the round trip by its newest block about the participant that has an LSR.
pub fn notes_hold_the_newest()
    ensures { (ntp_base ssrc : ℕ) (all : List Observation) →
        note_of ntp_base all ssrc ≡ newest_note ntp_base (heard_of all ssrc) ssrc }
{}

/// A short row has at most 100 octets, and a line feed.
pub fn short_rows_fit()
    ensures { (state : StateValue) (note : NoteValue) (flow : Flow) → length (short_row_text state note flow) ≤ 101 }
{}

/// Of the sources of a session so many at most are shown in short rows.
pub fn few_sources_are_shown()
    ensures { (setup : Setup) (life : Life) (states : List StateValue) (most : ℕ) → WalksInLife setup life states →
        shown_count most (map rank_of states) ≤ most }
{}
