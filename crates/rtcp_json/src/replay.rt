//! A replay of a session in JSON: the answer of a participant to each line, alone or with a guard before it.

ghost use Rattle.std.specs.Prelude.{◌≡◌, ◌↔◌, Some, Err};
ghost use Rattle.rtcp_engine.specs.answers.Histories.{History};
ghost use Rattle.rtcp_engine.specs.answers.Refused.{error_in};
ghost use Rattle.rtcp_engine.specs.state.States.{StandsAt};
ghost use Rattle.rtcp_engine.specs.state.Taken.{begun};
ghost use Rattle.rtcp_engine.specs.state.Views.{setup_of};
ghost use Rattle.rtcp_engine.specs.declared.config.ConfigError.{ConfigError as Refused};
ghost use Rattle.rtcp_guarded.specs.Guarded.{GuardedHistory};
ghost use Rattle.rtcp_guarded.specs.Views as guarded_views;
ghost use Rattle.rtcp_guarded_text.specs.GuardedReplay.{guarded_begun};
ghost use Rattle.rtcp_text.specs.Counted.{AreUnfailed, FailsOnce, inner_of};
ghost use Rattle.rtcp_text.specs.Lines.{Wrote};
ghost use Rattle.rtcp_json.specs.GuardedReplayJson.{GuardedLeavesJson, ReplaysGuardedInJson};
ghost use Rattle.rtcp_json.specs.ReplayJson.{ReplaysInJson, SessionLeavesJson};

use crate::answers::push_start_json;
use crate::player::{GuardedJsonPlayer, JsonPlayer};
use rtcp_engine::{Config, Participant};
use rtcp_guarded::GuardedParticipant;
use rtcp_guarded_text::GuardLimits;
use rtcp_guarded_text::replay::begin_guarded;
use rtcp_members::{HeapTable, MemberTable};
use rtcp_text::blocks::answer_opened;
use rtcp_text::{Counted, ReplayFault, TextFault};
use std::alloc::{AllocError, Global};
use std::io::{Read, Write};

/// [`replay_up_to`](rtcp_text::replay::replay_up_to), where each line that is written holds an object of JSON: that
/// of [`push_start_json`] for the start, and that of [`push_answer_json`](crate::push_answer_json) for each answer. All
/// else is the same.
///
/// # Errors
///
/// Those of [`replay`](rtcp_text::replay::replay).
pub fn replay_json<R: Read, W: Write>(
    alloc: Global,
    lines: u32,
    reader: &mut Counted<R>,
    writer: &mut Counted<W>,
    config: Config,
    word: u32,
) -> Result<(), ReplayFault>
    requires { AreUnfailed reader.old writer.old }

    // A configuration that is refused leaves the reader and the writer as they were.
    ensures config { (error : Refused) →
        (result ≡ Err (ReplayFault.Config error)) ↔ (error_in (setup_of config) ≡ Some error) }
    ensures unread { (error : Refused) → result ≡ Err (ReplayFault.Config error) → reader.new ≡ reader.old }
    ensures unwritten { (error : Refused) → result ≡ Err (ReplayFault.Config error) → writer.new ≡ writer.old }

    ensures replays { ReplaysInJson lines (begun (setup_of config) word) result (R.remaining (inner_of reader.new))
        (Wrote R.remaining W.contents reader.old writer.old writer.new) }
    ensures fails { FailsOnce result (ReplayFault.Run TextFault.Read) (ReplayFault.Run TextFault.Write)
        reader.new writer.new }
{
    if let Some(error) = config.error() {
        return Err(ReplayFault::Config(error));
    }
    let Ok(table) = HeapTable::with_room(alloc, config.capacity) else {
        return Err(ReplayFault::Run(TextFault::Memory));
    };
    let participant = Participant::with_table(config, table, word);
    match session(alloc, lines, participant, reader, writer) {
        Ok(()) => Ok(()),
        Err(fault) => Err(ReplayFault::Run(fault)),
    }
}

/// Writes the line for the start, and answers at most `lines` lines of the reader's input by a participant.
///
/// # Errors
///
/// Those of [`replay_json`] but for `Config`.
fn session<T: MemberTable + Drop, R: Read, W: Write>(
    alloc: Global,
    lines: u32,
    participant: Participant<T>,
    reader: &mut Counted<R>,
    writer: &mut Counted<W>,
) -> Result<(), TextFault>
    requires { AreUnfailed reader.old writer.old }
    ensures leaves { (history : History) → StandsAt participant history
        → Wrote R.remaining W.contents reader.old writer.old writer.new
        (SessionLeavesJson lines history result (R.remaining (inner_of reader.new))) }
    ensures fails { FailsOnce result TextFault.Read TextFault.Write reader.new writer.new }
{
    let mut start = Vec::new(alloc);
    if let Err(AllocError) = push_start_json(&mut start, participant.next()) {
        return Err(TextFault::Memory);
    }
    let player = JsonPlayer::new(alloc, participant);
    answer_opened(alloc, lines, &start, player, reader, writer)
}

/// [`replay_guarded`](rtcp_guarded_text::replay::replay_guarded), where each line that is written holds an object of
/// JSON: that of [`push_start_json`] for the start, and that of [`push_guarded_json`](crate::push_guarded_json) for
/// each answer. All else is the same.
///
/// # Errors
///
/// Those of [`replay`](rtcp_text::replay::replay), in the same cases.
pub fn replay_guarded_json<R: Read, W: Write>(
    alloc: Global,
    lines: u32,
    reader: &mut Counted<R>,
    writer: &mut Counted<W>,
    config: Config,
    word: u32,
    limits: GuardLimits,
) -> Result<(), ReplayFault>
    requires { AreUnfailed reader.old writer.old }

    // A configuration that is refused leaves the reader and the writer as they were.
    ensures config { (error : Refused) →
        (result ≡ Err (ReplayFault.Config error)) ↔ (error_in (setup_of config) ≡ Some error) }
    ensures unread { (error : Refused) → result ≡ Err (ReplayFault.Config error) → reader.new ≡ reader.old }
    ensures unwritten { (error : Refused) → result ≡ Err (ReplayFault.Config error) → writer.new ≡ writer.old }

    ensures replays { ReplaysGuardedInJson lines (guarded_begun (setup_of config) word limits) result
        (R.remaining (inner_of reader.new)) (Wrote R.remaining W.contents reader.old writer.old writer.new) }
    ensures fails { FailsOnce result (ReplayFault.Run TextFault.Read) (ReplayFault.Run TextFault.Write)
        reader.new writer.new }
{
    if let Some(error) = config.error() {
        return Err(ReplayFault::Config(error));
    }
    let Ok(guarded) = begin_guarded(alloc, config, word, limits) else {
        return Err(ReplayFault::Run(TextFault::Memory));
    };
    match guarded_session(alloc, lines, guarded, reader, writer) {
        Ok(()) => Ok(()),
        Err(fault) => Err(ReplayFault::Run(fault)),
    }
}

/// Writes the line for the start, and answers at most `lines` lines of the reader's input by a guarded participant.
///
/// # Errors
///
/// Those of [`replay_guarded_json`] but for `Config`.
fn guarded_session<T: MemberTable + Drop, R: Read, W: Write>(
    alloc: Global,
    lines: u32,
    guarded: GuardedParticipant<T>,
    reader: &mut Counted<R>,
    writer: &mut Counted<W>,
) -> Result<(), TextFault>
    requires { AreUnfailed reader.old writer.old }
    ensures leaves { (history : GuardedHistory) → guarded_views.StandsAt guarded history
        → Wrote R.remaining W.contents reader.old writer.old writer.new
        (GuardedLeavesJson lines history result (R.remaining (inner_of reader.new))) }
    ensures fails { FailsOnce result TextFault.Read TextFault.Write reader.new writer.new }
{
    let mut start = Vec::new(alloc);
    if let Err(AllocError) = push_start_json(&mut start, guarded.participant().next()) {
        return Err(TextFault::Memory);
    }
    let player = GuardedJsonPlayer::new(alloc, guarded);
    answer_opened(alloc, lines, &start, player, reader, writer)
}
