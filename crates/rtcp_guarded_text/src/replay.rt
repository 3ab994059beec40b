//! A replay of a session with a guard: a guarded participant's answer to each line.

ghost use Rattle.std.specs.Prelude.{◌≡◌, ◌↔◌, IfOk, Some, None, Err};
ghost use Rattle.rtcp_engine.specs.answers.Refused.{error_in};
ghost use Rattle.rtcp_engine.specs.state.Views.{setup_of};
ghost use Rattle.rtcp_engine.specs.declared.config.ConfigError.{ConfigError as Refused};
ghost use Rattle.rtcp_guarded.specs.Guarded.{GuardedHistory};
ghost use Rattle.rtcp_guarded.specs.Views.{StandsAt};
ghost use Rattle.rtcp_text.specs.Counted.{AreUnfailed, FailsOnce, inner_of};
ghost use Rattle.rtcp_text.specs.Lines.{Wrote};
ghost use Rattle.rtcp_guarded_text.specs.GuardedReplay.{GuardedLeaves, ReplaysGuarded, guarded_begun};

use crate::limits::GuardLimits;
use crate::player::GuardedPlayer;
use rtcp_engine::{Config, Participant};
use rtcp_guard::Guard;
use rtcp_guarded::GuardedParticipant;
use rtcp_members::{HeapTable, MemberTable};
use rtcp_text::blocks::answer_opened;
use rtcp_text::text::push_start;
use rtcp_text::{Counted, ReplayFault, TextFault};
use std::alloc::{AllocError, Global};
use std::io::{Read, Write};

/// Reads a session of at most `lines` lines, an event on each, and writes what a participant with a guard before it
/// answers, as [`replay_up_to`](rtcp_text::replay::replay_up_to) does of a participant alone. `word` is the random word
/// of the start. No origin is expected, and none trusted.
///
/// # Errors
///
/// Those of [`replay_up_to`](rtcp_text::replay::replay_up_to), in the same cases.
pub fn replay_guarded<R: Read, W: Write>(
    alloc: Global,
    lines: u32,
    reader: &mut Counted<R>,
    writer: &mut Counted<W>,
    config: Config,
    word: u32,
    limits: GuardLimits,
) -> Result<(), ReplayFault>
    requires { AreUnfailed reader.old writer.old }

    // A configuration that is refused leaves the reader and the writer as they were.
    ensures config { (error : Refused) →
        (result ≡ Err (ReplayFault.Config error)) ↔ (error_in (setup_of config) ≡ Some error) }
    ensures unread { (error : Refused) → result ≡ Err (ReplayFault.Config error) → reader.new ≡ reader.old }
    ensures unwritten { (error : Refused) → result ≡ Err (ReplayFault.Config error) → writer.new ≡ writer.old }

    ensures replays { ReplaysGuarded lines (guarded_begun (setup_of config) word limits) result
        (R.remaining (inner_of reader.new)) (Wrote R.remaining W.contents reader.old writer.old writer.new) }
    ensures fails { FailsOnce result (ReplayFault.Run TextFault.Read) (ReplayFault.Run TextFault.Write)
        reader.new writer.new }
{
    if let Some(error) = config.error() {
        return Err(ReplayFault::Config(error));
    }
    let Ok(guarded) = begin_guarded(alloc, config, word, limits) else {
        return Err(ReplayFault::Run(TextFault::Memory));
    };
    match session(alloc, lines, guarded, reader, writer) {
        Ok(()) => Ok(()),
        Err(fault) => Err(ReplayFault::Run(fault)),
    }
}

/// A participant of a usable configuration, whose table is on the heap, with a guard before it.
///
/// # Errors
///
/// There is no memory.
pub fn begin_guarded(
    alloc: Global,
    config: Config,
    word: u32,
    limits: GuardLimits,
) -> Result<GuardedParticipant<HeapTable>, AllocError>
    requires { error_in (setup_of config) ≡ None }
    ensures { IfOk result (λ guarded. StandsAt guarded (guarded_begun (setup_of config) word limits)) }
{
    let capacity = config.capacity;
    let table = HeapTable::with_room(alloc, capacity)?;
    let guard = Guard::new(alloc, limits.settings(capacity as u16))?;
    Ok(GuardedParticipant::new(Participant::with_table(config, table, word), guard))
}

/// Writes the line for the start, and answers at most `lines` lines of the reader's input by a guarded participant.
///
/// # Errors
///
/// Those of [`replay_guarded`] but for `Config`.
fn session<T: MemberTable + Drop, R: Read, W: Write>(
    alloc: Global,
    lines: u32,
    guarded: GuardedParticipant<T>,
    reader: &mut Counted<R>,
    writer: &mut Counted<W>,
) -> Result<(), TextFault>
    requires { AreUnfailed reader.old writer.old }
    ensures leaves { (history : GuardedHistory) → StandsAt guarded history
        → Wrote R.remaining W.contents reader.old writer.old writer.new
        (GuardedLeaves lines history result (R.remaining (inner_of reader.new))) }
    ensures fails { FailsOnce result TextFault.Read TextFault.Write reader.new writer.new }
{
    let mut start = Vec::new(alloc);
    if let Err(AllocError) = push_start(&mut start, guarded.participant().next()) {
        return Err(TextFault::Memory);
    }
    let player = GuardedPlayer::new(alloc, guarded);
    answer_opened(alloc, lines, &start, player, reader, writer)
}
