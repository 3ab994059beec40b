//! A replay of a session: a participant's answer to each line.

ghost use Rattle.std.specs.Prelude.{◌≡◌, ◌↔◌, Some, Err};
ghost use Rattle.rtcp_engine.specs.answers.Histories.{History};
ghost use Rattle.rtcp_engine.specs.answers.Refused.{error_in};
ghost use Rattle.rtcp_engine.specs.state.States.{StandsAt};
ghost use Rattle.rtcp_engine.specs.state.Taken.{begun};
ghost use Rattle.rtcp_engine.specs.state.Views.{setup_of};
ghost use Rattle.rtcp_engine.specs.declared.config.ConfigError.{ConfigError as Refused};
ghost use Rattle.rtcp_text.specs.Counted.{AreUnfailed, FailsOnce, inner_of};
ghost use Rattle.rtcp_text.specs.Lines.{Wrote};
ghost use Rattle.rtcp_text.specs.Replay.{Replays, SessionLeaves};

use crate::blocks::answer_opened;
use crate::check::MOST_LINES;
use crate::counted::Counted;
use crate::fault::{ReplayFault, TextFault};
use crate::player::Player;
use crate::text::push_start;
use rtcp_engine::{Config, Participant};
use rtcp_members::{HeapTable, MemberTable};
use std::alloc::{AllocError, Global};
use std::io::{Read, Write};

/// Reads a session, an event on each line, and writes what a participant answers: a line for the start, and
/// then a line for each event. `word` is the random word of the start.
///
/// A line has at most 131,200 octets before its line feed, which the last line may lack, and the text has at
/// most 65,536 lines. The answer to a line is written before the next line is looked at. What was answered is
/// flushed before the reader is asked for more, so a line's answer is seen while the next line is awaited;
/// what is answered after the last read is left for the caller to flush. The first call of the reader or the
/// writer that fails ends the run.
///
/// # Errors
///
/// - [`ReplayFault::Config`] where the configuration is refused: nothing is read or written.
/// - [`ReplayFault::Run`] with the faults of a run:
///   - [`TextFault::Text`] at the first line that is too long, one too many, or not an event. The answers to the
///     lines before it are written.
///   - [`TextFault::Read`] where a call of the reader fails, for whatever reason. The answers to the whole lines
///     that were read are written.
///   - [`TextFault::Write`] where a call of the writer fails, a flush included, or takes nothing. A prefix of the
///     start and the answers is written.
///   - [`TextFault::Memory`] where memory is refused. Nothing is written, or the start and the answers to the
///     first lines, at least to those that ended before the last block that was read.
pub fn replay<R: Read, W: Write>(
    alloc: Global,
    reader: &mut Counted<R>,
    writer: &mut Counted<W>,
    config: Config,
    word: u32,
) -> Result<(), ReplayFault>
    requires { AreUnfailed reader.old writer.old }

    // A configuration that is refused leaves the reader and the writer as they were.
    ensures config { (error : Refused) →
        (result ≡ Err (ReplayFault.Config error)) ↔ (error_in (setup_of config) ≡ Some error) }
    ensures unread { (error : Refused) → result ≡ Err (ReplayFault.Config error) → reader.new ≡ reader.old }
    ensures unwritten { (error : Refused) → result ≡ Err (ReplayFault.Config error) → writer.new ≡ writer.old }

    ensures replays { Replays 65536 (begun (setup_of config) word) result (R.remaining (inner_of reader.new))
        (Wrote R.remaining W.contents reader.old writer.old writer.new) }
    ensures fails { FailsOnce result (ReplayFault.Run TextFault.Read) (ReplayFault.Run TextFault.Write)
        reader.new writer.new }
{
    replay_up_to(alloc, MOST_LINES, reader, writer, config, word)
}

/// [`replay`] of a text of at most `lines` lines.
///
/// # Errors
///
/// Those of [`replay`].
pub fn replay_up_to<R: Read, W: Write>(
    alloc: Global,
    lines: u32,
    reader: &mut Counted<R>,
    writer: &mut Counted<W>,
    config: Config,
    word: u32,
) -> Result<(), ReplayFault>
    requires { AreUnfailed reader.old writer.old }

    // A configuration that is refused leaves the reader and the writer as they were.
    ensures config { (error : Refused) →
        (result ≡ Err (ReplayFault.Config error)) ↔ (error_in (setup_of config) ≡ Some error) }
    ensures unread { (error : Refused) → result ≡ Err (ReplayFault.Config error) → reader.new ≡ reader.old }
    ensures unwritten { (error : Refused) → result ≡ Err (ReplayFault.Config error) → writer.new ≡ writer.old }

    ensures replays { Replays lines (begun (setup_of config) word) result (R.remaining (inner_of reader.new))
        (Wrote R.remaining W.contents reader.old writer.old writer.new) }
    ensures fails { FailsOnce result (ReplayFault.Run TextFault.Read) (ReplayFault.Run TextFault.Write)
        reader.new writer.new }
{
    if let Some(error) = config.error() {
        return Err(ReplayFault::Config(error));
    }
    let Ok(table) = HeapTable::with_room(alloc, config.capacity) else {
        return Err(ReplayFault::Run(TextFault::Memory));
    };
    let participant = Participant::with_table(config, table, word);
    match session(alloc, lines, participant, reader, writer) {
        Ok(()) => Ok(()),
        Err(fault) => Err(ReplayFault::Run(fault)),
    }
}

/// Writes the line for the start, and answers at most `lines` lines of the reader's input by a participant.
///
/// # Errors
///
/// Those of [`replay`] but for `Config`.
fn session<T: MemberTable + Drop, R: Read, W: Write>(
    alloc: Global,
    lines: u32,
    participant: Participant<T>,
    reader: &mut Counted<R>,
    writer: &mut Counted<W>,
) -> Result<(), TextFault>
    requires { AreUnfailed reader.old writer.old }
    ensures leaves { (history : History) → StandsAt participant history
        → Wrote R.remaining W.contents reader.old writer.old writer.new
        (SessionLeaves lines history result (R.remaining (inner_of reader.new))) }
    ensures fails { FailsOnce result TextFault.Read TextFault.Write reader.new writer.new }
{
    let mut start = Vec::new(alloc);
    if let Err(AllocError) = push_start(&mut start, participant.next()) {
        return Err(TextFault::Memory);
    }
    let player = Player::new(alloc, participant);
    answer_opened(alloc, lines, &start, player, reader, writer)
}
