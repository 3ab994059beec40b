//! A run over text, from its order to its status.

ghost use Rattle.std.specs.Prelude.{◌≡◌, ◌≢◌, ◌≤◌, ◌⊎◌, ◌↔◌, ℕ, Some, None, Err, OnOk, IfErr};
ghost use Rattle.std.specs.Io.KnownBytes.{Keeps};
ghost use Rattle.rtcp_engine.specs.declared.config.ConfigError.{ConfigError as Refused};
ghost use Rattle.rtcp_text.specs.Counted.{AreUnfailed, FailsOnce, failures_of, inner_of};
ghost use Rattle.rtcp_text.specs.Lines.{Writes, Wrote};
ghost use Rattle.rtcp_command.specs.Orders.{AnswersOrder, IsTextOfOrder, RefusesConfig};
ghost use Rattle.rtcp_text.specs.declared.fault.LineFault.{LineFault as Fault};

use crate::fault::{RunFault, fail};
use crate::orders::TextOrder;
use rtcp_guarded_text::replay::replay_guarded;
use rtcp_json::{check_json, replay_guarded_json, replay_json};
use rtcp_plain::{check_blocks, check_plain};
use rtcp_text::Counted;
use rtcp_text::check::check_up_to;
use rtcp_text::replay::replay_up_to;
use std::alloc::Global;
use std::io::{Read, Write};

/// Runs an order over text, writes a line to `faults` where it fails, and returns the status to end with: 0
/// where all went well, 2 where the text or the configuration is refused, and 1 where reading, writing or memory
/// failed.
///
/// What was written is flushed in any case, and a failed flush is the fault `write`. A failed write of the
/// fault line is ignored.
pub fn command<R: Read + Drop, W: Write + Drop, F: Write>(
    alloc: Global,
    order: TextOrder,
    reader: R,
    writer: W,
    faults: &mut F,
) -> u8
    ensures status { (result ≡ 0) ⊎ (result ≡ 1) ⊎ (result ≡ 2) }
    // Some state of the writer holds the text that the status speaks of.
    ensures whole { result ≡ 0 → (writer_after : W)
        × Writes (R.remaining reader) (W.contents writer) (W.contents writer_after) (IsTextOfOrder order None) }
    ensures refused { result ≡ 2 → ((error : Refused) × RefusesConfig order error)
        ⊎ ((writer_after : W) × (line : ℕ) × (fault : Fault)
        × Writes (R.remaining reader) (W.contents writer) (W.contents writer_after)
        (IsTextOfOrder order (Some (line, fault)))) }
{
    let mut reader = Counted::new(reader);
    let mut writer = Counted::new(writer);
    match run(alloc, order, &mut reader, &mut writer) {
        Ok(()) => 0,
        Err(fault) => fail(fault, faults),
    }
}

/// Runs an order over text, and flushes what was written.
///
/// # Errors
///
/// Those of [`answer`], and [`RunFault::Write`] where the flush fails, whatever failed before.
fn run<R: Read, W: Write>(
    alloc: Global,
    order: TextOrder,
    reader: &mut Counted<R>,
    writer: &mut Counted<W>,
) -> Result<(), RunFault>
    requires { AreUnfailed reader.old writer.old }
    ensures answers { AnswersOrder order result (Wrote R.remaining W.contents reader.old writer.old writer.new) }
    // A failed flush comes before what else failed.
    ensures read_failed { result ≡ Err RunFault.Read → failures_of reader.new ≢ 0 }
    ensures write_failed { (result ≡ Err RunFault.Write) ↔ (failures_of writer.new ≢ 0) }
    ensures whole_read { OnOk result (failures_of reader.new ≡ 0) }
{
    let outcome = answer(alloc, order, reader, writer);
    flush(writer)?;
    outcome
}

/// Answers a text by its order.
///
/// # Errors
///
/// Those of [`check_up_to`], [`check_plain`], [`check_blocks`], [`check_json`], [`replay_up_to`], [`replay_guarded`],
/// [`replay_json`] or [`replay_guarded_json`].
fn answer<R: Read, W: Write>(
    alloc: Global,
    order: TextOrder,
    reader: &mut Counted<R>,
    writer: &mut Counted<W>,
) -> Result<(), RunFault>
    requires { AreUnfailed reader.old writer.old }
    ensures answers { AnswersOrder order result (Wrote R.remaining W.contents reader.old writer.old writer.new) }
    ensures fails { FailsOnce result RunFault.Read RunFault.Write reader.new writer.new }
{
    match order {
        TextOrder::Check { lines } => Ok(check_up_to(alloc, lines, reader, writer)?),
        TextOrder::CheckPlain { lines } => Ok(check_plain(alloc, lines, reader, writer)?),
        TextOrder::CheckBlocks { lines } => Ok(check_blocks(alloc, lines, reader, writer)?),
        TextOrder::CheckJson { lines } => Ok(check_json(alloc, lines, reader, writer)?),
        TextOrder::Replay {
            config,
            word,
            lines,
        } => Ok(replay_up_to(alloc, lines, reader, writer, config, word)?),
        TextOrder::ReplayGuarded {
            config,
            word,
            lines,
            limits,
        } => Ok(replay_guarded(alloc, lines, reader, writer, config, word, limits)?),
        TextOrder::ReplayJson {
            config,
            word,
            lines,
        } => Ok(replay_json(alloc, lines, reader, writer, config, word)?),
        TextOrder::ReplayGuardedJson {
            config,
            word,
            lines,
            limits,
        } => Ok(replay_guarded_json(alloc, lines, reader, writer, config, word, limits)?),
    }
}

/// Flushes what was written.
fn flush<W: Write>(writer: &mut Counted<W>) -> Result<(), RunFault>
    requires { failures_of writer.old ≤ 1 }
    ensures kept { Keeps (W.contents (inner_of writer.old)) (W.contents (inner_of writer.new)) }
    ensures unfailed { OnOk result (failures_of writer.new ≡ failures_of writer.old) }
    ensures failed { IfErr result (λ fault. (fault ≡ RunFault.Write) × (failures_of writer.new ≢ 0)) }
{
    writer.flush().map_err(|_| RunFault::Write)
}
