//! The record of a session, and the command that plays it again.

use crate::record_file::RecordFile;
use rtcp_command::replay_command::{replay_guarded_line, replay_line};
use rtcp_command::session_recorder::SessionRecorder;
use rtcp_command::{ListenOrder, RunFault};
use rtcp_text::record::Recorder;
use std::alloc::Global;
use std::fs::{self, File};
use std::io::{Stderr, Write};

/// What records the session of an order, if a file is named for that.
///
/// # Errors
///
/// Those of [`begin_record`].
pub(crate) fn recorder_of(
    rt: &HostRuntime,
    order: &ListenOrder,
    word: u32,
) -> Result<Option<SessionRecorder<RecordFile, Stderr>>, RunFault> {
    let Some(file) = &order.recording else {
        return Ok(None);
    };
    let recorder = begin_record(rt, order, word, file)?;
    Ok(Some(SessionRecorder {
        recorder,
        faults: rt.stderr(),
    }))
}

/// What is written to standard error after a session: where it is recorded and shown, the command that plays the record
/// again, which by then stands far above.
///
/// # Errors
///
/// [`RunFault::Memory`] where memory is refused.
pub(crate) fn closing(
    rt: &HostRuntime,
    order: &ListenOrder,
    word: u32,
) -> Result<Vec<u8>, RunFault> {
    match &order.recording {
        Some(file) if order.show => command_again(rt.alloc(), order, word, file),
        _ => Ok(Vec::new(rt.alloc())),
    }
}

/// The command that plays the record of a session again.
///
/// # Errors
///
/// [`RunFault::Memory`] where memory is refused.
fn command_again(
    alloc: Global,
    order: &ListenOrder,
    word: u32,
    file: &str,
) -> Result<Vec<u8>, RunFault> {
    let line = match order.guard {
        None => replay_line(alloc, &order.config, word, file),
        Some(limits) => replay_guarded_line(alloc, &order.config, word, limits, file),
    };
    line.map_err(|_| RunFault::Memory)
}

/// Creates the file of a record, and writes to standard error the command that plays it again. A failed write there is
/// ignored.
///
/// # Errors
///
/// - Those of [`created`].
/// - [`RunFault::Memory`] where memory is refused.
fn begin_record(
    rt: &HostRuntime,
    order: &ListenOrder,
    word: u32,
    file: &str,
) -> Result<Recorder<RecordFile>, RunFault> {
    let writer = RecordFile::new(created(rt, file, order.overwrites)?);
    let line = command_again(rt.alloc(), order, word, file)?;
    let _ = rt.stderr().write_all(&line);
    Ok(Recorder::new(rt.alloc(), writer))
}

/// The file of a record, which begins empty. A pipe or a device is not opened: that of a pipe waits for its reader, and
/// a write to it may wait too.
///
/// # Errors
///
/// - [`RunFault::NoRegularFile`] where something is to be overwritten that is no regular file.
/// - [`RunFault::Record`] where the file cannot be created, or is there already and is not to be overwritten.
fn created(rt: &HostRuntime, file: &str, overwrites: bool) -> Result<File, RunFault> {
    if !overwrites {
        return File::create_new(rt, file).map_err(|_| RunFault::Record);
    }
    match fs::metadata(rt, file) {
        Ok(there) if !there.is_file() => Err(RunFault::NoRegularFile),
        _ => fs::create(rt, file).map_err(|_| RunFault::Record),
    }
}
