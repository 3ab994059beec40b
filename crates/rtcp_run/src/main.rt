//! The program `rtcp`: it decodes RTCP datagrams, replays the events of a participant, and takes part in a session over
//! UDP.
//!
//! Only this crate touches the process: its command line, its standard streams and files. `rtcp_udp`
//! borrows its runtime for the clock and the sockets. Everything else works over any reader, writer and link:
//! `rtcp_command` has the command line, `rtcp_text` the texts and `rtcp_serve` the sessions. This file connects them.
#![tactic(auto)]

ghost use Rattle.std.specs.Prelude.{◌≡◌, ◌≤◌, ◌<◌, ◌*◌, ◌^◌, IfErr, IfOk};
ghost use Rattle.rtcp_command.specs.Listening.{HasTurns};
ghost use Rattle.rtcp_members.specs.Tables.{no_members};

mod observers;
mod record_file;
mod recording;
mod stop_file;

use observers::Observers;
use rand_core::{Rng, SeedableRng};
use rand_pcg::Pcg32;
use recording::closing;
use rtcp_alarm::{Bell, Raised, push_alarm};
use rtcp_clock::ntp_of;
use rtcp_command::arguments::{refuse, tell};
use rtcp_command::ends::{conclude, end_line, watched};
use rtcp_command::groups::group_warnings;
use rtcp_command::ports::picked_ports;
pub use rtcp_command::{
    ListenOrder, Order, OrderFault, RunFault, TextOrder, arguments, command, ends, laws,
};
use rtcp_engine::Participant;
use rtcp_guard::Guard;
use rtcp_guarded::GuardedParticipant;
use rtcp_json::push_end_json;
use rtcp_members::HeapTable;
pub use rtcp_serve::{
    Cause, End, Ending, Link, LinkFault, MOST_TURNS, Observer, Port, Received, Until, serve,
    serve_guarded_until, serve_laws, serve_until,
};
pub use rtcp_text::{Counted, LineFault, ReplayFault, TextFault, check, replay};
use rtcp_udp::{BindFault, UdpLink};
use std::alloc::{AllocError, Global};
use std::io::{BufWriter, Read, Write};
use std::net::SocketAddrV4;
use std::process::ExitCode;
use std::time::{Duration, SystemTime, UNIX_EPOCH};
use std::{env, fs};
use stop_file::StopFile;

/// The NTP timestamp of the first moment of 1970, in which the system's clock begins: 2,208,988,800 seconds since 1900.
const UNIX_IN_NTP: u64 = 2_208_988_800 << 32;

fn main(rt: HostRuntime) -> ExitCode {
    let status = match asked(&rt) {
        Ok(Order::Text(order)) => run_text(&rt, order),
        Ok(Order::Listen(order)) => listen(&rt, order),
        Ok(Order::Version(line)) => tell(&line, &mut rt.stdout(), &mut rt.stderr()),
        Err(fault) => refuse(&fault, &mut rt.stderr()),
    };
    ExitCode::from(status)
}

/// What the command line of the process asks for.
///
/// # Errors
///
/// Those of [`arguments::order`], and those of [`arguments::unreadable`] where the arguments cannot be read.
fn asked(rt: &HostRuntime) -> Result<Order, OrderFault>
    ensures turns { IfOk result HasTurns }
{
    let alloc = rt.alloc();
    let arguments = match env::args(rt) {
        Ok(arguments) => arguments,
        Err(error) => return Err(arguments::unreadable(alloc, error.kind())),
    };
    let mut texts = Vec::new(alloc);
    for argument in arguments {
        if texts.push(argument).is_err() {
            return Err(OrderFault::Memory);
        }
    }
    let mut words = Vec::new(alloc);
    for text in &texts {
        if words.push(text.as_str()).is_err() {
            return Err(OrderFault::Memory);
        }
    }
    arguments::order(alloc, &words)
}

/// Runs an order from standard input to standard output, and returns the status to end with.
fn run_text(rt: &HostRuntime, order: TextOrder) -> u8 {
    let alloc = rt.alloc();
    let mut faults = rt.stderr();
    let Ok(writer) = BufWriter::new(alloc, rt.stdout()) else {
        return refuse(&OrderFault::Memory, &mut faults);
    };
    command::command(alloc, order, rt.stdin(), writer, &mut faults)
}

/// Runs a session over UDP, writes the line of its alarm to standard error, if one was raised, and returns the status to
/// end with.
fn listen(rt: &HostRuntime, order: ListenOrder) -> u8
    requires { (1 ≤ order.turns) × (order.turns ≤ 1000000) }
{
    let mut faults = rt.stderr();
    let bell = Bell::new();
    match run_listen(rt, order, &bell) {
        Ok((end, raised)) => {
            tell_alarm(rt, raised);
            watched(raised.is_some(), conclude(&Ok(end), &mut faults))
        }
        Err(fault) => conclude(&Err(fault), &mut faults),
    }
}

/// Writes the line of an alarm to standard error, if one was raised. A failed write is ignored, and so is want of
/// memory.
fn tell_alarm(rt: &HostRuntime, raised: Option<Raised>) {
    let Some(raised) = raised else {
        return;
    };
    let mut line = Vec::new(rt.alloc());
    if push_alarm(&mut line, &raised).is_ok() {
        let _ = rt.stderr().write_all(&line);
    }
}

/// Runs a session over UDP, between the ports of RTP and of RTCP and a peer, writes its end to standard output, and
/// gives it with the alarm that was raised, for which this bell rings. The session is recorded if a file is named for that, and shown on standard
/// error, or written as lines of JSON on standard output, if that is asked for.
///
/// # Errors
///
/// Each of [`RunFault`]. A generator or a clock that cannot be read is found first, then a refused configuration, both
/// before a port is bound, and that before the file is created. No line is written before.
fn run_listen<'s>(
    rt: &'s HostRuntime,
    order: ListenOrder,
    bell: &'s Bell,
) -> Result<(End, Option<Raised>), RunFault>
    requires { (1 ≤ order.turns) × (order.turns ≤ 1000000) }
{
    let alloc = rt.alloc();
    let order = timed(rt, drawn(rt, order)?)?;
    let turns = most_turns(&order);
    let mut rng = Pcg32::seed_from_u64(order.seed);
    let word = rng.next_u32();
    if let Some(error) = order.config.error() {
        return Err(RunFault::Config(error));
    }
    let table = table_of(alloc, order.config.capacity)?;
    let link = bound(rt, &order)?;
    tell_ports(rt, &order, link.endpoints())?;
    let closing = closing(rt, &order, word)?;
    let mut observers = Observers::of(rt, &order, word, link.endpoints(), bell)?;
    let guard = guard_of(alloc, &order)?;
    let participant = Participant::with_table(order.config, table, word);
    warn_of_groups(rt, order.rtp, order.rtcp)?;
    let (is_shown, is_json) = (order.show, order.json);
    let asked = (order.seconds.map(until), StopFile::of(rt, order.stop));
    let ending = (asked, bell);
    let end = match guard {
        None => serve_on(link, &mut observers, participant, rng, ending, turns),
        Some(guard) => {
            let guarded = GuardedParticipant::new(participant, guard);
            serve_guarded_on(link, &mut observers, guarded, rng, ending, turns)
        }
    };
    close(rt, &closing, is_shown && observers.has_failed());
    write_end(rt, is_json, observers.rows(), &end)?;
    match observers.lost_lines() {
        Some(fault) => Err(RunFault::from(fault)),
        None => Ok((end, observers.raised())),
    }
}

/// Writes to standard error which endpoints are addresses of groups. A failed write is ignored.
///
/// # Errors
///
/// [`RunFault::Memory`] where memory is refused.
fn warn_of_groups(rt: &HostRuntime, rtp: SocketAddrV4, rtcp: SocketAddrV4) -> Result<(), RunFault> {
    let warnings = group_warnings(rt.alloc(), rtp, rtcp).map_err(|_| RunFault::Memory)?;
    let _ = rt.stderr().write_all(&warnings);
    Ok(())
}

/// Writes to standard error what comes after a session that is shown, and the word of a record that failed meanwhile.
/// A failed write is ignored.
fn close(rt: &HostRuntime, closing: &[u8], has_failed: bool) {
    let _ = rt.stderr().write_all(closing);
    if has_failed {
        let _ = rt.stderr().write_all(b"record\n");
    }
}

/// A table for so many sources, from 1 to 1,024.
///
/// # Errors
///
/// There is no memory for it.
fn table_of(alloc: Global, capacity: u32) -> Result<HeapTable, RunFault>
    requires some { 1 ≤ capacity }
    requires few { capacity ≤ 1024 }
    ensures { IfOk result (λ table. table ≡ no_members capacity) }
{
    match HeapTable::with_room(alloc, capacity) {
        Ok(table) => Ok(table),
        Err(_) => Err(RunFault::Memory),
    }
}

/// The guard that an order asks for, if it does.
///
/// # Errors
///
/// There is no memory for it.
fn guard_of(alloc: Global, order: &ListenOrder) -> Result<Option<Guard>, RunFault>
    requires few { order.now.config.capacity ≤ 1024 }
{
    let Some(limits) = order.guard else {
        return Ok(None);
    };
    match Guard::new(alloc, limits.settings(order.config.capacity as u16)) {
        Ok(guard) => Ok(Some(guard)),
        Err(_) => Err(RunFault::Memory),
    }
}

/// An order with the SSRC and the seed from the system's generator where it asks for that.
///
/// # Errors
///
/// [`RunFault::Random`] where the generator cannot be read.
fn drawn(rt: &HostRuntime, order: ListenOrder) -> Result<ListenOrder, RunFault>
    requires { (1 ≤ order.turns) × (order.turns ≤ 1000000) }
    ensures { IfOk result (λ drawn. (1 ≤ drawn.turns) × (drawn.turns ≤ 1000000)) }
{
    let mut order = order;
    if order.draws_ssrc {
        order.config.ssrc = (draw(rt)? % (1 << 32)) as u32;
    }
    if order.draws_seed {
        order.seed = draw(rt)?;
    }
    Ok(order)
}

/// An order with the NTP timestamp of now where it asks for that.
///
/// # Errors
///
/// [`RunFault::Link`] where the clock cannot be read.
fn timed(rt: &HostRuntime, order: ListenOrder) -> Result<ListenOrder, RunFault>
    requires { (1 ≤ order.turns) × (order.turns ≤ 1000000) }
    ensures { IfOk result (λ timed. (1 ≤ timed.turns) × (timed.turns ≤ 1000000)) }
{
    let mut order = order;
    if order.reads_ntp {
        let Ok(now) = SystemTime::now(rt) else {
            return Err(RunFault::Link);
        };
        let since = now.duration_since(UNIX_EPOCH).unwrap_or(Duration::ZERO);
        let micros = u64::try_from(since.as_micros()).unwrap_or(u64::MAX);
        order.config.ntp_base = ntp_of(UNIX_IN_NTP, micros);
    }
    Ok(order)
}

/// The link of a session between the ports of an order and its peer.
///
/// # Errors
///
/// - [`RunFault::Link`] where a port cannot be bound or waited for, or the clock cannot be read.
/// - [`RunFault::Memory`] where memory is refused.
fn bound<'r>(rt: &'r HostRuntime, order: &ListenOrder) -> Result<UdpLink<'r, HostRuntime>, RunFault>
    ensures receives { IfOk result (λ link. link.failed_receives ≡ 0) }
    ensures sends { IfOk result (λ link. link.failed_sends ≡ 0) }
{
    match UdpLink::bind(rt, rt.alloc(), order.rtp, order.rtcp, order.peer) {
        Ok(link) => Ok(link),
        Err(fault) => Err(run_fault(fault)),
    }
}

/// Writes to standard error which ports the system picked, where an order leaves them to it. A failed write is ignored.
///
/// # Errors
///
/// [`RunFault::Memory`] where memory is refused.
fn tell_ports(
    rt: &HostRuntime,
    order: &ListenOrder,
    bound: (SocketAddrV4, SocketAddrV4),
) -> Result<(), RunFault> {
    let lines = picked_ports(rt.alloc(), (order.rtp, order.rtcp), bound).map_err(
        |_| RunFault::Memory,
    )?;
    let _ = rt.stderr().write_all(&lines);
    Ok(())
}

/// The most turns that an order lets a session make before the leave.
fn most_turns(order: &ListenOrder) -> u64
    requires { order.now.turns ≤ 1000000 }
    ensures { result ≤ 2 ^ 59 }
{
    if order.counts_turns {
        u64::from(order.turns)
    } else {
        MOST_TURNS
    }
}

/// A number from the system's generator.
///
/// # Errors
///
/// [`RunFault::Random`] where it cannot be read.
fn draw(rt: &HostRuntime) -> Result<u64, RunFault>
    ensures { IfErr result (λ fault. fault ≡ RunFault.Random) }
{
    let mut octets = [0; 8];
    let Ok(mut generator) = fs::open(rt, "/dev/urandom") else {
        return Err(RunFault::Random);
    };
    match generator.read_exact(&mut octets) {
        Ok(()) => Ok(u64::from_le_bytes(octets)),
        Err(_) => Err(RunFault::Random),
    }
}

/// The ending after so many seconds.
fn until(seconds: u32) -> Until
    ensures { result.moment ≡ seconds * 1000000 }
{
    Until {
        moment: u64::from(seconds) * 1_000_000,
    }
}

/// Serves a session on a link, which this observer watches, with these words, until this ending or for so many turns,
/// and gives its end.
fn serve_on<L: Link + Drop, O: Observer, E: Ending + Drop>(
    mut link: L,
    observer: &mut O,
    mut participant: Participant<HeapTable>,
    mut rng: Pcg32,
    mut ending: E,
    turns: u64,
) -> End
    requires turns { turns ≤ 2 ^ 59 }
    requires receives { (L.value link).failed_receives < 2 ^ 63 }
    requires sends { (L.value link).failed_sends < 2 ^ 63 }
{
    let mut buf = [0; 65_535];
    serve_until(
        &mut link,
        &mut participant,
        &mut rng,
        &mut ending,
        turns,
        observer,
        &mut buf,
    )
}

/// Serves a session of a guarded participant as [`serve_on`] does that of a participant.
fn serve_guarded_on<L: Link + Drop, O: Observer, E: Ending + Drop>(
    mut link: L,
    observer: &mut O,
    mut participant: GuardedParticipant<HeapTable>,
    mut rng: Pcg32,
    mut ending: E,
    turns: u64,
) -> End
    requires turns { turns ≤ 2 ^ 59 }
    requires receives { (L.value link).failed_receives < 2 ^ 63 }
    requires sends { (L.value link).failed_sends < 2 ^ 63 }
{
    let mut buf = [0; 65_535];
    serve_guarded_until(
        &mut link,
        &mut participant,
        &mut rng,
        &mut ending,
        turns,
        observer,
        &mut buf,
    )
}

/// Writes the rows that came last and the line of an end to standard output, that in JSON or as text.
///
/// # Errors
///
/// - [`RunFault::Memory`] where memory is refused.
/// - [`RunFault::Write`] where it cannot be written.
fn write_end(rt: &HostRuntime, is_json: bool, rows: &[u8], end: &End) -> Result<(), RunFault> {
    let line = end_of(rt.alloc(), is_json, end).map_err(|_| RunFault::Memory)?;
    let mut writer = rt.stdout();
    writer.write_all(rows).map_err(|_| RunFault::Write)?;
    writer.write_all(&line).map_err(|_| RunFault::Write)
}

/// The line of an end, in JSON or as text.
fn end_of(alloc: Global, is_json: bool, end: &End) -> Result<Vec<u8>, AllocError> {
    if !is_json {
        return end_line(alloc, end);
    }
    let mut line = Vec::new(alloc);
    push_end_json(&mut line, end)?;
    Ok(line)
}

/// The fault of a session whose link was not bound.
fn run_fault(fault: BindFault) -> RunFault
    ensures io { fault ≡ BindFault.Io → result ≡ RunFault.Link }
    ensures memory { fault ≡ BindFault.Memory → result ≡ RunFault.Memory }
{
    match fault {
        BindFault::Io => RunFault::Link,
        BindFault::Memory => RunFault::Memory,
    }
}
