//! The subcommand `listen` of the command line.

use super::rows::{Absent, GUARD, PARTICIPANT, Row, with_options};
use clap::Command;
use std::alloc::{AllocError, Global};

const ABOUT: &str = "Take part in a session over UDP";

const LONG: &str = "\
Take part in a session over UDP.

RTP and RTCP come in at a port each, and reports go from the port of RTCP to the peer. Where a port
is 0 the system picks one, and a line on standard error tells which. In a turn the participant
takes at most one datagram from each port, and sends what is due; where neither has one it waits
until one comes, for at most 20 milliseconds. After the last turn, once --seconds N have passed, or
within half a second once the file of --stop is there, it leaves: without a word if it has sent no
report, else with a BYE. Where more than 50 are known that BYE waits for its turn, in at most as
many turns again and as long again, and may not go out. It sends no RTP.

In a collision, where a datagram names the participant's own SSRC, it takes another one at random
and sends a BYE for the old one if it has reported under it: once for each sender of such
datagrams, and at most eight times; later ones are refused.

So turns measure no time. 1000 of them last 20 seconds where nothing comes. A packet takes two or
three where it comes alone, and less where packets come together, but never less than one. An hour
of audio in packets of 20 milliseconds takes 360000 to 540000 turns. The most, 1000000, last for
two to three hours of it, and for 14 to 25 minutes of video of 600 packets a second. With --seconds,
--stop or an option that begins with --until turns are not counted, unless --turns is given too:
what comes first ends the session.

The random words are those of a generator that --seed begins: with the default, 1, they are the same
each time, so that listeners which are started together report together, in clumps. Give each
--seed random, and --ssrc random for an SSRC of its own: both come from the system's generator, and
the command that --record shows has what was drawn. With --ntp now that command has the time at
which the session began, so that the page of tools/report tells times of day.

To join a sender of GStreamer on this machine, which reads RTCP at port 5007:

    gst-launch-1.0 rtpbin name=session \\
        audiotestsrc is-live=true ! mulawenc ! rtppcmupay ! session.send_rtp_sink_0 \\
        session.send_rtp_src_0 ! udpsink host=127.0.0.1 port=5004 \\
        session.send_rtcp_src_0 ! udpsink host=127.0.0.1 port=5005 sync=false async=false \\
        udpsrc port=5007 ! session.recv_rtcp_sink_0

Or one of FFmpeg, which binds that port too:

    ffmpeg -nostdin -hide_banner -loglevel error -re -f lavfi -i sine -ar 8000 -c:a pcm_mulaw \\
        -f rtp 'rtp://127.0.0.1:5004?rtcpport=5005&localrtcpport=5007'

For either:

    rtcp listen --ssrc random --seed random --cname a --seconds 60 --show --record call \\
        --rtp 127.0.0.1:5004 --rtcp 127.0.0.1:5005 --peer 127.0.0.1:5007

One line comes out at the end: Done where the participant left, LinkDown where 64 receives in a row
failed, or Limit where the participant met a limit of its own; how many datagrams came, how many
of them were refused, how many compounds were sent, how many sends and receives failed, and
whether the BYE of leaving was sent.

    end Done received=137 refused=0 sent=5 send-failures=0 recv-failures=0 bye=yes

Ctrl-C ends the process as it ends any: no BYE is sent, and no line comes out. To leave in order,
run tools/listen in place of rtcp listen: it turns ctrl-C, TERM and HUP into the file of --stop.

With --show the session is written to standard error as it happens: first who the participant is,
and then a line for each RTCP datagram that comes in, each compound that goes out, and each call
that is refused: the moment in seconds, the peer, and what rtcp check says of the datagram, or why
it was refused. A compound that could not be sent has a line, and so has each source that joins,
says BYE, times out, begins or ceases to send. If no datagram comes, one says so after five seconds.
Once a second the members, the senders and a row for each source follow, unless they are as they
were last:

    session ssrc=000000aa cname=\"a\" rtp=127.0.0.1:5004 rtcp=127.0.0.1:5005 peer=127.0.0.1:5007
    0.273647 joined=5efa318e
    2.417003 out 127.0.0.1:5007 ok RR(000000aa,[],0) SDES([000000aa{1=61}])
    3.000411 members=2 senders=1
    source=5efa318e sends=yes packets=150 lost=0 jitter=0.413ms total-loss=0.0% peer=127.0.0.1:5006

A source that is no member has valid=no, or left= and when. What came of its packets stands in a
row if one was counted, the CNAME if one was read, its quotes, backslashes and what is not printed
as in a string of C; and round-trip= if the source reported on a sender report of this SSRC. Last
come the loss of the whole and of the latest interval, the packets a second, and the peer.

With --plain too, datagrams are shown in the plain words of rtcp check --plain: with --clock the
jitter of report blocks is in units of the RTP timestamp, and otherwise in milliseconds by --rate.
With --ntp moments are times of day in UTC, as 08:05:22.123456Z.

With --rows N rows are short, of at most 100 columns, and only the N sources have one of which most
was lost by the latest report; loss= is that part. With --summary the rows that came last are
written to standard output before the line at the end, also without --show:

    members=41 senders=40 shown=1
    5efa318e sends loss=12.5% total-loss=1.2% jitter=0.413ms pace=50.0/s peer=127.0.0.1:5004

With --until-loss PERCENT the session ends once a report says that more was lost of a source since
the one before, with --until-silence SECONDS once no RTP packet came for so long. A line on standard
error says so at the end, and the status is 3:

    alarm 12.403000 loss=5efa318e 12.5%
    alarm 65.000411 silence

With --json lines of JSON go to standard output, for scripts: one for each RTCP datagram that comes
in, one for each other event of which the answer says something, and one for the end:

    {\"moment\":273647,\"event\":\"rtcp\",\"peer\":\"127.0.0.1:5005\",\"datagram\":{..},\"answer\":{..}}
    {\"end\":\"Done\",\"received\":137,\"refused\":0,\"sent\":5,..,\"bye\":true}

With --record FILE each event that the participant is told is written to the file as it happens,
as a line that rtcp replay reads. The command that plays it again is written to standard error
at the start, and with --show once more at the end. A file that is there already is refused without
--force, and what is no regular file, as a pipe, with it too.

With --guard NAMES[,SECONDS] a source belongs to the address that named it first, until it was silent
for so long, 60 seconds unless told. What another address says of it is held back, and so is what
would give an address more than NAMES sources, or more than NAMES of their BYEs in that time. It is
shown, and counted, as refused:

    4.120733 in 198.51.100.9:5005 refused H1 Stranger

The status is 0 at Done and Limit, 3 there if an alarm was raised, 2 if the command line, an option
or the configuration was refused, and 1 at LinkDown and if a port could not be bound, or writing or
memory failed.";

/// The options after those of the participant, in the order in which they are looked at.
const OWN: [Row; 17] = [
    (
        "rtp",
        "ADDRESS:PORT",
        Absent::Refused,
        "Where RTP comes in, as 127.0.0.1:5004",
    ),
    (
        "rtcp",
        "ADDRESS:PORT",
        Absent::Refused,
        "Where RTCP comes in, as 127.0.0.1:5005",
    ),
    (
        "peer",
        "ADDRESS:PORT",
        Absent::Refused,
        "Where RTCP goes, as 127.0.0.1:5007",
    ),
    (
        "seed",
        "N",
        Absent::Is("1"),
        "Seed of the random words, below 2^64, or random",
    ),
    (
        "turns",
        "N",
        Absent::Nothing,
        "Turns before the participant leaves, 1 to 1000000, for 1000 unless another end is given",
    ),
    (
        "seconds",
        "N",
        Absent::Nothing,
        "Seconds before the participant leaves, 1 to 1000000000",
    ),
    (
        "record",
        "FILE",
        Absent::Nothing,
        "File in which the session is recorded, for rtcp replay",
    ),
    (
        "force",
        "",
        Absent::IsFlag,
        "Overwrite the file of --record if it is there",
    ),
    (
        "stop",
        "FILE",
        Absent::Nothing,
        "File that ends the session once it is there, as tools/listen does for ctrl-C",
    ),
    (
        "show",
        "",
        Absent::IsFlag,
        "Show the session on standard error while it runs",
    ),
    ("plain", "", Absent::IsFlag, "Show datagrams in plain words"),
    (
        "json",
        "",
        Absent::IsFlag,
        "Write lines of JSON on standard output while it runs, and at the end",
    ),
    GUARD,
    (
        "until-loss",
        "PERCENT",
        Absent::Nothing,
        "End with status 3 once more than 0 to 99 per cent of a source were lost between reports",
    ),
    (
        "until-silence",
        "SECONDS",
        Absent::Nothing,
        "End with status 3 once no RTP packet came for 1 to 1000000000 seconds",
    ),
    (
        "rows",
        "N",
        Absent::Nothing,
        "Show short rows, of the 1 to 1024 sources of which most was lost",
    ),
    (
        "summary",
        "",
        Absent::IsFlag,
        "Write the last row of each source to standard output at the end",
    ),
];

/// The subcommand, as `clap` reads it.
pub(super) fn subcommand<'a>(alloc: Global) -> Result<Command<'a>, AllocError> {
    let command = Command::new(alloc, "listen").about(ABOUT).long_about(LONG);
    let command = with_options(alloc, command, &PARTICIPANT)?;
    with_options(alloc, command, &OWN)
}
