//! One source, from its first packet on (RFC 3550, 6.4.1, appendices A.1, A.3 and A.8).

ghost use Rattle.std.specs.Prelude.{◌≡◌, ◌∷◌, [], ◌<◌, ◌≤◌, ◌^◌, List, Some, IsSome, option_map};
ghost use Rattle.rtcp_wire.specs.Views.{block_value};
ghost use Rattle.rtcp_wire.specs.Writing.{IsWritableBlock};
ghost use Rattle.rtcp_source.specs.Packets.{Given, packet_came, report_came, block_made, run_of, has_news_since};
ghost use Rattle.rtcp_source.specs.Takings.{taken_in};
ghost use Rattle.rtcp_source.specs.Summary.{StandsAt, StandsWith};
ghost use Rattle.rtcp_source.specs.ReportBlocks.{block_over};
ghost use Rattle.rtcp_source.specs.Fields.{last_report_of, middle_bits};
ghost use Rattle.rtcp_source.specs.Bounds.{IsRunBounded};
ghost use Rattle.rtcp_source.specs.Blocks.{block_for, news_of};
ghost use Rattle.rtcp_source.specs.Receptions.{reception_in, reception_over};
ghost use Rattle.rtcp_source.specs.Views.{run_value, last_report_value, reception_value, last_block_value};
ghost use Rattle.rtcp_source.specs.LastBlocks.{last_block};
ghost use Rattle.rtcp_source.specs.Steps.{no_source, taken_by, after_packet, after_report_came, after_block_made};

use crate::reception::{LastBlock, LastReport, Reception};
use crate::run::Run;
use crate::sequence::{FIRST, judge};
use crate::taken::Taken;
use rtcp_clock::short_delay;
use rtcp_wire::Block;
use std::marker::Model;

/// What a receiver keeps of one source: a few numbers, from which its next report block is made.
///
/// A contract compares a source with the state computed from its whole history, the list of all that it was
/// given, newest first. Where the two are the same, the source stands at that list (`StandsAt`).
// What may be missing stands beside a flag, and not in an `Option`, and the numbers of the last run stand among the
// others, and not in a `Run`, so that the entry of a source is small. Those that each RTP packet reads come first.
#[derive(Drop)]
pub struct Source {
    packets: u64,
    greatest: u64,
    /// How many packets were counted in the last run, 0 where none was started.
    received: u64,
    received_before: u64,
    jitter: u64,
    octets: u64,
    transit: u32,
    rate: u32,
    /// The number of the first packet of the last run.
    first: u16,
    stray: u16,
    /// Whether there was a stray since the last run started, or at all if none was.
    has_stray: bool,
    /// Whether a sender report came: `ntp` and `rtp` are its timestamps, `reported_at` the moment of the last one.
    has_report: bool,
    /// Whether a block was made: `fraction` and `highest` are those of the last one.
    has_block: bool,
    fraction: u8,
    expected_before: u64,
    ntp: u64,
    reported_at: u64,
    rtp: u32,
    highest: u32,
}

impl Model for Source {
    ghost use Rattle.std.specs.Prelude.{Some, None, if◌then◌else◌};
    ghost use Rattle.rtcp_source.specs.Summary.{SourceValue};
    ghost use Rattle.rtcp_source.specs.Views.{run_kept};
    ghost use Rattle.rtcp_source.specs.Bounds.{IsBounded};

    ghost Value = { SourceValue };

    ghost view = { λ s. record {
      packets = s.packets;
      run = run_kept s.first s.greatest s.received s.expected_before s.received_before s.transit s.rate s.jitter
          s.octets;
      stray = if s.has_stray then Some s.stray else None;
      last_report = if s.has_report then Some (record { ntp = s.ntp; rtp = s.rtp; moment = s.reported_at }) else None;
      last_block = if s.has_block then Some (record { fraction = s.fraction; highest = s.highest }) else None;
    } };

    ghost invariant = { λ s. IsBounded s.packets (
        run_kept s.first s.greatest s.received s.expected_before s.received_before s.transit s.rate s.jitter
        s.octets) };
}

impl Source {
    /// A source of which nothing came yet.
    pub fn new() -> Source
        ensures nothing { result ≡ no_source }
        ensures stands { StandsAt result [] }
    {
        Source {
            packets: 0,
            greatest: 0,
            received: 0,
            received_before: 0,
            jitter: 0,
            octets: 0,
            transit: 0,
            rate: 0,
            first: 0,
            stray: 0,
            has_stray: false,
            has_report: false,
            has_block: false,
            fraction: 0,
            expected_before: 0,
            ntp: 0,
            reported_at: 0,
            rtp: 0,
            highest: 0,
        }
    }

    /// Takes a packet, and returns what it is to the source (appendix A.1). `Taken::is_counted` says whether
    /// it was counted.
    ///
    /// `seq` and `rtp_ts` are the packet's sequence number and timestamp, `arrival` is its arrival in units
    /// of the timestamp's clock, modulo 2^32, as rtcp_clock's `rtp_units` gives it, `octets` are those of its payload,
    /// and `rate` are the units a second of the timestamp's clock, which is that of the packet's payload type. A source
    /// takes at most 2^40 packets.
    // Inlined, as an RTP packet is the most frequent event.
    #[inline(always)]
    pub fn take(&mut self, seq: u16, rtp_ts: u32, arrival: u32, octets: u64, rate: u32) -> Taken
        requires { self.old.packets < 2 ^ 40 }
        ensures taken { result ≡ taken_by self.old seq }
        ensures step { self.new ≡ after_packet seq rtp_ts arrival octets rate self.old }
        ensures taken_in_run { (given : List Given) → StandsAt self.old given →
            result ≡ taken_in (run_of given) seq }
        ensures stands { StandsWith self.old self.new (packet_came seq rtp_ts arrival octets rate) }
    {
        let transit = arrival.wrapping_sub(rtp_ts);
        let taken = judge(self.run().map(|run| run.greatest), self.stray(), seq);
        self.packets += 1;
        match taken {
            Taken::Counted => {
                let run = self.kept().with(seq, transit, octets, rate);
                self.keep(run);
            }
            Taken::Became | Taken::Restarted => {
                self.keep(Run::started(seq, transit, octets, rate));
                self.has_stray = false;
            }
            Taken::Probation | Taken::Bad => {
                self.stray = seq;
                self.has_stray = true;
            }
        }
        taken
    }

    /// Takes a sender report of the source with these NTP and RTP timestamps, which came at the moment `t`, in
    /// microseconds (6.4.1). Until another one comes, blocks hold its LSR and the time since, after a restart
    /// too.
    pub fn saw_sr(&mut self, ntp: u64, rtp: u32, t: u64)
        ensures step { self.new ≡ after_report_came ntp rtp t self.old }
        ensures stands { StandsWith self.old self.new (report_came ntp rtp t) }
    {
        self.ntp = ntp;
        self.rtp = rtp;
        self.reported_at = t;
        self.has_report = true;
    }

    /// Makes the reception report block of the source, `ssrc`, at the moment `t`, in microseconds (6.4.1,
    /// A.3). Some packet of it must have been counted, as is so where it has news.
    ///
    /// The fraction lost is that of the packets since the last block in this run. After the call the source
    /// has no news until another packet is counted.
    pub fn block(&mut self, ssrc: u32, t: u64) -> Block
        requires { IsSome self.old.run }
        ensures block { Some (block_value result) ≡ block_for ssrc t self.old }
        ensures of_list { (given : List Given) → StandsAt self.old given →
            Some (block_value result) ≡ block_over ssrc t given }
        ensures step { self.new ≡ after_block_made self.old }
        ensures stands { StandsWith self.old self.new block_made }
        ensures writable { IsWritableBlock (block_value result) }
    {
        let (lsr, dlsr) = match self.last_report() {
            Some(last_report) => (
                middle_bits(last_report.ntp),
                short_delay(t.saturating_sub(last_report.moment)),
            ),
            None => (0, 0),
        };
        let run = self.kept();
        let block = run.block(ssrc, lsr, dlsr);
        self.keep(run.reported());
        self.fraction = block.fraction;
        self.highest = block.highest;
        self.has_block = true;
        block
    }

    /// Whether some packet was counted since the last block, or at all if no block was made.
    pub fn has_news(&self) -> bool
        ensures news { result ≡ news_of self.now.run }
        ensures since_block { (given : List Given) → StandsAt self.now given → result ≡ has_news_since given }
    {
        self.received_before < self.received
    }

    /// How the source's packets are received, as its report block would say it, but for the fraction lost.
    /// `None` where no packet of it was counted. It changes nothing: no loss interval ends with it.
    pub fn reception(&self) -> Option<Reception>
        ensures reception { option_map reception_value result ≡ reception_in self.now }
        ensures of_list { (given : List Given) → StandsAt self.now given →
            option_map reception_value result ≡ reception_over given }
    {
        if self.received == 0 {
            return None;
        }
        Some(self.kept().reception())
    }

    /// The last sender report of the source, if one came.
    pub fn last_report(&self) -> Option<LastReport>
        ensures last_report { option_map last_report_value result ≡ self.now.last_report }
        ensures of_list { (given : List Given) → StandsAt self.now given →
            option_map last_report_value result ≡ last_report_of given }
    {
        if !self.has_report {
            return None;
        }
        Some(LastReport {
            ntp: self.ntp,
            rtp: self.rtp,
            moment: self.reported_at,
        })
    }

    /// What the last report block of the source said, if one was made.
    pub fn last_block(&self) -> Option<LastBlock>
        ensures said { option_map last_block_value result ≡ self.now.last_block }
        ensures of_list { (given : List Given) → StandsAt self.now given →
            option_map last_block_value result ≡ last_block given }
    {
        if !self.has_block {
            return None;
        }
        Some(LastBlock {
            fraction: self.fraction,
            highest: self.highest,
        })
    }

    /// The last run, if one was started.
    #[inline(always)]
    fn run(&self) -> Option<Run>
        ensures { option_map run_value result ≡ self.now.run }
    {
        if self.received == 0 {
            return None;
        }
        Some(self.kept())
    }

    /// The last run, where one was started.
    #[inline(always)]
    fn kept(&self) -> Run
        requires { IsSome self.now.run }
        ensures run { Some (run_value result) ≡ self.now.run }
        ensures few { result.received ≤ 2 ^ 40 }
        ensures bounded { IsRunBounded result.received (run_value result) }
        ensures packets { result.received ≤ self.now.packets }
    {
        Run {
            first: FIRST as u32 + self.first as u32,
            transit: self.transit,
            rate: self.rate,
            greatest: self.greatest,
            received: self.received,
            expected_before: self.expected_before,
            received_before: self.received_before,
            jitter: self.jitter,
            octets: self.octets,
        }
    }

    /// Keeps this as the last run.
    #[inline(always)]
    fn keep(&mut self, run: Run)
        requires few { run.received ≤ self.old.packets }
        requires bounded { IsRunBounded run.received (run_value run) }
        ensures { self.new ≡ record self.old { run = Some (run_value run) } }
    {
        self.first = (run.first - FIRST as u32) as u16;
        self.transit = run.transit;
        self.rate = run.rate;
        self.greatest = run.greatest;
        self.received = run.received;
        self.expected_before = run.expected_before;
        self.received_before = run.received_before;
        self.jitter = run.jitter;
        self.octets = run.octets;
    }

    /// The number of the last stray.
    #[inline(always)]
    fn stray(&self) -> Option<u16>
        ensures { result ≡ self.now.stray }
    {
        self.has_stray.then_some(self.stray)
    }
}

/// The middle 32 bits of an NTP timestamp.
fn middle_bits(ntp: u64) -> u32
    ensures { result ≡ middle_bits ntp }
{
    (ntp / 65_536 % (1 << 32)) as u32
}
