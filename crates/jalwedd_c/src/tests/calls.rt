//! The calls of a host as rows, and how they are played.

use super::*;
use crate::begin::{jalwedd_free, jalwedd_new};
use crate::calls::{
    jalwedd_arrive_rtcp, jalwedd_arrive_rtp, jalwedd_configure, jalwedd_forget, jalwedd_leave,
    jalwedd_sent_rtp, jalwedd_tick,
};
use crate::views::{
    jalwedd_entries, jalwedd_members, jalwedd_next, jalwedd_senders, jalwedd_source, jalwedd_ssrc,
};
use std::process::Abort;

/// A call. Its moments are in microseconds, on a clock that may be ahead of what a row says.
#[derive(Clone, Copy)]
pub(super) enum Call<'a> {
    /// Begins with this start and this word, as `CONFIG` and the CNAME `a` say.
    New(u64, u32),
    /// An RTCP datagram of peer 1, with the word 0: its moment and its octets.
    Rtcp(u64, &'a [u8]),
    /// An RTP datagram: its moment, its peer, a word, and its octets.
    Rtp(u64, u64, u32, &'a [u8]),
    /// An RTP packet that the host sent: its moment, its timestamp, and the octets of its payload.
    Sent(u64, u32, u32),
    /// A tick at a moment, with two words 0.
    Tick(u64),
    /// Other settings and items, at a moment.
    Configure(u64, Changed<'a>, &'a [Item]),
    /// A source that is to be forgotten, at a moment.
    Forget(u64, u32),
    /// A leave at a moment, with the word 0.
    Leave(u64),
    Free,
}

/// The settings of a row.
#[derive(Clone, Copy)]
pub(super) struct Changed<'a> {
    pub(super) sender_bw: u32,
    pub(super) receiver_bw: u32,
    pub(super) clocks: Clocks<'a>,
    pub(super) rate: u32,
    pub(super) ntp_base: u64,
}

impl Changed<'_> {
    fn settings(&self) -> Settings {
        Settings {
            sender_bw: self.sender_bw,
            receiver_bw: self.receiver_bw,
            clock_count: self.clocks.count,
            clocks: self.clocks.room(),
            rate: self.rate,
            ntp_base: self.ntp_base,
        }
    }
}

impl Call<'_> {
    /// Makes it, on a clock that is `shift` ahead. Returns the status.
    fn make(
        &self,
        alloc: Global,
        handle: &mut Handle,
        shift: u64,
        step: &mut HostStep,
        octets: &mut [u8; 1_472],
    ) -> u32 {
        let on = |moment: u64| moment.saturating_add(shift);
        match *self {
            Call::New(start, word) => {
                let start = on(start);
                let config = Config { start, ..CONFIG };
                jalwedd_new(alloc, handle, &config, b"a", &[], word, step)
            }
            Call::Rtcp(now, datagram) => {
                jalwedd_arrive_rtcp(alloc, handle, on(now), 1, 0, datagram, step, octets)
            }
            Call::Rtp(now, peer, word, datagram) => {
                jalwedd_arrive_rtp(alloc, handle, on(now), peer, word, datagram, step, octets)
            }
            Call::Sent(now, timestamp, size) => {
                jalwedd_sent_rtp(alloc, handle, on(now), timestamp, size, step, octets)
            }
            Call::Tick(now) => jalwedd_tick(alloc, handle, on(now), 0, 0, step, octets),
            Call::Configure(now, changed, items) => {
                let settings = changed.settings();
                jalwedd_configure(alloc, handle, on(now), &settings, items, step, octets)
            }
            Call::Forget(now, ssrc) => jalwedd_forget(alloc, handle, on(now), ssrc, step, octets),
            Call::Leave(now) => jalwedd_leave(alloc, handle, on(now), 0, step, octets),
            Call::Free => {
                *step = BLANK;
                jalwedd_free(alloc, handle)
            }
        }
    }
}

/// Some calls, and what is seen of each.
#[derive(Clone, Copy)]
pub(super) struct Row<'a> {
    pub(super) calls: &'a [Call<'a>],
    pub(super) status: u32,
    pub(super) step: HostStep,
    /// What the host's octets start with then. Where that is empty, they are as they were.
    pub(super) handed: &'a [u8],
    /// What is told of the sources then: from which SSRC on, the status, and the source as it then is.
    pub(super) sources: &'a [(u64, u32, HostSource)],
}

impl Row<'_> {
    /// Each of its calls does what the row says, on a clock that is `shift` ahead.
    fn holds(&self, alloc: Global, handle: &mut Handle, shift: u64) -> bool {
        let next = self.step.next.saturating_add(shift);
        let wanted = HostStep { next, ..self.step };
        for call in self.calls {
            let (mut step, mut octets) = (UNTOLD, [7; 1_472]);
            let status = call.make(alloc, handle, shift, &mut step, &mut octets);
            let handed = octets.starts_with(self.handed);
            let kept = octets == [7; 1_472];
            if status != self.status
                || step != wanted
                || !handed
                || kept != self.handed.is_empty()
            {
                return false;
            }
        }
        shows(alloc, handle, &wanted) && self.lists(alloc, handle, shift)
    }

    /// The sources are told as the row says.
    fn lists(&self, alloc: Global, handle: &mut Handle, shift: u64) -> bool {
        for (from, status, source) in self.sources {
            let mut told = later(&NO_SOURCE, shift);
            let found = jalwedd_source(alloc, handle, *from, &mut told);
            if found != *status || told != later(source, shift) {
                return false;
            }
        }
        true
    }
}

/// What is told at any time is what the last call told.
fn shows(alloc: Global, handle: &mut Handle, step: &HostStep) -> bool {
    jalwedd_members(alloc, handle) == step.members
        && jalwedd_senders(alloc, handle) == step.senders
        && jalwedd_next(alloc, handle) == step.next
        && jalwedd_ssrc(alloc, handle) == step.ssrc
        && jalwedd_entries(alloc, handle) == step.entries
}

/// A source on a clock that is `shift` ahead.
fn later(source: &HostSource, shift: u64) -> HostSource {
    HostSource {
        heard: source.heard.saturating_add(shift),
        left: source.left.saturating_add(shift),
        told: source.told.saturating_add(shift),
        ..*source
    }
}

/// What no call wrote.
const UNTOLD: HostStep = HostStep {
    next: 99,
    members: 99,
    senders: 99,
    ssrc: 99,
    changed: 99,
    kind: 99,
    size: 99,
    entries: 99,
    others_changed: 99,
};

/// A source that no call wrote.
pub(super) const NO_SOURCE: HostSource = HostSource {
    heard: 99,
    ssrc: 99,
    ..NOBODY
};

/// A session, from a handle that is empty.
pub(super) struct TestSession<'a> {
    /// What it shows.
    pub(super) name: &'a str,
    /// How far ahead the clocks are, on each of which it is played.
    pub(super) clocks: &'a [u64],
    pub(super) rows: &'a [Row<'a>],
}

impl TestSession<'_> {
    /// On each of its clocks its rows hold.
    pub(super) fn play(&self, rt: &impl Abort, alloc: Global) {
        for shift in self.clocks {
            self.play_on(rt, alloc, *shift);
        }
    }

    /// On this clock they hold, and the handle is empty after them.
    fn play_on(&self, rt: &impl Abort, alloc: Global, shift: u64) {
        let mut handle = Handle::empty(alloc);
        for (number, row) in self.rows.iter().enumerate() {
            let holds = row.holds(alloc, &mut handle, shift);
            assert!(rt; holds, "{}: row {number}, from {shift}", self.name);
        }
        assert_eq!(rt; jalwedd_free(alloc, &mut handle), 20, "{}", self.name);
    }
}
