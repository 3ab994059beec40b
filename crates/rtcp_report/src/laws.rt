//! Laws of the definitions of reports. Each is an empty function whose postcondition is the law.

ghost use Rattle.std.specs.Prelude.{◌≡◌, ◌==◌, ◌≤◌, ℕ, List, Option, count_by, length, map};
ghost use Rattle.rtcp_wire.specs.Values.{ReportBlock, ItemValue};
ghost use Rattle.rtcp_wire.specs.Writing.{written_all};
ghost use Rattle.rtcp_members.specs.Traces.{TraceStep, with_blocks};
ghost use Rattle.rtcp_members.specs.Tables.{TableValue, StandsAt, HasFew};
ghost use Rattle.rtcp_members.specs.Pending.{EntryRow, blocks_of, after_blocks, pending_rows_at};
ghost use Rattle.rtcp_members.specs.News.{blocks_at, pending_at};
ghost use Rattle.rtcp_report.specs.Reports.{SentValue, Reporter, packets_with, bye_of, items_of, report_size, fitting};
ghost use Rattle.rtcp_report.specs.Sizes.{IsShort, reported_rows, IsLongestFitting};

/// The sources of a report are the longest prefix of the pending ones that fits, where a report without
/// blocks fits: none is left out that fits. There is one such prefix.
pub fn longest_prefix_is_reported()
    ensures longest { (reporter : Reporter) (limit : ℕ) (rows : List EntryRow) →
        report_size reporter 0 ≤ limit → IsLongestFitting reporter limit rows (fitting reporter limit rows) }
    ensures only { (reporter : Reporter) (limit : ℕ) (rows prefix : List EntryRow) →
        IsLongestFitting reporter limit rows prefix → prefix ≡ fitting reporter limit rows }
{}

/// No source is reported twice in a report.
pub fn none_is_reported_twice()
    ensures { (reporter : Reporter) (limit : ℕ) (last : Option ℕ) (table : TableValue) (ssrc : ℕ) →
        count_by (λ (row : EntryRow). row.0 == ssrc) (reported_rows reporter limit last table) ≤ 1 }
{}

/// A report has as many octets as its size says.
#[tactic(auto, using(crate::proofs::ReportSizes::packets_length))]
pub fn size_is_that_of_the_octets()
    ensures { (reporter : Reporter) (blocks : List ReportBlock) →
        length (written_all (packets_with reporter blocks)) ≡ report_size reporter (length blocks) }
{}

/// A report keeps to its limit, where one without blocks does. One without blocks has at most 552 octets, where
/// no text has more than 255, and the compound with a BYE at most 284.
pub fn compounds_are_small()
    ensures report { (reporter : Reporter) (limit t : ℕ) (rows : List EntryRow) →
        report_size reporter 0 ≤ limit →
        length (written_all (packets_with reporter (blocks_of t (fitting reporter limit rows)))) ≤ limit }
    ensures empty { (ssrc : ℕ) (sent : Option SentValue) (cname : List ℕ) (extra : Option ItemValue) →
        length cname ≤ 255 → IsShort extra →
        report_size (record { ssrc = ssrc; sent = sent; items = items_of cname extra }) 0 ≤ 552 }
    ensures bye { (ssrc : ℕ) (cname : List ℕ) → length cname ≤ 255 →
        length (written_all (bye_of ssrc cname)) ≤ 284 }
{}

/// The rows of a report are of just the pending sources that fit, and the blocks by what is kept of each are those of the
/// packets and sender reports in its stay (RFC 3550, 6.4.1, A.3).
pub fn reports_are_of_stays()
    ensures sources { (reporter : Reporter) (limit : ℕ) (last : Option ℕ) (capacity : ℕ) (trace : List TraceStep) →
        map (λ (row : EntryRow). row.0) (fitting reporter limit (pending_rows_at last capacity trace))
        ≡ fitting reporter limit (pending_at last capacity trace) }
    ensures blocks { (reporter : Reporter) (limit t : ℕ) (last : Option ℕ) (capacity : ℕ) (trace : List TraceStep) →
        blocks_of t (fitting reporter limit (pending_rows_at last capacity trace))
        ≡ blocks_at t capacity trace (fitting reporter limit (pending_at last capacity trace)) }
{}

/// A table that stands at a trace stands, once a report was made, at the trace with a block of each source of
/// the report. If no source was given more than some number of packets before a report, none was after it.
pub fn tables_follow_reports()
    ensures stands { (reporter : Reporter) (limit : ℕ) (last : Option ℕ) (table : TableValue)
        (trace : List TraceStep) → StandsAt table trace → let rows = reported_rows reporter limit last table in
        StandsAt (after_blocks rows table) (with_blocks (map (λ (row : EntryRow). row.0) rows) trace) }
    ensures packets { (packets : ℕ) (rows : List EntryRow) (table : TableValue) → HasFew packets table →
        HasFew packets (after_blocks rows table) }
{}
