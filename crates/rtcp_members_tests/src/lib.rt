//! Tests of `rtcp_source` and `rtcp_members`, over their public calls: how a source counts its packets, and its report
//! blocks; who is admitted, held and dropped, who sends, and whose block is next. The rows of members run over both
//! tables, and random histories through both at once.
#![tactic(auto)]

#[cfg(test)]
mod members;
#[cfg(test)]
mod source;
