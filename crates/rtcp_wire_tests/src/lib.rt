//! Tests of `rtcp_wire`, over its public calls. They are a crate of their own, above the built library, so that it is
//! proved once, and they once. Expected values were worked out by hand, or by the scripts of compare/, which are
//! written from docs/ alone.
//!
//! - `tests`: the example on the front page of rtcp_wire, a named report, first faults, prefixes, and the texts of
//! errors; - `types`: a packet of each type; - `facts` and `about`: what a compound says about sources, and what its
//! reports say about one; - `changes` and `damage`: each change of one octet of a datagram, and each of its prefixes;
//! - `writing`: packets that are written; - `rtp`: the heads of RTP packets.
//!
//! The library itself is empty.
#![tactic(auto)]

#[cfg(test)]
mod tests;
