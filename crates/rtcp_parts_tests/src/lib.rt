//! Tests of `rtcp_parts`, over its public calls. They are a crate of their own, above the built library, so that it is
//! proved once, and they once. Expected values were worked out by hand.
//!
//! - `tests`: the example on the front page of rtcp_parts, each walk over a compound and after its end, and what
//! rtcp_wire says of the same octets;
//! - `elsewhere`: datagrams that are no compounds, cursors of other datagrams, and random ones over random octets.
//!
//! The library itself is empty.
#![tactic(auto)]

#[cfg(test)]
mod tests;
