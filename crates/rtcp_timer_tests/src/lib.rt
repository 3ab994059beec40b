//! Tests of `rtcp_clock` and `rtcp_timer`, over their public calls: numbers that were worked out by hand, and the
//! examples on the front pages of both. They are a crate of their own, so that each layer and each test is proved once.
#![tactic(auto)]

#[cfg(test)]
mod clock;
#[cfg(test)]
mod timer;
