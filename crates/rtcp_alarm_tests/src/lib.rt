//! Tests of `rtcp_alarm`: when an alarm is raised, and its line. They are a crate of their own, so that the library is
//! proved once, without them, and they once, over the library.
#![tactic(auto)]

#[cfg(test)]
mod tests;
