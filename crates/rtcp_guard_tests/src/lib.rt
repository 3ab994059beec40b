//! Tests of `rtcp_guard`, over its public calls.
#![tactic(auto)]

#[cfg(test)]
mod tests;
