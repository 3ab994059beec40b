//! Tests of `rtcp_guarded`, over its public calls.
#![tactic(auto)]

#[cfg(test)]
mod tests;
