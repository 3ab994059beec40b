//! Tests of `rtcp_listing`, over its public calls: which sources changed between two listings, and what each change is
//! called.
#![tactic(auto)]

#[cfg(test)]
mod tests;
