//! Tests of `rtcp_engine`, over its public calls: sessions worked by hand, configurations, leaves, changes of
//! identifier, `run` and its sinks, floods, damaged datagrams, and the loop of a host. The rows of a session run over
//! both tables.
#![tactic(auto)]

#[cfg(test)]
mod tests;
