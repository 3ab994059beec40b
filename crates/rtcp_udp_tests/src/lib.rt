//! Tests of `rtcp_udp`: links over the loopback interface. They are a crate of their own, so that the library is proved
//! once, without them, and they once, over the library.
#![tactic(auto)]

#[cfg(test)]
mod tests;
