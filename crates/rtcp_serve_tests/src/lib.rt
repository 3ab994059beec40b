//! Tests of `rtcp_serve`: sessions over a link in memory that keeps a log. They are a crate of their own, so that the
//! library is proved once, without them, and they once, over the library.
#![tactic(auto)]

#[cfg(test)]
mod tests;
