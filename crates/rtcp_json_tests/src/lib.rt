//! Tests of `rtcp_json`: datagrams and answers, and their lines of JSON, each worked out by hand. They are a crate of
//! their own, so that the library is proved once, without them, and they once, over the library.
#![tactic(auto)]

#[cfg(test)]
mod tests;
