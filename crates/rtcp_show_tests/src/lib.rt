//! Tests of `rtcp_show`: the lines of events and answers, the rows of sources, and what a watcher writes of a session.
//! They are a crate of their own, so that the library is proved once, without them, and they once, over the library.
#![tactic(auto)]

#[cfg(test)]
mod tests;
