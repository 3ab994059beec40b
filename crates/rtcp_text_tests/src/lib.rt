//! Tests of `rtcp_text`: worked lines and their answers, and readers and writers that fail. They are a crate of their
//! own, so that the library is proved once, without them, and they once, over the library.
#![tactic(auto)]

#[cfg(test)]
mod tests;
