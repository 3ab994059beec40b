//! Tests of `rtcp_command`: command lines, and work over text from the order to the exit status. They are a crate of
//! their own, so that the library is proved once, without them, and they once, over the library.
#![tactic(auto)]

#[cfg(test)]
mod tests;
