//! How far goodbyes put off what a guarded participant sends (RFC 3550, 6.3.4 and 8.2): an address cannot keep it from
//! reporting by saying BYE. There is nothing to call: each law is a function that does nothing, whose postcondition is
//! the law, and `specs/` has the definitions that it uses (`Goodbyes`).
#![tactic(auto)]

pub mod goodbye_laws;
