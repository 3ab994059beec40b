//! What all participants of a session send together: they do not flood it with control traffic (RFC 3550, 6.2, 6.3).
//! There is nothing to call: each law is a function that does nothing, whose postcondition is the law, and `specs/` has
//! the definitions that it uses (`Windows`, `Crowds`, `Waits`, `Joins`, `BackoffByes`, `Deliveries`, `Falls`,
//! `Departures`).
#![tactic(auto)]

pub mod delivery_laws;
pub mod departure_laws;
pub mod fall_laws;
pub mod laws;
pub mod session_laws;
