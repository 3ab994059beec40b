//! When alarms are raised, and their lines.

mod bells;
mod lines;
mod loss;
mod session;
mod silence;
