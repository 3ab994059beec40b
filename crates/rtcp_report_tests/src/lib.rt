//! Tests of `rtcp_report`, over its public calls: reports of a table's sources, octet by octet where they are small,
//! the compound with a BYE, and the sizes of both. The rows run over both tables of `rtcp_members`.
#![tactic(auto)]

#[cfg(test)]
mod list;
#[cfg(test)]
mod rows;
#[cfg(test)]
mod session;
#[cfg(test)]
mod sizes;
#[cfg(test)]
mod sorted;
