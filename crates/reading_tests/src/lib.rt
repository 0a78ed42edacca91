//! Tests of the crates that read and write JSON, as tables:
//! each row of a table is a body of JSON after what it reads as.
//! Beside them fields of each form, and the texts that are written. It has no code but tests.
#![tactic(auto)]

#[cfg(test)]
mod clusters;
#[cfg(test)]
mod fields;
#[cfg(test)]
mod listeners;
#[cfg(test)]
mod messages;
#[cfg(test)]
mod routes;
#[cfg(test)]
mod tables;
#[cfg(test)]
mod written;
