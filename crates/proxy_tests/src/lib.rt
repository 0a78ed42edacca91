//! Tests of what no script shows of a registry and of the crates below it, with ample memory:
//! the rules of format 1 for what is dead, the rows that were reaped, an idle worker, and a registry that is viewed.
//! It has no code but tests.
#![tactic(auto)]

#[cfg(test)]
mod drains;
#[cfg(test)]
mod registries;
#[cfg(test)]
mod workers;
