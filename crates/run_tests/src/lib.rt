//! Tests of the threaded run: that its threads run at once, that what they enter is entered
//! as the turns fall, that a batch is made before its turn, that an idle worker settles after a publication
//! that it hasn't heard of, that each pass gets the newest version, and that a long run is legal for the audit.
//! It has no code but tests.
#![tactic(auto)]

#[cfg(test)]
mod newest;
#[cfg(test)]
mod paces;
#[cfg(test)]
mod runs;
#[cfg(test)]
mod soaks;
