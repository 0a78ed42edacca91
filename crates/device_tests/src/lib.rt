//! Tests of devices and lines, and of gates whose seats run in threads. It has no code but tests.
#![tactic(auto)]

#[cfg(test)]
mod devices;
#[cfg(test)]
mod gates;
#[cfg(test)]
mod lines;
