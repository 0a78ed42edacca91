//! The flat machine: what warmgate's managers do, as definitions over plain lists. It has no code that runs but the
//! copies and comparisons of its types.
//!
//! `World` is what the managers know, `Step` what one event does to it and how it is answered, `Runs` what a journal
//! is a run of, `Operations` which events a script holds for each actor and in which order a replay takes them, `Laws`
//! what holds of every run, `Finding` what is found of a journal that is held against its script.
#![tactic(auto)]

mod pictures;

pub use pictures::{
    Choice, Picture, Routing, Secrets, ServedChain, ServedCluster, ServedListener, Shown, Taken,
};
