//! What is accepted is sealed: in a run of a script in which clusters wait for their secrets, no connection goes to
//! such a cluster before each of its secrets has come. As Envoy reads a script its clusters wait by themselves, and
//! this says nothing of them. No code that runs.
//!
//! - It is said of every run of the script that the command writes, in both formats, by one thread or by several, and
//!   of any trees.
//! - It is said by the resources of the input, and by no key or number: an accepted generation was made by a resource
//!   of a line, and each secret that this resource names has come. So a body that leaves such a cluster as it is, or
//!   takes two for one which name different secrets, doesn't meet it. Which generation a resource made is said by how
//!   many were made before it.
//! - That a secret has come is said of the input: a line brings it, where a stream is open. That this was before the
//!   accept is said of the journal: the line's own line of the text is there as an entry of the stream.

ghost use Rattle.ev_tls.specs.Sealed.{Sealed};

/// A law of every run of a script whose clusters wait for their secrets: an accept at a cluster comes after the
/// entries of the stream by which each secret has come that the cluster's resource in the input names. It does
/// nothing.
pub fn accepts_are_sealed()
    ensures { Sealed }
{}
