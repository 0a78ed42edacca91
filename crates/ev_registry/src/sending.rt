use crate::journal::Registry;
use ev_actors::Journaled;

/// A registry may be handed to another thread: without a proof of that, this function has none. It does nothing.
pub fn registry_is_sendable() {
    asks_send::<Registry>();
}

// Of what the actors act on, one that may be handed to another thread.
fn asks_send<J: Journaled + Send>() {}
