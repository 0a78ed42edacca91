ghost use Rattle.std.specs.Prelude.{◌≡◌};
ghost use Rattle.ev_model.specs.Choice.{taker_of};

use ev_listeners::{Listeners, LocalEnd, RoutedListener};
use ev_types::Ask;

/// The listener that takes a connection which came to one that restores: where this hands over, the one where the
/// connection is meant to go, if there is one. It takes three look-ups at most.
pub fn taker_of<'s>(
    listeners: &'s Listeners,
    listener: &'s RoutedListener,
    ask: &Ask,
) -> &'s RoutedListener
    ensures { result.now ≡ taker_of listeners.now ask.now listener.now }
{
    if !listener.hands_over() {
        return listener;
    }
    match listeners.for_end(&LocalEnd::meant_by(ask)) {
        Some(taker) => taker,
        None => listener,
    }
}
