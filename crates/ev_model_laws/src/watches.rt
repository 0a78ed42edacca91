ghost use Rattle.ev_model_laws.specs.Watches.{LiveAreNamed, WatchesBeginWithNew};

/// A law of the machine: on each name that is watched after an event, and wasn't before it,
/// a generation depends that the event has made. It does nothing.
pub fn watches_begin_with_new()
    ensures { WatchesBeginWithNew }
{}

/// A law of the machine: what lives after an answered response of clusters or listeners, of its kind,
/// has the name of one of its resources, or lived before and isn't removed by it. It does nothing.
pub fn live_are_named()
    ensures { LiveAreNamed }
{}
