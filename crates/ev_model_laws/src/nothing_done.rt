ghost use Rattle.ev_model_laws.specs.NothingDone.{LeavesAsItWas};

/// A law of the definitions: an event that is answered as having done nothing leaves the world
/// as it was. It does nothing.
pub fn nothing_done_leaves_the_world()
    ensures { LeavesAsItWas }
{}
