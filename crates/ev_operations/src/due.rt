/// What an actor is to do, by the place of a line among the script's lines.
#[derive(Clone, Copy, Debug, PartialEq, Eq)]
pub enum Due {
    /// The line at this place.
    Line(u32),
    /// The publication after it.
    Publish(u32),
    /// The reaping after that.
    Reap(u32),
    /// The settle after an accept or close that makes its worker's batch full.
    Settle(u32),
    /// The worker's settle after the script's last line.
    LastSettle,
}
