/// What a journal counts up to.
#[derive(Clone, Copy, Debug, PartialEq, Eq)]
pub struct Tally {
    /// The responses that were answered, none of whose resources is refused.
    pub acks: u64,
    /// The responses that were answered, one of whose resources is refused.
    pub nacks: u64,
    /// The accepts that opened a connection: a filter chain of a listener took them, whatever became of them there.
    pub opened: u64,
    /// The accepts that were answered with a host.
    pub served: u64,
    /// The generations that were destroyed.
    pub reaped: u64,
}
