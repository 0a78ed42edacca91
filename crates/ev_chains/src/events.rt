use serde_json::Value;

/// What happens to a listener's filter chains.
#[derive(Clone, Copy)]
pub enum ChainEvent<'a> {
    /// The listener in a version, as its message's tree.
    Listener(&'a Value),
    /// A connection comes.
    Accept {
        /// Its number.
        conn: u64,
        /// The port that it comes to.
        port: u16,
        /// The server that it names, or the empty text.
        server: &'a str,
    },
    /// A connection closes.
    Close(u64),
    /// The drain timeout comes.
    DrainTimeout,
    /// Chains that nothing holds go.
    Reap,
}
