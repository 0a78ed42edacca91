use ev_keys::Keys;
use ev_types::{Entry, Format, Text};

/// What led to what is known: entries, by the rules of a format, for this many workers. Its tables hash by the keys.
#[derive(Clone, Copy)]
pub(crate) struct Past<'a> {
    pub(crate) keys: Keys,
    pub(crate) format: Format,
    pub(crate) workers: u32,
    pub(crate) node: &'a Text,
    pub(crate) journal: &'a [Entry],
}
