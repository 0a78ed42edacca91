//! Keys by which tables of an input's names hash, made of that input:
//! so nobody can make names that all meet in one place of a table, where each look-up would compare them all.
#![tactic(auto)]

use std::hash::{BuildHasher, DefaultHasher, Hash, Hasher};

/// The keys by which a table hashes. A copy hashes alike.
#[derive(Clone, Copy)]
pub struct Keys {
    start: DefaultHasher,
}

impl Keys {
    /// The keys after what a hasher was fed, as the lines of an input.
    pub fn after(fed: DefaultHasher) -> Keys {
        let mut hasher = fed;
        let first = hasher.finish();
        hasher.write_u64(first);
        let second = hasher.finish();
        let mut start = DefaultHasher::new();
        start.write_u64(first);
        start.write_u64(second);
        Keys { start }
    }

    /// The keys after these values: for a table that is made of them at once.
    pub fn of<T: Hash>(values: &[T]) -> Keys {
        let mut fed = DefaultHasher::new();
        for value in values {
            value.hash(&mut fed);
        }
        Keys::after(fed)
    }
}

impl BuildHasher for Keys {
    type Hasher = DefaultHasher;

    ghost build_hasher = { λ keys. keys.start };

    fn build_hasher(&self) -> DefaultHasher {
        self.start
    }
}
