use std::marker::Model;

/// A rule that a resource may break, by its number. A journal names it by `V` and the number.
#[derive(Clone, Copy, Debug, PartialEq, Eq, PartialOrd, Ord)]
pub struct Rule {
    number: u8,
}

impl Model for Rule {
    ghost use Rattle.std.specs.Prelude.{ℕ};

    ghost Value = { ℕ };

    ghost view = { λ r. r.number };

    ghost inverse = { λ n. record { number = n } };
}

impl Rule {
    ghost use Rattle.std.specs.Prelude.{◌≡◌};

    /// The body is absent, is no object, or its `@type` isn't that of the response.
    pub const V1: Rule = Rule { number: 1 };

    /// A name is too long or empty.
    pub const V2: Rule = Rule { number: 2 };

    /// The outer name and the resource's own name differ.
    pub const V3: Rule = Rule { number: 3 };

    /// The response has the name twice.
    pub const V4: Rule = Rule { number: 4 };

    /// The response removes the name too.
    pub const V5: Rule = Rule { number: 5 };

    /// A field that is read has the wrong form.
    pub const V6: Rule = Rule { number: 6 };

    /// The discovery type is neither STATIC nor EDS.
    pub const V7: Rule = Rule { number: 7 };

    /// EDS is given without its configuration.
    pub const V8: Rule = Rule { number: 8 };

    /// The configuration of EDS is given with another type.
    pub const V9: Rule = Rule { number: 9 };

    /// A config source isn't one that the profile takes, or its timeout is negative.
    pub const V10: Rule = Rule { number: 10 };

    /// The connect timeout isn't positive.
    pub const V11: Rule = Rule { number: 11 };

    /// A host has no usable address.
    pub const V12: Rule = Rule { number: 12 };

    /// A weight, a priority or a sum of weights of hosts is out of its range.
    pub const V13: Rule = Rule { number: 13 };

    /// A listener has no usable address.
    pub const V14: Rule = Rule { number: 14 };

    /// Another listener has the address.
    pub const V15: Rule = Rule { number: 15 };

    /// A listener has no filter chain, or more of it than the profile takes, or a range of addresses is none.
    pub const V16: Rule = Rule { number: 16 };

    /// Not exactly one filter of a chain serves.
    pub const V17: Rule = Rule { number: 17 };

    /// Routes aren't given in exactly one of the ways that the profile takes.
    pub const V18: Rule = Rule { number: 18 };

    /// A virtual host has no name or no domains.
    pub const V19: Rule = Rule { number: 19 };

    /// A domain occurs twice in a route configuration.
    pub const V20: Rule = Rule { number: 20 };

    /// A match of a route isn't one that the profile takes.
    pub const V21: Rule = Rule { number: 21 };

    /// An action or a cluster specifier isn't exactly one of those that the profile takes.
    pub const V22: Rule = Rule { number: 22 };

    /// A cluster's name is empty.
    pub const V23: Rule = Rule { number: 23 };

    /// No pick can be taken of weights.
    pub const V24: Rule = Rule { number: 24 };

    /// A time to live isn't positive.
    pub const V25: Rule = Rule { number: 25 };

    /// Two filter chains take the same connections.
    pub const V26: Rule = Rule { number: 26 };

    /// A server name of a filter chain isn't one.
    pub const V27: Rule = Rule { number: 27 };

    /// Not exactly one kind of secret is given.
    pub const V28: Rule = Rule { number: 28 };

    /// An extension has no configuration with a type.
    pub const V29: Rule = Rule { number: 29 };

    /// The rule of this number.
    pub fn new(number: u8) -> Rule
        ensures number { result ≡ number }
    {
        Rule { number }
    }

    /// Its number.
    pub fn number(self) -> u8
        ensures number { result ≡ self }
    {
        self.number
    }
}
