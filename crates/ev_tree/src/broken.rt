ghost use Rattle.std.specs.Prelude.{◌≡◌};
ghost use Rattle.ev_tree.specs.Broken.{none_broken, either_broken, broken_where, rules_of, least_of};
ghost use Rattle.ev_tree.specs.Rules.{IsLeast};
ghost use Rattle.ev_tree.specs.declared.broken.BrokenRules.{BrokenRules};

use crate::rules::least;
use ev_types::Rule;

/// Which form rules a body, or a part of one, breaks: a field for each. V4, V5 and V15 aren't among them, since
/// they need the whole response or the generations that are live.
#[derive(Clone, Copy, Debug, PartialEq, Eq)]
pub struct BrokenRules {
    /// The body is absent, is no object, or its `@type` isn't that of the response.
    pub v1: bool,
    /// A name is too long or empty.
    pub v2: bool,
    /// The outer name and the resource's own name differ.
    pub v3: bool,
    /// A field that is read has the wrong form.
    pub v6: bool,
    /// The discovery type is neither STATIC nor EDS.
    pub v7: bool,
    /// EDS is given without its configuration.
    pub v8: bool,
    /// The configuration of EDS is given with another type.
    pub v9: bool,
    /// A config source isn't the aggregated stream, or its timeout is negative.
    pub v10: bool,
    /// The connect timeout isn't positive.
    pub v11: bool,
    /// A host has no usable address.
    pub v12: bool,
    /// A weight, a priority or a sum of weights of hosts is out of its range.
    pub v13: bool,
    /// A listener has no usable address, or one for datagrams.
    pub v14: bool,
    /// Not exactly one filter chain, a default chain, or a chain's match with a member.
    pub v16: bool,
    /// Not exactly one filter of a chain serves.
    pub v17: bool,
    /// Routes aren't given in exactly one of the two ways.
    pub v18: bool,
    /// A virtual host has no name or no domains.
    pub v19: bool,
    /// A domain occurs twice in a route configuration.
    pub v20: bool,
    /// A match isn't exactly one of the three kinds, or has a condition that the profile lacks.
    pub v21: bool,
    /// An action or a cluster specifier isn't exactly one of those that the profile has.
    pub v22: bool,
    /// A cluster's name is empty.
    pub v23: bool,
    /// No pick can be taken of weights.
    pub v24: bool,
    /// A time to live isn't positive.
    pub v25: bool,
    /// Two filter chains take the same connections.
    pub v26: bool,
    /// A server name of a filter chain isn't one.
    pub v27: bool,
    /// Not exactly one kind of secret is given.
    pub v28: bool,
    /// An extension has no configuration with a type.
    pub v29: bool,
}

impl BrokenRules {
    /// No rule is broken.
    pub fn none() -> BrokenRules
        ensures { result ≡ none_broken }
    {
        BrokenRules {
            v1: false,
            v2: false,
            v3: false,
            v6: false,
            v7: false,
            v8: false,
            v9: false,
            v10: false,
            v11: false,
            v12: false,
            v13: false,
            v14: false,
            v16: false,
            v17: false,
            v18: false,
            v19: false,
            v20: false,
            v21: false,
            v22: false,
            v23: false,
            v24: false,
            v25: false,
            v26: false,
            v27: false,
            v28: false,
            v29: false,
        }
    }

    /// The rules that one of two parts breaks.
    pub fn or(self, other: BrokenRules) -> BrokenRules
        ensures { result ≡ either_broken self other }
    {
        BrokenRules {
            v1: self.v1 | other.v1,
            v2: self.v2 | other.v2,
            v3: self.v3 | other.v3,
            v6: self.v6 | other.v6,
            v7: self.v7 | other.v7,
            v8: self.v8 | other.v8,
            v9: self.v9 | other.v9,
            v10: self.v10 | other.v10,
            v11: self.v11 | other.v11,
            v12: self.v12 | other.v12,
            v13: self.v13 | other.v13,
            v14: self.v14 | other.v14,
            v16: self.v16 | other.v16,
            v17: self.v17 | other.v17,
            v18: self.v18 | other.v18,
            v19: self.v19 | other.v19,
            v20: self.v20 | other.v20,
            v21: self.v21 | other.v21,
            v22: self.v22 | other.v22,
            v23: self.v23 | other.v23,
            v24: self.v24 | other.v24,
            v25: self.v25 | other.v25,
            v26: self.v26 | other.v26,
            v27: self.v27 | other.v27,
            v28: self.v28 | other.v28,
            v29: self.v29 | other.v29,
        }
    }

    /// These rules where a condition holds, and no others.
    pub fn only_if(self, condition: bool) -> BrokenRules
        ensures { result ≡ broken_where condition self }
    {
        if condition { self } else { BrokenRules::none() }
    }

    /// The lowest-numbered rule that is broken: by it a body is refused.
    pub fn least(self) -> Option<Rule>
        ensures { result ≡ least_of self }
    {
        least(&[
            (Rule::V1, self.v1),
            (Rule::V2, self.v2),
            (Rule::V3, self.v3),
            (Rule::V6, self.v6),
            (Rule::V7, self.v7),
            (Rule::V8, self.v8),
            (Rule::V9, self.v9),
            (Rule::V10, self.v10),
            (Rule::V11, self.v11),
            (Rule::V12, self.v12),
            (Rule::V13, self.v13),
            (Rule::V14, self.v14),
            (Rule::V16, self.v16),
            (Rule::V17, self.v17),
            (Rule::V18, self.v18),
            (Rule::V19, self.v19),
            (Rule::V20, self.v20),
            (Rule::V21, self.v21),
            (Rule::V22, self.v22),
            (Rule::V23, self.v23),
            (Rule::V24, self.v24),
            (Rule::V25, self.v25),
            (Rule::V26, self.v26),
            (Rule::V27, self.v27),
            (Rule::V28, self.v28),
            (Rule::V29, self.v29),
        ])
    }
}

/// The lowest-numbered rule is broken, no smaller one is, and where there is none, none is broken:
/// a law of the definitions.
pub fn least_is_least()
    ensures { (broken : BrokenRules) → IsLeast (rules_of broken) (least_of broken) }
{}
