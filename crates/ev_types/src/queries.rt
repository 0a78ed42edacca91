use crate::{StringMatcher, Text};

/// What is asked of a query parameter. Source: the tests of Envoy's `QueryParameterMatcher`.
#[derive(Drop)]
pub enum QueryTest {
    /// Its value is a text that is taken.
    Text(StringMatcher),
    /// That it is there, or that it isn't.
    Present(bool),
    /// Something of its value that isn't decided here: a regular expression, or an extension.
    Open,
}

impl PartialEq for QueryTest {
    ghost use Rattle.std.specs.Cmp.{decided, partial_equiv_from_equiv};
    ghost use Rattle.ev_types.specs.SameMatchers.{query_test_same, query_test_decides};

    ghost eq = { query_test_same };

    ghost laws = { partial_equiv_from_equiv (decided query_test_same query_test_decides) };

    fn eq(&self, other: &QueryTest) -> bool {
        match (self, other) {
            (QueryTest::Text(matcher), QueryTest::Text(other)) => matcher == other,
            (QueryTest::Present(there), QueryTest::Present(other)) => *there == *other,
            (QueryTest::Open, QueryTest::Open) => true,
            _ => false,
        }
    }
}

impl Eq for QueryTest {
    ghost use Rattle.std.specs.Cmp.{decided};
    ghost use Rattle.ev_types.specs.SameMatchers.{query_test_same, query_test_decides};

    ghost laws = { decided query_test_same query_test_decides };
}

/// What a route asks of one parameter of a path's query. Source: Envoy's `QueryParameterMatcher`.
#[derive(Drop)]
pub struct QueryParameterMatcher {
    /// The parameter's name, in its case.
    pub name: Text,
    pub test: QueryTest,
}

impl PartialEq for QueryParameterMatcher {
    ghost use Rattle.std.specs.Cmp.{decided, partial_equiv_from_equiv};
    ghost use Rattle.ev_types.specs.SameMatchers.{query_matcher_same, query_matcher_decides};

    ghost eq = { query_matcher_same };

    ghost laws = { partial_equiv_from_equiv (decided query_matcher_same query_matcher_decides) };

    fn eq(&self, other: &QueryParameterMatcher) -> bool {
        self.name == other.name && self.test == other.test
    }
}

impl Eq for QueryParameterMatcher {
    ghost use Rattle.std.specs.Cmp.{decided};
    ghost use Rattle.ev_types.specs.SameMatchers.{query_matcher_same, query_matcher_decides};

    ghost laws = { decided query_matcher_same query_matcher_decides };
}
