use crate::{PathMatch, QueryParameterMatcher, Seq, Text};

/// What a text is held against. Source: the patterns of Envoy's `StringMatcher`.
#[derive(Drop)]
pub enum StringPattern {
    /// The text that is equal to it.
    Exact(Text),
    /// Those that begin with it.
    Prefix(Text),
    /// Those that end with it.
    Suffix(Text),
    /// Those that have it as a part.
    Contains(Text),
}

impl PartialEq for StringPattern {
    ghost use Rattle.std.specs.Cmp.{decided, partial_equiv_from_equiv};
    ghost use Rattle.ev_types.specs.SameMatchers.{string_pattern_same, string_pattern_decides};

    ghost eq = { string_pattern_same };

    ghost laws = { partial_equiv_from_equiv (decided string_pattern_same string_pattern_decides) };

    fn eq(&self, other: &StringPattern) -> bool {
        match (self, other) {
            (StringPattern::Exact(text), StringPattern::Exact(other)) => text == other,
            (StringPattern::Prefix(text), StringPattern::Prefix(other)) => text == other,
            (StringPattern::Suffix(text), StringPattern::Suffix(other)) => text == other,
            (StringPattern::Contains(text), StringPattern::Contains(other)) => text == other,
            _ => false,
        }
    }
}

impl Eq for StringPattern {
    ghost use Rattle.std.specs.Cmp.{decided};
    ghost use Rattle.ev_types.specs.SameMatchers.{string_pattern_same, string_pattern_decides};

    ghost laws = { decided string_pattern_same string_pattern_decides };
}

/// Which texts are taken. Source: Envoy's `StringMatcher`.
#[derive(Drop)]
pub struct StringMatcher {
    pub pattern: StringPattern,
    /// Whether ASCII letters of both are compared as lower case.
    pub ignore_case: bool,
}

impl PartialEq for StringMatcher {
    ghost use Rattle.std.specs.Cmp.{decided, partial_equiv_from_equiv};
    ghost use Rattle.ev_types.specs.SameMatchers.{string_matcher_same, string_matcher_decides};

    ghost eq = { string_matcher_same };

    ghost laws = { partial_equiv_from_equiv (decided string_matcher_same string_matcher_decides) };

    fn eq(&self, other: &StringMatcher) -> bool {
        self.pattern == other.pattern && self.ignore_case == other.ignore_case
    }
}

impl Eq for StringMatcher {
    ghost use Rattle.std.specs.Cmp.{decided};
    ghost use Rattle.ev_types.specs.SameMatchers.{string_matcher_same, string_matcher_decides};

    ghost laws = { decided string_matcher_same string_matcher_decides };
}

/// What is asked of a header's value. Source: the tests of Envoy's `HeaderMatcher`.
#[derive(Drop)]
pub enum HeaderTest {
    /// Its text is taken.
    Text(StringMatcher),
    /// It is there.
    Present,
    /// It is the decimal text of a whole number that is at least `start` and below `end`.
    Range { start: i64, end: i64 },
    /// Something that isn't decided here: a regular expression, or an extension.
    Open,
}

impl PartialEq for HeaderTest {
    ghost use Rattle.std.specs.Cmp.{decided, partial_equiv_from_equiv};
    ghost use Rattle.ev_types.specs.SameMatchers.{header_test_same, header_test_decides};

    ghost eq = { header_test_same };

    ghost laws = { partial_equiv_from_equiv (decided header_test_same header_test_decides) };

    fn eq(&self, other: &HeaderTest) -> bool {
        match (self, other) {
            (HeaderTest::Text(matcher), HeaderTest::Text(other)) => matcher == other,
            (HeaderTest::Present, HeaderTest::Present) => true,
            (
                HeaderTest::Range { start, end },
                HeaderTest::Range {
                    start: other_start,
                    end: other_end,
                },
            ) => *start == *other_start && *end == *other_end,
            (HeaderTest::Open, HeaderTest::Open) => true,
            _ => false,
        }
    }
}

impl Eq for HeaderTest {
    ghost use Rattle.std.specs.Cmp.{decided};
    ghost use Rattle.ev_types.specs.SameMatchers.{header_test_same, header_test_decides};

    ghost laws = { decided header_test_same header_test_decides };
}

/// What a route asks of one header. Source: Envoy's `HeaderMatcher`.
#[derive(Drop)]
pub struct HeaderMatcher {
    /// The header's name, its ASCII letters in lower case.
    pub name: Text,
    pub test: HeaderTest,
    /// Whether what the test says is turned over.
    pub invert_match: bool,
    /// Whether a header that is missing counts as one with an empty value.
    pub treat_missing_header_as_empty: bool,
}

impl PartialEq for HeaderMatcher {
    ghost use Rattle.std.specs.Cmp.{decided, partial_equiv_from_equiv};
    ghost use Rattle.ev_types.specs.SameMatchers.{header_matcher_same, header_matcher_decides};

    ghost eq = { header_matcher_same };

    ghost laws = { partial_equiv_from_equiv (decided header_matcher_same header_matcher_decides) };

    fn eq(&self, other: &HeaderMatcher) -> bool {
        self.name == other.name
            && self.test == other.test
            && self.invert_match == other.invert_match
            && self.treat_missing_header_as_empty == other.treat_missing_header_as_empty
    }
}

impl Eq for HeaderMatcher {
    ghost use Rattle.std.specs.Cmp.{decided};
    ghost use Rattle.ev_types.specs.SameMatchers.{header_matcher_same, header_matcher_decides};

    ghost laws = { decided header_matcher_same header_matcher_decides };
}

/// What a route asks of a request beside its path. Source: Envoy's `RouteMatch`.
#[derive(Drop)]
pub enum RouteCondition {
    /// Something of one header.
    Header(HeaderMatcher),
    /// Something of one query parameter.
    Query(QueryParameterMatcher),
    /// That it is a gRPC request.
    Grpc,
    /// Something that isn't decided here: a fraction of requests, a certificate, metadata, or filter state.
    Open,
}

impl PartialEq for RouteCondition {
    ghost use Rattle.std.specs.Cmp.{decided, partial_equiv_from_equiv};
    ghost use Rattle.ev_types.specs.SameMatchers.{route_condition_same, route_condition_decides};

    ghost eq = { route_condition_same };

    ghost laws = { partial_equiv_from_equiv (decided route_condition_same route_condition_decides) };

    fn eq(&self, other: &RouteCondition) -> bool {
        match (self, other) {
            (RouteCondition::Header(matcher), RouteCondition::Header(other)) => matcher == other,
            (RouteCondition::Query(matcher), RouteCondition::Query(other)) => matcher == other,
            (RouteCondition::Grpc, RouteCondition::Grpc) => true,
            (RouteCondition::Open, RouteCondition::Open) => true,
            _ => false,
        }
    }
}

impl Eq for RouteCondition {
    ghost use Rattle.std.specs.Cmp.{decided};
    ghost use Rattle.ev_types.specs.SameMatchers.{route_condition_same, route_condition_decides};

    ghost laws = { decided route_condition_same route_condition_decides };
}

/// Which paths a route takes, and how they are compared. Source: the path specifier of Envoy's `RouteMatch`.
#[derive(Drop)]
pub enum PathSpecifier {
    /// Byte by byte.
    Cased(PathMatch),
    /// With ASCII letters of both as lower case.
    Folded(PathMatch),
    /// Whatever the path is, where the method is CONNECT.
    Connect,
    /// By something that isn't decided here: a regular expression, or an extension.
    Open,
}

impl PartialEq for PathSpecifier {
    ghost use Rattle.std.specs.Cmp.{decided, partial_equiv_from_equiv};
    ghost use Rattle.ev_types.specs.SameMatchers.{path_specifier_same, path_specifier_decides};

    ghost eq = { path_specifier_same };

    ghost laws = { partial_equiv_from_equiv (decided path_specifier_same path_specifier_decides) };

    fn eq(&self, other: &PathSpecifier) -> bool {
        match (self, other) {
            (PathSpecifier::Cased(path), PathSpecifier::Cased(other)) => path == other,
            (PathSpecifier::Folded(path), PathSpecifier::Folded(other)) => path == other,
            (PathSpecifier::Connect, PathSpecifier::Connect) => true,
            (PathSpecifier::Open, PathSpecifier::Open) => true,
            _ => false,
        }
    }
}

impl Eq for PathSpecifier {
    ghost use Rattle.std.specs.Cmp.{decided};
    ghost use Rattle.ev_types.specs.SameMatchers.{path_specifier_same, path_specifier_decides};

    ghost laws = { decided path_specifier_same path_specifier_decides };
}

/// Which requests a route takes: those whose path it takes, and that meet all conditions. Source: Envoy's `RouteMatch`.
#[derive(Drop)]
pub struct RouteMatch {
    pub path: PathSpecifier,
    pub conditions: Seq<RouteCondition>,
}

impl PartialEq for RouteMatch {
    ghost use Rattle.std.specs.Cmp.{decided, partial_equiv_from_equiv};
    ghost use Rattle.ev_types.specs.SameMatchers.{route_match_same, route_match_decides};

    ghost eq = { route_match_same };

    ghost laws = { partial_equiv_from_equiv (decided route_match_same route_match_decides) };

    fn eq(&self, other: &RouteMatch) -> bool {
        self.path == other.path && self.conditions == other.conditions
    }
}

impl Eq for RouteMatch {
    ghost use Rattle.std.specs.Cmp.{decided};
    ghost use Rattle.ev_types.specs.SameMatchers.{route_match_same, route_match_decides};

    ghost laws = { decided route_match_same route_match_decides };
}
