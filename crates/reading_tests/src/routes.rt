use ev_route_json::{read_routes, read_target};
use ev_types::{
    Action, HeaderMatcher, HeaderTest, PathMatch, PathSpecifier, Profile, QueryParameterMatcher,
    QueryTest, RouteCondition, RouteMatch, RouteTable, StringMatcher, StringPattern, Target,
};
use serde_json::Value;
use std::alloc::{AllocError, Global};
use std::test::Fail;

// The target as text.
fn describe_target(alloc: Global, text: &mut String, target: &Target) -> Result<(), AllocError> {
    match target {
        Target::One(name) => text.push_str(name.as_str()),
        Target::Weighted(clusters) => {
            for cluster in clusters.clusters() {
                let weight = format!(in alloc; "{}", cluster.weight)?;
                text.push_str(cluster.name.as_str())?;
                text.push_str("*")?;
                text.push_str(weight.as_str())?;
                text.push_str(" ")?;
            }
            Ok(())
        }
        Target::Elsewhere => text.push_str("elsewhere"),
    }
}

// The path as text, after its kind.
fn describe_path(text: &mut String, path: &PathMatch) -> Result<(), AllocError> {
    let (kind, path) = match path {
        PathMatch::Prefix(path) => ("prefix ", path),
        PathMatch::Path(path) => ("path ", path),
        PathMatch::Separated(path) => ("separated ", path),
    };
    text.push_str(kind)?;
    text.push_str(path.as_str())
}

// The paths that are taken, as text.
fn describe_specifier(text: &mut String, path: &PathSpecifier) -> Result<(), AllocError> {
    match path {
        PathSpecifier::Cased(path) => describe_path(text, path),
        PathSpecifier::Folded(path) => {
            text.push_str("folded ")?;
            describe_path(text, path)
        }
        PathSpecifier::Connect => text.push_str("connect"),
        PathSpecifier::Open => text.push_str("open"),
    }
}

// A pattern as text, after its kind.
fn describe_pattern(text: &mut String, pattern: &StringPattern) -> Result<(), AllocError> {
    let (kind, pattern) = match pattern {
        StringPattern::Exact(pattern) => (" exact ", pattern),
        StringPattern::Prefix(pattern) => (" prefix ", pattern),
        StringPattern::Suffix(pattern) => (" suffix ", pattern),
        StringPattern::Contains(pattern) => (" contains ", pattern),
    };
    text.push_str(kind)?;
    text.push_str(pattern.as_str())
}

// A string matcher as text.
fn describe_matcher(text: &mut String, matcher: &StringMatcher) -> Result<(), AllocError> {
    describe_pattern(text, &matcher.pattern)?;
    text.push_str(if matcher.ignore_case { " folded" } else { "" })
}

// What is asked of a header's value, as text.
fn describe_test(alloc: Global, text: &mut String, test: &HeaderTest) -> Result<(), AllocError> {
    match test {
        HeaderTest::Text(matcher) => describe_matcher(text, matcher),
        HeaderTest::Range { start, end } => {
            text.push_str(format!(in alloc; " from {start} below {end}")?.as_str())
        }
        HeaderTest::Present => text.push_str(" present"),
        HeaderTest::Open => text.push_str(" open"),
    }
}

// What is asked of a header, as text.
fn describe_header(
    alloc: Global,
    text: &mut String,
    header: &HeaderMatcher,
) -> Result<(), AllocError> {
    text.push_str(header.name.as_str())?;
    describe_test(alloc, text, &header.test)?;
    text.push_str(if header.invert_match { " inverted" } else { "" })?;
    text.push_str(if header.treat_missing_header_as_empty {
        " or empty"
    } else {
        ""
    })
}

// What is asked of a query parameter, as text.
fn describe_query(text: &mut String, parameter: &QueryParameterMatcher) -> Result<(), AllocError> {
    text.push_str("query ")?;
    text.push_str(parameter.name.as_str())?;
    match &parameter.test {
        QueryTest::Text(matcher) => describe_matcher(text, matcher),
        QueryTest::Present(there) => text.push_str(if *there { " present" } else { " absent" }),
        QueryTest::Open => text.push_str(" open"),
    }
}

// A condition as text.
fn describe_condition(
    alloc: Global,
    text: &mut String,
    condition: &RouteCondition,
) -> Result<(), AllocError> {
    match condition {
        RouteCondition::Header(header) => describe_header(alloc, text, header),
        RouteCondition::Query(parameter) => describe_query(text, parameter),
        RouteCondition::Grpc => text.push_str("grpc"),
        RouteCondition::Open => text.push_str("open"),
    }
}

// A match as text: its path, and each condition after `if`.
fn describe_match(
    alloc: Global,
    text: &mut String,
    matched: &RouteMatch,
) -> Result<(), AllocError> {
    describe_specifier(text, &matched.path)?;
    for condition in matched.conditions.as_slice() {
        text.push_str(" if ")?;
        describe_condition(alloc, text, condition)?;
    }
    Ok(())
}

// The action as text.
fn describe_action(alloc: Global, text: &mut String, action: &Action) -> Result<(), AllocError> {
    match action {
        Action::Forward(target) => describe_target(alloc, text, target),
        Action::Redirect => text.push_str("redirect"),
        Action::Local(status) => text.push_str(format!(in alloc; "{status}")?.as_str()),
        Action::Elsewhere => text.push_str("to a filter"),
    }
}

// The content of a table as text, a line each host.
fn describe(alloc: Global, table: &RouteTable) -> Result<String, AllocError> {
    let mut text = String::new(alloc);
    for host in table.hosts.as_slice() {
        text.push_str(host.name.as_str())?;
        for domain in host.domains.as_slice() {
            text.push_str(" ")?;
            text.push_str(domain.as_str())?;
        }
        for route in host.routes.as_slice() {
            text.push_str("; ")?;
            describe_match(alloc, &mut text, &route.route_match)?;
            text.push_str(" -> ")?;
            describe_action(alloc, &mut text, &route.action)?;
        }
        text.push_str("\n")?;
    }
    Ok(text)
}

// A route configuration with one host that has this route.
fn around(alloc: Global, route: &str) -> Result<String, AllocError> {
    let mut text = String::from_str(
        alloc,
        r#"{"virtual_hosts":[{"name":"h","domains":["*"],"routes":["#,
    )?;
    text.push_str(route)?;
    text.push_str("]}]}")?;
    Ok(text)
}

// What a route configuration reads as: its content, or the rule that refuses it.
pub(crate) fn tell_routes(alloc: Global, profile: Profile, body: &Value) -> Result<String, Fail> {
    match read_routes(alloc, profile, body) {
        Ok(table) => {
            let text = describe(alloc, &table);
            drop(table);
            Ok(text?)
        }
        Err(error) => Ok(format!(in alloc; "{error}")?),
    }
}

// The same of a route configuration with one host that has this route.
pub(crate) fn tell_route(alloc: Global, profile: Profile, route: &Value) -> Result<String, Fail> {
    let text = around(alloc, route.to_string(alloc)?.as_str())?;
    let body = Value::from_str(alloc, text.as_str())?;
    let told = tell_routes(alloc, profile, &body);
    drop(body);
    told
}

// What a target reads as.
pub(crate) fn tell_target(alloc: Global, profile: Profile, body: &Value) -> Result<String, Fail> {
    match read_target(alloc, profile, body) {
        Ok(target) => {
            let mut text = String::new(alloc);
            let told = describe_target(alloc, &mut text, &target);
            drop(target);
            told?;
            Ok(text)
        }
        Err(error) => Ok(format!(in alloc; "{error}")?),
    }
}

// Route configurations, each after what it reads as.
pub(crate) const ROUTE_TABLES: &str = r#"[
  ["", {}],
  ["", {"name":"","virtual_hosts":[],"virtualHosts":null}],
  ["a * \n", {"virtualHosts":[{"name":"a","domains":["*",""]}],"vhds":{},"validate_clusters":7}],
  ["V6", {"name":1}],
  ["V6", {"virtual_hosts":{}}],
  ["V6", {"virtual_hosts":[null]}],
  ["V6", {"virtual_hosts":[],"virtualHosts":[]}],
  ["V6", {"virtual_hosts":[{"name":true,"domains":["*"]}]}],
  ["V6", {"virtual_hosts":[{"name":"a","domains":["*",null]}]}],
  ["V6", {"virtual_hosts":[{"name":"a","domains":"*"}]}],
  ["V6", {"virtual_hosts":[{"name":"a","domains":["*"],"routes":{}}]}],
  ["V6", {"virtual_hosts":[{"name":"a","domains":["*"],"routes":["x"]}]}],
  ["V6", {"virtual_hosts":[{"domains":[]},{"name":"a","domains":["*"],"routes":[{"match":3}]}]}],
  ["V19", {"virtual_hosts":[{"domains":["*"]}]}],
  ["V19", {"virtual_hosts":[{"name":"","domains":["*"]}]}],
  ["V19", {"virtual_hosts":[{"name":"a"}]}],
  ["V19", {"virtual_hosts":[{"name":"a","domains":[]}]}],
  ["V19", {"virtual_hosts":[{"name":"a","domains":["x","X"],"routes":[{}]},{"name":null,"domains":["y"]}]}],
  ["V20", {"virtual_hosts":[{"name":"a","domains":["x","y","x"]}]}],
  ["V20", {"virtual_hosts":[{"name":"a","domains":["a.Com"]},{"name":"b","domains":["A.cOM"]}]}],
  ["V20", {"virtual_hosts":[{"name":"a","domains":["*"],"routes":[{}]},{"name":"b","domains":["*"]}]}],
  ["a ä\na Ä A.b *.b .b\n", {"virtual_hosts":[{"name":"a","domains":["\u00e4"]},{"name":"a","domains":["\u00c4","A.b","*.b",".b"]}]}],
  ["V21", {"virtual_hosts":[{"name":"a","domains":["*"],"routes":[{"redirect":{}}]}]}],
  ["V21", {"virtual_hosts":[{"name":"a","domains":["*"],"routes":[{"match":{"prefix":"/"}},{"match":{},"redirect":{}}]}]}],
  ["V22", {"virtual_hosts":[{"name":"a","domains":["*"],"routes":[{"match":{"prefix":"/"},"route":{"cluster":""}},{"match":{"prefix":"/"}}]}]}],
  ["V23", {"virtual_hosts":[{"name":"a","domains":["*"],"routes":[{"match":{"prefix":"/"},"route":{"weighted_clusters":{}}},{"match":{"prefix":"/"},"route":{"cluster":""}}]}]}],
  ["V24", {"virtual_hosts":[{"name":"a","domains":["*"],"routes":[{"match":{"prefix":"/"},"route":{"weighted_clusters":{}}}]}]}],
  ["V24", {"virtual_hosts":[{"name":"a","domains":["*"]},{"name":"b","domains":["b"],"routes":[{"match":{"prefix":"/"},"redirect":{}},{"match":{"path":""},"route":{"weighted_clusters":{"clusters":[{"name":"x"}]}}}]}]}]
]"#;

// The same of the one route of a configuration.
pub(crate) const ROUTES: &str = r#"[
  ["h *; prefix  -> redirect\n", {"match":{"prefix":""},"redirect":{"host_redirect":7}}],
  ["h *; path  -> redirect\n", {"match":{"path":""},"redirect":{},"direct_response":null}],
  ["h *; separated /a -> redirect\n", {"match":{"path_separated_prefix":"/a","headers":[],"queryParameters":[],"grpc":null},"redirect":{}}],
  ["h *; separated a -> 200\n", {"match":{"pathSeparatedPrefix":"a","caseSensitive":true},"directResponse":{"status":"200"}}],
  ["h *; prefix / -> 599\n", {"match":{"prefix":"/"},"direct_response":{"status":599}}],
  ["V6", {"match":[],"redirect":{}}],
  ["V6", {"match":{"prefix":1},"redirect":{}}],
  ["V6", {"match":{"prefix":"/","path":{}},"redirect":{}}],
  ["V6", {"match":{"path_separated_prefix":"/a","pathSeparatedPrefix":"/a"},"redirect":{}}],
  ["V6", {"match":{"prefix":"/","case_sensitive":"false"},"redirect":{}}],
  ["V6", {"match":{"prefix":"/","safe_regex":1,"safeRegex":1},"redirect":{}}],
  ["V6", {"match":{"query_parameters":[],"queryParameters":[]}}],
  ["V6", {"match":{},"route":{"cluster":1}}],
  ["V6", {"match":{"prefix":"/"},"route":1}],
  ["V6", {"match":{"prefix":"/"},"redirect":""}],
  ["V6", {"match":{"prefix":"/"},"direct_response":[]}],
  ["V6", {"match":{"prefix":"/"},"filter_action":1}],
  ["V6", {"match":{"prefix":"/"},"nonForwardingAction":{},"non_forwarding_action":{}}],
  ["V6", {"match":{"prefix":"/"},"direct_response":{"status":-1}}],
  ["V21", {"match":null,"redirect":{}}],
  ["V21", {"match":{"prefix":null},"redirect":{}}],
  ["V21", {"match":{"prefix":"/","path":"/"},"redirect":{}}],
  ["V21", {"match":{"path":"/","path_separated_prefix":"/a"},"redirect":{}}],
  ["V21", {"match":{"safe_regex":{"regex":"x"}},"redirect":{}}],
  ["V21", {"match":{"prefix":"/","safeRegex":1},"redirect":{}}],
  ["V21", {"match":{"prefix":"/","connect_matcher":{}},"redirect":{}}],
  ["V21", {"match":{"prefix":"/","path_match_policy":[]},"redirect":{}}],
  ["V21", {"match":{"prefix":"/","runtime_fraction":false},"redirect":{}}],
  ["V21", {"match":{"prefix":"/","grpc":{}},"redirect":{}}],
  ["V21", {"match":{"prefix":"/","tlsContext":""},"redirect":{}}],
  ["V21", {"match":{"prefix":"/","headers":[1]},"redirect":{}}],
  ["V21", {"match":{"prefix":"/","query_parameters":{}},"redirect":{}}],
  ["V21", {"match":{"prefix":"/","dynamicMetadata":[{}]},"redirect":{}}],
  ["V21", {"match":{"prefix":"/","filter_state":""},"redirect":{}}],
  ["V21", {"match":{"prefix":"/","case_sensitive":false},"redirect":{}}],
  ["V21", {"match":{"path_separated_prefix":""},"redirect":{}}],
  ["V21", {"match":{"path_separated_prefix":"/a/"},"redirect":{}}],
  ["V21", {"match":{"path_separated_prefix":"/?a"},"redirect":{}}],
  ["V21", {"match":{"path_separated_prefix":"/a#b"},"redirect":{}}],
  ["V22", {"match":{"prefix":"/a/?#"}}],
  ["V22", {"match":{"prefix":"/"},"redirect":{},"direct_response":{"status":200}}],
  ["V22", {"match":{"prefix":"/"},"redirect":{},"route":{"cluster":"c"}}],
  ["V22", {"match":{"prefix":"/"},"filter_action":{}}],
  ["V22", {"match":{"prefix":"/"},"redirect":{},"non_forwarding_action":{}}],
  ["V22", {"match":{"prefix":"/"},"direct_response":{}}],
  ["V22", {"match":{"prefix":"/"},"direct_response":{"status":199}}],
  ["V22", {"match":{"prefix":"/"},"direct_response":{"status":600}}],
  ["V22", {"match":{"prefix":"/"},"route":{}}],
  ["V23", {"match":{"prefix":"/"},"route":{"cluster":""}}],
  ["V24", {"match":{"prefix":"/"},"route":{"weightedClusters":{"clusters":[]}}}]
]"#;

// The same as Envoy reads them.
pub(crate) const ENVOY_ROUTES: &str = r#"[
  ["h *; folded prefix /A -> redirect\n", {"match":{"prefix":"/A","case_sensitive":false},"redirect":{}}],
  ["h *; open -> redirect\n", {"match":{"safe_regex":{"regex":"x"},"caseSensitive":false},"redirect":{}}],
  ["h *; open -> redirect\n", {"match":{"path_match_policy":{}},"redirect":{}}],
  ["h *; connect -> redirect\n", {"match":{"connect_matcher":{}},"redirect":{}}],
  ["h *; prefix / if x-a exact A -> redirect\n", {"match":{"prefix":"/","headers":[{"name":"X-A","exact_match":"A"}]},"redirect":{}}],
  ["h *; prefix / if a exact  inverted -> redirect\n", {"match":{"prefix":"/","headers":[{"name":"a","exact_match":"","invert_match":true}]},"redirect":{}}],
  ["h *; prefix / if a present inverted if b present -> redirect\n", {"match":{"prefix":"/","headers":[{"name":"a","present_match":false},{"name":"b","presentMatch":false,"invertMatch":true}]},"redirect":{}}],
  ["h *; prefix / if a prefix B folded or empty -> redirect\n", {"match":{"prefix":"/","headers":[{"name":"a","stringMatch":{"prefix":"B","ignoreCase":true},"treat_missing_header_as_empty":true}]},"redirect":{}}],
  ["h *; prefix / if a open if b open -> redirect\n", {"match":{"prefix":"/","headers":[{"name":"a","safe_regex_match":{}},{"name":"b","string_match":{"custom":{}}}]},"redirect":{}}],
  ["h *; prefix / if a from 0 below 0 if b from -3 below 7 inverted -> redirect\n", {"match":{"prefix":"/","headers":[{"name":"a","range_match":{}},{"name":"b","rangeMatch":{"start":"-3","end":7},"invert_match":true}]},"redirect":{}}],
  ["h *; prefix / if a from -9223372036854775808 below 9223372036854775807 -> redirect\n", {"match":{"prefix":"/","headers":[{"name":"a","range_match":{"start":"-9223372036854775808","end":9223372036854775807}}]},"redirect":{}}],
  ["h *; prefix / if a from 7 below -7 -> redirect\n", {"match":{"prefix":"/","headers":[{"name":"a","range_match":{"start":"0000000000000000007","end":"-07"}}]},"redirect":{}}],
  ["h *; prefix / if query Q exact  folded if query b present if query c absent if query d open -> redirect\n", {"match":{"prefix":"/","queryParameters":[{"name":"Q","stringMatch":{"exact":"","ignoreCase":true}},{"name":"b"},{"name":"c","present_match":false},{"name":"d","string_match":{"safe_regex":{}}}]},"redirect":{}}],
  ["h *; prefix / if a present if query b present if grpc if open -> redirect\n", {"match":{"prefix":"/","grpc":{},"query_parameters":[{"name":"b","presentMatch":true}],"tls_context":{},"headers":[{"name":"a"}]},"redirect":{}}],
  ["h *; prefix / -> redirect\n", {"match":{"prefix":"/","headers":[],"query_parameters":[],"filter_state":null},"redirect":{}}],
  ["V6", {"match":{"safe_regex":1},"redirect":{}}],
  ["V6", {"match":{"prefix":"/","headers":{}},"redirect":{}}],
  ["V6", {"match":{"prefix":"/","headers":[{"name":"a","string_match":{"contains":1}}]},"redirect":{}}],
  ["V6", {"match":{"prefix":"/","headers":[{"name":"a","range_match":{"start":-1}}]},"redirect":{}}],
  ["V6", {"match":{"prefix":"/","headers":[{"name":"a","range_match":{"start":-0}}]},"redirect":{}}],
  ["V6", {"match":{"prefix":"/","headers":[{"name":"a","range_match":{"end":9223372036854775808}}]},"redirect":{}}],
  ["V6", {"match":{"prefix":"/","headers":[{"name":"a","range_match":{"end":"9223372036854775808"}}]},"redirect":{}}],
  ["V6", {"match":{"prefix":"/","headers":[{"name":"a","range_match":{"start":"-9223372036854775809"}}]},"redirect":{}}],
  ["V6", {"match":{"prefix":"/","headers":[{"name":"a","range_match":{"start":"+1"}}]},"redirect":{}}],
  ["V6", {"match":{"prefix":"/","headers":[{"name":"a","range_match":{"start":"-"}}]},"redirect":{}}],
  ["V6", {"match":{"prefix":"/","headers":[{"name":"","range_match":{"end":"00000000000000000001"}}]},"redirect":{}}],
  ["V6", {"match":{"prefix":"/","query_parameters":{}},"redirect":{}}],
  ["V6", {"match":{"prefix":"/","query_parameters":[{"name":1}]},"redirect":{}}],
  ["V6", {"match":{"prefix":"/","query_parameters":[{"name":"","string_match":""}]},"redirect":{}}],
  ["V6", {"match":{"prefix":"/","query_parameters":[{"name":"a","present_match":"true"}]},"redirect":{}}],
  ["V6", {"match":{"prefix":"/","query_parameters":[{"name":"a","presentMatch":true,"present_match":true}]},"redirect":{}}],
  ["V6", {"match":{"prefix":"/","runtime_fraction":false},"redirect":{}}],
  ["V21", {"match":{"prefix":"/","query_parameters":[{}]},"redirect":{}}],
  ["V21", {"match":{"prefix":"/","query_parameters":[{"name":"a"},{"name":""}]},"redirect":{}}],
  ["V21", {"match":{"prefix":"/","query_parameters":[{"name":"a","string_match":{"exact":"b"},"present_match":false}]},"redirect":{}}],
  ["V21", {"match":{"prefix":"/","query_parameters":[{"name":"a","string_match":{"prefix":""}}]},"redirect":{}}],
  ["V21", {"match":{"prefix":"/","connect_matcher":{}},"redirect":{}}],
  ["V21", {"match":{"prefix":"/","headers":[{"name":""}]},"redirect":{}}],
  ["V21", {"match":{"prefix":"/","headers":[{"name":"a","suffix_match":""}]},"redirect":{}}],
  ["V21", {"match":{"prefix":"/","headers":[{"name":"a","exact_match":"a","present_match":true}]},"redirect":{}}],
  ["V21", {"match":{"prefix":"/","headers":[{"name":"a","string_match":{}}]},"redirect":{}}],
  ["h *; prefix / -> to a filter\n", {"match":{"prefix":"/"},"filter_action":{}}],
  ["h *; prefix / -> to a filter\n", {"match":{"prefix":"/"},"nonForwardingAction":{}}],
  ["h *; prefix / -> elsewhere\n", {"match":{"prefix":"/"},"route":{"cluster_header":""}}],
  ["V6", {"match":{"prefix":"/"},"filter_action":1}],
  ["V22", {"match":{"prefix":"/"},"filter_action":{},"non_forwarding_action":{}}]
]"#;

// The same of targets.
pub(crate) const TARGETS: &str = r#"[
  ["c", {"cluster":"c","cluster_header":null,"stat_prefix":3}],
  ["a*4294967294 a*1 ", {"weighted_clusters":{"clusters":[{"name":"a","weight":4294967294},{"name":"a","weight":"1"}],"total_weight":{}}}],
  ["a*0 b*1 ", {"weightedClusters":{"clusters":[{"name":"a","weight":0},{"name":"b","weight":1}]},"cluster":null}],
  ["V6", {"cluster":1}],
  ["V6", {"weighted_clusters":[]}],
  ["V6", {"weighted_clusters":{},"weightedClusters":{}}],
  ["V6", {"weighted_clusters":{"clusters":{}}}],
  ["V6", {"weighted_clusters":{"clusters":[null]}}],
  ["V6", {"weighted_clusters":{"clusters":[{"name":1}]}}],
  ["V6", {"weighted_clusters":{"clusters":[{"name":"","weight":4294967296}]}}],
  ["V6", {"weighted_clusters":{"clusters":[{"cluster_header":1,"clusterHeader":1}]}}],
  ["V6", {"cluster_header":"h","clusterHeader":"h"}],
  ["V22", {}],
  ["V22", {"cluster":"","weighted_clusters":{}}],
  ["V22", {"cluster":"c","cluster_header":0}],
  ["V22", {"cluster":"c","clusterSpecifierPlugin":"p"}],
  ["V22", {"cluster":"c","inline_cluster_specifier_plugin":[]}],
  ["V22", {"weighted_clusters":{"clusters":[{"name":"a","weight":1},{"clusterHeader":"","weight":1}]}}],
  ["V23", {"cluster":""}],
  ["V23", {"weighted_clusters":{"clusters":[{"name":"a"},{"weight":0}]}}],
  ["V23", {"weighted_clusters":{"clusters":[{"name":"","weight":1}]}}],
  ["V24", {"weighted_clusters":{}}],
  ["V24", {"weighted_clusters":{"clusters":[{"name":"a"},{"name":"b","weight":0}]}}],
  ["V24", {"weighted_clusters":{"clusters":[{"name":"a","weight":4294967295},{"name":"b","weight":1}]}}],
  ["V24", {"weighted_clusters":{"clusters":[{"name":"a","weight":4294967295},{"name":"a","weight":4294967295},{"name":"b","weight":2}]}}]
]"#;

// The same as Envoy reads them.
pub(crate) const ENVOY_TARGETS: &str = r#"[
  ["c", {"cluster":"c","cluster_header":null}],
  ["elsewhere", {"cluster_header":""}],
  ["elsewhere", {"clusterSpecifierPlugin":"p"}],
  ["elsewhere", {"inline_cluster_specifier_plugin":{}}],
  ["elsewhere", {"weighted_clusters":{"clusters":[{"cluster_header":"h","weight":1},{"name":"a"}]}}],
  ["V6", {"inline_cluster_specifier_plugin":[]}],
  ["V22", {"cluster":"c","cluster_header":"h"}],
  ["V23", {"weighted_clusters":{"clusters":[{"cluster_header":"","weight":1}]}}],
  ["V24", {"weighted_clusters":{"clusters":[{"clusterHeader":"h"}]}}]
]"#;

// A route configuration as control planes write them: retry policies, rewrites, rate limits, header
// edits and the like are passed over.
pub(crate) const BOOKSHOP: &str = r#"[
  ["shop shop.example.com *.Shop.example.com; path /checkout -> pay-v1*90 pay-v2*10 ; prefix /old/ -> redirect; separated /api -> api; prefix / -> 404\nrest *\n", {
  "@type": "type.googleapis.com/envoy.config.route.v3.RouteConfiguration",
  "name": "bookshop",
  "ignorePortInHostMatching": true,
  "responseHeadersToRemove": ["x-powered-by"],
  "virtualHosts": [
    {
      "name": "shop",
      "domains": ["shop.example.com", "*.Shop.example.com"],
      "requireTls": "ALL",
      "rateLimits": [{"actions": [{"remoteAddress": {}}]}],
      "retryPolicy": {"retryOn": "5xx", "numRetries": 2},
      "routes": [
        {
          "name": "checkout",
          "match": {"path": "/checkout", "headers": []},
          "route": {
            "timeout": "1.5s",
            "weightedClusters": {
              "totalWeight": 100,
              "clusters": [
                {"name": "pay-v1", "weight": 90, "requestHeadersToAdd": []},
                {"name": "pay-v2", "weight": 10}
              ]
            }
          }
        },
        {
          "match": {"prefix": "/old/"},
          "redirect": {"pathRedirect": "/new", "responseCode": "FOUND"}
        },
        {
          "match": {"pathSeparatedPrefix": "/api", "caseSensitive": true},
          "route": {"cluster": "api", "prefixRewrite": "/", "retryPolicy": {"numRetries": 3}},
          "typedPerFilterConfig": {}
        },
        {"match": {"prefix": "/"}, "directResponse": {"status": 404, "body": {"inlineString": "no"}}}
      ]
    },
    {"name": "rest", "domains": ["*"]}
  ]
}]
]"#;
