use ev_types::{Body, Content, Kind, Profile, Response};
use ev_wire::read_response;
use serde_json::Value;
use std::alloc::{AllocError, Global};
use std::test::Fail;

// Messages, each after what it reads as.
pub(crate) const MESSAGES: &str = r#"[
  ["cds 7: ", {"typeUrl":"~cluster.v3.Cluster","nonce":"7"}],
  ["cds 7: ", {"type_url":"~cluster.v3.Cluster","nonce":"7","resources":[],"removed_resources":[]}],
  ["cds 7: ", {"typeUrl":null,"type_url":"~cluster.v3.Cluster","nonce":"7","resources":null,"removedResources":null}],
  ["cds 8: -a - -a ", {"type\u005furl":"~cluster.v3.Cluster","\u006eonce":"7","nonce":"8","removedResources":["a","","a"]}],
  ["cds 7: -^ -^x ", {"typeUrl":"~cluster.v3.Cluster","nonce":"7","removed\u0052esources":["^","^x"]}],
  ["lds 7: ", {"typeUrl":"~listener.v3.Listener","nonce":"7","systemVersionInfo":{},"ttl":4,"resources":[]}],
  ["other 7: ", {"nonce":"7"}],
  ["other 7: ", {"typeUrl":"","nonce":"7","resources":8,"removedResources":{}}],
  ["other 7: ", {"typeUrl":"~cluster.v3.cluster","nonce":"7","resources":[{"name":3}]}],
  ["other 7: ", {"typeUrl":"envoy.config.cluster.v3.Cluster","nonce":"7","removedResources":["a"],"removed_resources":["a"]}],

  ["other 7: ", {"typeUrl":"type.googleapis.com/envoy.extensions.transport_sockets.tls.v3.Secret","nonce":"7","resources":[{"name":3}]}],

  ["not a response", null],
  ["not a response", []],
  ["not a response", "nonce"],
  ["not a response", {}],
  ["not a response", {"typeUrl":"~cluster.v3.Cluster"}],
  ["not a response", {"typeUrl":"~cluster.v3.Cluster","nonce":""}],
  ["not a response", {"typeUrl":"~cluster.v3.Cluster","nonce":null}],
  ["not a response", {"typeUrl":"~cluster.v3.Cluster","nonce":7}],
  ["not a response", {"typeUrl":"~cluster.v3.Cluster","Nonce":"7"}],
  ["not a response", {"typeUrl":7,"nonce":"7"}],
  ["not a response", {"typeUrl":"~cluster.v3.Cluster","type_url":"~cluster.v3.Cluster","nonce":"7"}],
  ["not a response", {"typeUrl":"~cluster.v3.Cluster","nonce":"7","resources":{}}],
  ["not a response", {"typeUrl":"~cluster.v3.Cluster","nonce":"7","resources":[null]}],
  ["not a response", {"typeUrl":"~cluster.v3.Cluster","nonce":"7","resources":[{},7]}],
  ["not a response", {"typeUrl":"~cluster.v3.Cluster","nonce":"7","resources":[{"name":7}]}],
  ["not a response", {"typeUrl":"~cluster.v3.Cluster","nonce":"7","resources":[{},{"name":"a","version":7}]}],
  ["not a response", {"typeUrl":"~cluster.v3.Cluster","nonce":"7","removedResources":"a"}],
  ["not a response", {"typeUrl":"~cluster.v3.Cluster","nonce":"7","removedResources":["a",null]}],
  ["not a response", {"typeUrl":"~cluster.v3.Cluster","nonce":"7","removedResources":["a"],"removed_resources":["a"]}],

  ["cds 7: a@1=V1 ", {"typeUrl":"~cluster.v3.Cluster","nonce":"7","resources":[{"name":"a","version":"1"}]}],
  ["cds 7: a@=V1 b@=V1 c@=V1 d@=V1 ", {"typeUrl":"~cluster.v3.Cluster","nonce":"7","resources":[{"name":"a","resource":null},{"name":"b","resource":7},{"name":"c","resource":[]},{"name":"d","resource":"d"}]}],
  ["cds 7: a@=V1 b@=V1 c@=V1 ", {"typeUrl":"~cluster.v3.Cluster","nonce":"7","resources":[{"name":"a","resource":{"name":"a"}},{"name":"b","resource":{"@type":7,"name":"b"}},{"name":"c","resource":{"@type":null,"name":"c"}}]}],
  ["cds 7: a@=V1 @=V1 ", {"typeUrl":"~cluster.v3.Cluster","nonce":"7","resources":[{"name":"a","resource":{"@type":"~listener.v3.Listener","name":"a"}},{"resource":{"@type":"~cluster.v3.Cluster ","name":7}}]}],
  ["cds 7: @=V2 @2=V2 ^x@=V2 ^@=cluster ", {"typeUrl":"~cluster.v3.Cluster","nonce":"7","resources":[{"resource":{"@type":"~cluster.v3.Cluster"}},{"name":"","version":"2","resource":{"@type":"~cluster.v3.Cluster","name":"a"}},{"name":"^x","resource":{"@type":"~cluster.v3.Cluster","name":"^x"}},{"name":"^","resource":{"@type":"~cluster.v3.Cluster","name":"^"}}]}],
  ["cds 7: a@=V2 a@=V2 ", {"typeUrl":"~cluster.v3.Cluster","nonce":"7","resources":[{"name":"a","resource":{"@type":"~cluster.v3.Cluster","name":"b","type":"EDS","edsClusterConfig":{"serviceName":"^x"}}},{"name":"a","resource":{"@type":"~cluster.v3.Cluster","type":"EDS","edsClusterConfig":{"serviceName":"^x"}}}]}],
  ["cds 7: a@=V3 a@=V3 a@=V3 a@=V3 ", {"typeUrl":"~cluster.v3.Cluster","nonce":"7","resources":[{"name":"a","resource":{"@type":"~cluster.v3.Cluster","name":"A"}},{"name":"a","resource":{"@type":"~cluster.v3.Cluster"}},{"name":"a","resource":{"@type":"~cluster.v3.Cluster","name":null,"type":"EDS"}},{"name":"a","resource":{"@type":"~cluster.v3.Cluster","name":"b","type":7}}]}],
  ["cds 7: a@=V6 a@=V6 a@=V7 a@=V6 a@=V8 ", {"typeUrl":"~cluster.v3.Cluster","nonce":"7","resources":[{"name":"a","resource":{"@type":"~cluster.v3.Cluster","name":7,"type":"EDS"}},{"name":"a","resource":{"@type":"~cluster.v3.Cluster","name":"a","type":[]}},{"name":"a","resource":{"@type":"~cluster.v3.Cluster","name":"a","type":2}},{"name":"a","resource":{"@type":"~cluster.v3.Cluster","name":"a","type":"3"}},{"name":"a","resource":{"@type":"~cluster.v3.Cluster","name":"a","type":"EDS"}}]}],
  ["cds 7: a@=cluster \"@\n=cluster ", {"typeUrl":"~cluster.v3.Cluster","nonce":"7","resources":[{"name":"b","name":"a","resource":{"@type":"~cluster.v3.Cluster","\u006eame":"a","load_assignment":{"endpoints":[{"lb_endpoints":[{"endpoint":{"address":{"socket_address":{"address":"10.0.0.1","port_value":"80"}}},"load_balancing_weight":"3"}]}]},"connect_timeout":"1.5s"}},{"name":"\"","version":"\n","resource":{"\u0040type":"~cluster.v3.Cluster","name":"\u0022","type":"STATIC"}}]}],

  ["cds 7: a@v1=heartbeat,ttl b@v1=heartbeat,ttl ^@=heartbeat,ttl ", {"typeUrl":"~cluster.v3.Cluster","nonce":"7","resources":[{"name":"a","version":"v1","ttl":"30s"},{"name":"b","version":"v1","ttl":"0.000000001s","resource":null},{"name":"^","ttl":"1s"}]}],
  ["rds 7: a@=heartbeat,ttl -a ", {"typeUrl":"~route.v3.RouteConfiguration","nonce":"7","resources":[{"name":"a","\u0074tl":"1.5s"}],"removedResources":["a"]}],
  ["cds 7: a@=V1 b@=V1 c@=V1 d@=V1 e@=V1 @=V1,ttl ^x@=V1,ttl ", {"typeUrl":"~cluster.v3.Cluster","nonce":"7","resources":[{"name":"a"},{"name":"b","ttl":"0s"},{"name":"c","ttl":"-1s"},{"name":"d","ttl":30},{"name":"e","ttl":null,"TTL":"30s"},{"ttl":"30s"},{"name":"^x","ttl":"30s"}]}],
  ["cds 7: a@=cluster,ttl b@=cluster c@=V25 d@=V25 e@=V6 f@=V6 ", {"typeUrl":"~cluster.v3.Cluster","nonce":"7","resources":[{"name":"a","ttl":"30s","resource":{"@type":"~cluster.v3.Cluster","name":"a"}},{"name":"b","ttl":null,"resource":{"@type":"~cluster.v3.Cluster","name":"b"}},{"name":"c","ttl":"0s","resource":{"@type":"~cluster.v3.Cluster","name":"c"}},{"name":"d","ttl":"-30s","resource":{"@type":"~cluster.v3.Cluster","name":"d"}},{"name":"e","ttl":"30","resource":{"@type":"~cluster.v3.Cluster","name":"e"}},{"name":"f","ttl":{"seconds":30},"resource":{"@type":"~cluster.v3.Cluster","name":"f"}}]}],
  ["cds 7: a@=V1,ttl b@=V1 c@=V7 d@=V7,ttl e@=V6 f@=V3 g@=V3 @=V2 ", {"typeUrl":"~cluster.v3.Cluster","nonce":"7","resources":[{"name":"a","ttl":"30s","resource":7},{"name":"b","ttl":"0s","resource":{"name":"b"}},{"name":"c","ttl":"0s","resource":{"@type":"~cluster.v3.Cluster","name":"c","type":2}},{"name":"d","ttl":"1s","resource":{"@type":"~cluster.v3.Cluster","name":"d","type":2}},{"name":"e","ttl":"1m","resource":{"@type":"~cluster.v3.Cluster","name":"e","type":2}},{"name":"f","ttl":"0s","resource":{"@type":"~cluster.v3.Cluster","name":"F"}},{"name":"g","ttl":1,"resource":{"@type":"~cluster.v3.Cluster"}},{"ttl":"0s","resource":{"@type":"~cluster.v3.Cluster"}}]}],

  ["eds 7: a@1=assignment a@=assignment -b ", {"type_url":"~endpoint.v3.ClusterLoadAssignment","nonce":"7","resources":[{"name":"a","version":"1","resource":{"@type":"~endpoint.v3.ClusterLoadAssignment","cluster_name":"a"}},{"name":"a","resource":{"@type":"~endpoint.v3.ClusterLoadAssignment","clusterName":"a","endpoints":[]}}],"removed_resources":["b"]}],
  ["eds 7: a@=V1 @=V2 a@=V3 a@=V3 a@=V6 a@=V6 a@=V12 ", {"typeUrl":"~endpoint.v3.ClusterLoadAssignment","nonce":"7","resources":[{"name":"a","resource":{"@type":"~cluster.v3.Cluster","clusterName":"a"}},{"resource":{"@type":"~endpoint.v3.ClusterLoadAssignment"}},{"name":"a","resource":{"@type":"~endpoint.v3.ClusterLoadAssignment","name":"a"}},{"name":"a","resource":{"@type":"~endpoint.v3.ClusterLoadAssignment","clusterName":"b","endpoints":7}},{"name":"a","resource":{"@type":"~endpoint.v3.ClusterLoadAssignment","clusterName":7}},{"name":"a","resource":{"@type":"~endpoint.v3.ClusterLoadAssignment","clusterName":"a","cluster_name":"a"}},{"name":"a","resource":{"@type":"~endpoint.v3.ClusterLoadAssignment","clusterName":"a","endpoints":[{"lbEndpoints":[{}]}]}}]}],
  ["lds 7: l@=listener l@=V3 @=V2 l@=V6 l@=V14 l@=V2 l@=V1 ", {"typeUrl":"~listener.v3.Listener","nonce":"7","resources":[{"name":"l","resource":{"@type":"~listener.v3.Listener","name":"l","address":{"socket_address":{"address":"0.0.0.0","port_value":"80"}},"filter_chains":[{"filters":[{"typed_config":{"@type":"type.googleapis.com/envoy.extensions.filters.network.tcp_proxy.v3.TcpProxy","cluster":"a"}}]}]}},{"name":"l","resource":{"@type":"~listener.v3.Listener","name":"m"}},{"resource":{"@type":"~listener.v3.Listener","name":"l"}},{"name":"l","resource":{"@type":"~listener.v3.Listener","name":false}},{"name":"l","resource":{"@type":"~listener.v3.Listener","name":"l"}},{"name":"l","resource":{"@type":"~listener.v3.Listener","name":"m","filterChains":[{"filters":[{"typedConfig":{"@type":"type.googleapis.com/envoy.extensions.filters.network.http_connection_manager.v3.HttpConnectionManager","rds":{}}}]}]}},{"name":"l","resource":{"@type":"~cluster.v3.Cluster","name":"l"}}]}],
  ["rds 7: r@=routes r@=V3 ^x@=V2 r@=V6 r@=V19 ", {"typeUrl":"~route.v3.RouteConfiguration","nonce":"7","resources":[{"name":"r","resource":{"@type":"~route.v3.RouteConfiguration","name":"r","virtual_hosts":[{"name":"h","domains":["*"]}]}},{"name":"r","resource":{"@type":"~route.v3.RouteConfiguration","virtualHosts":[{}]}},{"name":"^x","resource":{"@type":"~route.v3.RouteConfiguration","name":"^x"}},{"name":"r","resource":{"@type":"~route.v3.RouteConfiguration","name":7,"virtualHosts":[{}]}},{"name":"r","resource":{"@type":"~route.v3.RouteConfiguration","name":"r","virtualHosts":[{}]}}]}]
]"#;

// The row `one_refused_of_two`: the second of two clusters is refused, and stays in the message.
pub(crate) const ONE_REFUSED_OF_TWO: &str = r#"[
  ["cds 7: a@v1=cluster b@v1=V8 ", {"typeUrl":"~cluster.v3.Cluster","nonce":"7","resources":[{"name":"a","version":"v1","resource":{"@type":"~cluster.v3.Cluster","name":"a","type":"STATIC","loadAssignment":{"clusterName":"a","endpoints":[{"lbEndpoints":[{"endpoint":{"address":{"socketAddress":{"address":"10.0.0.1","portValue":80}}}}]}]}}},{"name":"b","version":"v1","resource":{"@type":"~cluster.v3.Cluster","name":"b","type":"EDS"}}]}]
]"#;

// Messages as Envoy reads them: its own types of discovery, hosts and listeners.
pub(crate) const ENVOY_MESSAGES: &str = r#"[
  ["cds 7: a@=cluster b@=V8 c@=heartbeat,ttl ", {"typeUrl":"~cluster.v3.Cluster","nonce":"7","resources":[{"name":"a","resource":{"@type":"~cluster.v3.Cluster","name":"a","type":2}},{"name":"b","resource":{"@type":"~cluster.v3.Cluster","name":"b","type":"EDS"}},{"name":"c","ttl":"1s"}]}],
  ["eds 7: a@=assignment ", {"typeUrl":"~endpoint.v3.ClusterLoadAssignment","nonce":"7","resources":[{"name":"a","resource":{"@type":"~endpoint.v3.ClusterLoadAssignment","clusterName":"a","endpoints":[{"lbEndpoints":[{"endpoint":{"address":{"pipe":{"path":"/x"}}}}]}]}}]}],
  ["lds 7: l@=listener l@=V26 ", {"typeUrl":"~listener.v3.Listener","nonce":"7","resources":[{"name":"l","resource":{"@type":"~listener.v3.Listener","name":"l","internalListener":{},"filterChains":[{}]}},{"name":"l","resource":{"@type":"~listener.v3.Listener","name":"l","internalListener":{},"filterChains":[{},{}]}}]}],
  ["rds 7: r@=routes ", {"typeUrl":"~route.v3.RouteConfiguration","nonce":"7","resources":[{"name":"r","resource":{"@type":"~route.v3.RouteConfiguration","name":"r","virtualHosts":[{"name":"h","domains":["*"],"routes":[{"match":{"connectMatcher":{}},"filterAction":{}}]}]}}]}],
  ["sds 7: s@=secret s@=V28 s@=V28 s@=V6 s@=V6 s@=V3 s@=heartbeat,ttl -t ", {"typeUrl":"type.googleapis.com/envoy.extensions.transport_sockets.tls.v3.Secret","nonce":"7","resources":[{"name":"s","resource":{"@type":"type.googleapis.com/envoy.extensions.transport_sockets.tls.v3.Secret","name":"s","genericSecret":{}}},{"name":"s","resource":{"@type":"type.googleapis.com/envoy.extensions.transport_sockets.tls.v3.Secret","name":"s"}},{"name":"s","resource":{"@type":"type.googleapis.com/envoy.extensions.transport_sockets.tls.v3.Secret","name":"s","tlsCertificate":{},"session_ticket_keys":{}}},{"name":"s","resource":{"@type":"type.googleapis.com/envoy.extensions.transport_sockets.tls.v3.Secret","name":"s","validationContext":[]}},{"name":"s","resource":{"@type":"type.googleapis.com/envoy.extensions.transport_sockets.tls.v3.Secret","name":7,"genericSecret":{}}},{"name":"s","resource":{"@type":"type.googleapis.com/envoy.extensions.transport_sockets.tls.v3.Secret","name":"t"}},{"name":"s","ttl":"1s"}],"removedResources":["t"]}],
  ["ecds 7: e@=extension e@=V29 e@=V29 e@=V29 e@=V6 e@=V6 ", {"typeUrl":"~core.v3.TypedExtensionConfig","nonce":"7","resources":[{"name":"e","resource":{"@type":"~core.v3.TypedExtensionConfig","name":"e","typedConfig":{"@type":"x","a":1}}},{"name":"e","resource":{"@type":"~core.v3.TypedExtensionConfig","name":"e"}},{"name":"e","resource":{"@type":"~core.v3.TypedExtensionConfig","name":"e","typedConfig":{}}},{"name":"e","resource":{"@type":"~core.v3.TypedExtensionConfig","name":"e","typedConfig":{"@type":""}}},{"name":"e","resource":{"@type":"~core.v3.TypedExtensionConfig","name":"e","typedConfig":7}},{"name":"e","resource":{"@type":"~core.v3.TypedExtensionConfig","name":"e","typedConfig":{"@type":7}}}]}]
]"#;

// The word of a kind in the table.
fn kind_word(kind: Option<Kind>) -> &'static str {
    match kind {
        Some(Kind::Cds) => "cds ",
        Some(Kind::Eds) => "eds ",
        Some(Kind::Lds) => "lds ",
        Some(Kind::Rds) => "rds ",
        Some(Kind::Sds) => "sds ",
        Some(Kind::Ecds) => "ecds ",
        None => "other ",
    }
}

// The word of a body in the table.
fn body_word(alloc: Global, body: &Body) -> Result<String, AllocError> {
    match body {
        Body::Good(Content::Cluster(_)) => String::from_str(alloc, "cluster"),
        Body::Good(Content::Assignment(_)) => String::from_str(alloc, "assignment"),
        Body::Good(Content::Listener(_)) => String::from_str(alloc, "listener"),
        Body::Good(Content::Routes(_)) => String::from_str(alloc, "routes"),
        Body::Good(Content::Secret) => String::from_str(alloc, "secret"),
        Body::Good(Content::Extension) => String::from_str(alloc, "extension"),
        Body::Bad(rule) => format!(in alloc; "V{}", rule.number()),
        Body::Beat => String::from_str(alloc, "heartbeat"),
    }
}

// A response in a line: its kind, its nonce, `name@version=body` of each resource, with `,ttl` where it has a time to
// live, and `-name` of each removal.
fn describe(alloc: Global, response: &Response) -> Result<String, AllocError> {
    let mut text = String::from_str(alloc, kind_word(response.kind))?;
    text.push_str(response.nonce.as_str())?;
    text.push_str(": ")?;
    for item in response.items.iter() {
        text.push_str(item.name.as_str())?;
        text.push_str("@")?;
        text.push_str(item.version.as_str())?;
        text.push_str("=")?;
        text.push_str(body_word(alloc, &item.body)?.as_str())?;
        text.push_str(if item.ttl { ",ttl " } else { " " })?;
    }
    for name in response.removed.iter() {
        text.push_str("-")?;
        text.push_str(name.as_str())?;
        text.push_str(" ")?;
    }
    Ok(text)
}

// What a message reads as, in a line.
pub(crate) fn tell_message(
    alloc: Global,
    profile: Profile,
    message: &Value,
) -> Result<String, Fail> {
    match read_response(alloc, profile, message) {
        Ok(response) => {
            let text = describe(alloc, &response);
            drop(response);
            Ok(text?)
        }
        Err(error) => Ok(format!(in alloc; "{error}")?),
    }
}
