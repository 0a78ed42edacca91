use crate::clusters::describe_references;
use ev_listener_json::read_listener;
use ev_types::{
    CidrRange, FilterChain, FilterChainMatch, Ip, Listener, Profile, Seq, Serve, SourceType,
    Target, Text,
};
use serde_json::Value;
use std::alloc::{AllocError, Global};
use std::test::Fail;

// The listener as text: each chain, and what is served where none takes a connection.
fn describe(alloc: Global, listener: &Listener) -> Result<String, AllocError> {
    let name = listener.name.as_str();
    let address = listener.address.host.address.as_str();
    let port = listener.address.host.port;
    let mut text = format!(in alloc; "{name} at {address}:{port}")?;
    describe_marks(&mut text, listener)?;
    describe_references(&mut text, " extension ", &listener.extensions)?;
    for chain in listener.filter_chains.as_slice() {
        describe_chain(alloc, &mut text, chain)?;
    }
    if let Some(chain) = &listener.default_filter_chain {
        text.push_str(" else")?;
        describe_chain(alloc, &mut text, chain)?;
    }
    Ok(text)
}

// The marks of a listener, as text.
fn describe_marks(text: &mut String, listener: &Listener) -> Result<(), AllocError> {
    text.push_str(if listener.address.udp { " by UDP" } else { "" })?;
    text.push_str(if listener.takes_every_address {
        " and every address"
    } else {
        ""
    })?;
    text.push_str(if listener.restores { " restores" } else { "" })?;
    text.push_str(if listener.hands_over {
        " hands over"
    } else {
        ""
    })
}

// A chain as text: what it asks for, what it serves, and what it waits for beside its routes.
fn describe_chain(alloc: Global, text: &mut String, chain: &FilterChain) -> Result<(), AllocError> {
    describe_criteria(alloc, text, chain.criteria.get())?;
    text.push_str(" serves ")?;
    text.push_str(describe_serve(alloc, &chain.serve)?.as_str())?;
    describe_references(text, " secret ", &chain.secrets)?;
    describe_references(text, " extension ", &chain.extensions)
}

// What a chain asks for, as text.
fn describe_criteria(
    alloc: Global,
    text: &mut String,
    criteria: &FilterChainMatch,
) -> Result<(), AllocError> {
    if let Some(port) = criteria.destination_port {
        text.push_str(format!(in alloc; " port {port}")?.as_str())?;
    }
    describe_ranges(alloc, text, "", &criteria.prefix_ranges)?;
    describe_texts(text, " name ", &criteria.server_names)?;
    if let Some(transport) = &criteria.transport_protocol {
        text.push_str(" over ")?;
        text.push_str(transport.as_str())?;
    }
    describe_texts(text, " protocol ", &criteria.application_protocols)?;
    describe_sources(alloc, text, criteria)
}

// What a chain asks of where a connection comes from, as text.
fn describe_sources(
    alloc: Global,
    text: &mut String,
    criteria: &FilterChainMatch,
) -> Result<(), AllocError> {
    describe_ranges(
        alloc,
        text,
        " directly from",
        &criteria.direct_source_prefix_ranges,
    )?;
    text.push_str(match criteria.source_type {
        Some(SourceType::SameIpOrLoopback) => " from here",
        Some(SourceType::External) => " from elsewhere",
        None => "",
    })?;
    describe_ranges(alloc, text, " from", &criteria.source_prefix_ranges)?;
    for port in criteria.source_ports.as_slice() {
        text.push_str(format!(in alloc; " from port {}", *port)?.as_str())?;
    }
    Ok(())
}

// Ranges as text, each after a word: its family, its bits as a number, and its length.
fn describe_ranges(
    alloc: Global,
    text: &mut String,
    word: &str,
    ranges: &Seq<CidrRange>,
) -> Result<(), AllocError> {
    for range in ranges.as_slice() {
        let length = range.prefix_len;
        let told = match range.prefix {
            Ip::V4(bits) => format!(in alloc; "{word} IPv4 {bits}/{length}")?,
            Ip::V6(bits) => format!(in alloc; "{word} IPv6 {bits}/{length}")?,
        };
        text.push_str(told.as_str())?;
    }
    Ok(())
}

// Each of these texts after a word.
fn describe_texts(text: &mut String, word: &str, texts: &Seq<Text>) -> Result<(), AllocError> {
    for other in texts.as_slice() {
        text.push_str(word)?;
        text.push_str(other.as_str())?;
    }
    Ok(())
}

// What is served, as text.
fn describe_serve(alloc: Global, serve: &Serve) -> Result<String, AllocError> {
    match serve {
        Serve::Rds { name, limited } => {
            let name = name.as_str();
            let limited = *limited;
            format!(in alloc; "routes {name}, limited {limited}")
        }
        Serve::Inline(table) => {
            let count = table.get().hosts.len();
            format!(in alloc; "{count} hosts")
        }
        Serve::Tcp(Target::One(cluster)) => {
            let cluster = cluster.as_str();
            format!(in alloc; "cluster {cluster}")
        }
        Serve::Tcp(Target::Weighted(clusters)) => {
            let count = clusters.clusters().len();
            format!(in alloc; "{count} clusters")
        }
        Serve::Tcp(Target::Elsewhere) => String::from_str(alloc, "a cluster elsewhere"),
        Serve::Other => String::from_str(alloc, "other"),
    }
}

// What a listener reads as: its content, or the rule that refuses it.
pub(crate) fn tell_listener(alloc: Global, profile: Profile, body: &Value) -> Result<String, Fail> {
    match read_listener(alloc, profile, body) {
        Ok(listener) => {
            let text = describe(alloc, &listener);
            drop(listener);
            Ok(text?)
        }
        Err(error) => Ok(format!(in alloc; "{error}")?),
    }
}

// The start of a listener that is good: the members of a case come after its own, and take their place.
const LISTENER: &str =
    r#"{"name":"in","address":{"socket_address":{"address":"10.1.0.1","port_value":8080}},"filter_chains":[{"filters":[{"typed_config":{"@type":"type.googleapis.com/envoy.extensions.filters.network.tcp_proxy.v3.TcpProxy","cluster":"c"}}]}],"#;

// A listener up to the configuration of its connection manager.
const MANAGER: &str =
    r#"{"name":"in","address":{"socket_address":{"address":"10.1.0.1","port_value":8080}},"filter_chains":[{"filters":[{"typed_config":{"@type":"type.googleapis.com/envoy.extensions.filters.network.http_connection_manager.v3.HttpConnectionManager","#;

// The same of the listener whose text is that of a case between two texts.
fn tell_between(
    alloc: Global,
    profile: Profile,
    before: &str,
    case: &str,
    after: &str,
) -> Result<String, Fail> {
    let text = format!(in alloc; "{before}{case}{after}")?;
    let body = Value::from_str(alloc, text.as_str())?;
    let told = tell_listener(alloc, profile, &body);
    drop(body);
    told
}

// The same of a good listener with the members of a case.
pub(crate) fn tell_members(alloc: Global, profile: Profile, case: &Value) -> Result<String, Fail> {
    let members = case.to_string(alloc)?;
    tell_between(
        alloc,
        profile,
        LISTENER,
        members.as_str().trim_start_matches('{'),
        "",
    )
}

// The same of a listener with a connection manager of the members of a case.
pub(crate) fn tell_manager(alloc: Global, profile: Profile, case: &Value) -> Result<String, Fail> {
    let members = case.to_string(alloc)?;
    tell_between(
        alloc,
        profile,
        MANAGER,
        members.as_str().trim_start_matches('{'),
        "}]}]}",
    )
}

// The members of a listener, each after what it reads as: each rule alone, and beside others.
pub(crate) const LISTENERS: &str = r#"[
  ["in at 10.1.0.1:8080 serves cluster c", {"stat_prefix":0}],
  ["l at 10.1.0.1:8080 serves cluster c", {"name":"l","traffic_direction":"INBOUND","listener_filters":[{}],"access_log":{}}],
  ["V3", {"name":""}],
  ["V3", {"name":null,"filter_chains":{},"address":null}],
  ["V6", {"name":7}],
  ["V6", {"address":[]}],
  ["V6", {"address":{"socket_address":{"address":1,"port_value":1}}}],
  ["V6", {"address":{"socket_address":{"address":"","port_value":-1}}}],
  ["V6", {"address":{"socket_address":{"address":"a","port_value":1,"protocol":"SCTP"}}}],
  ["V6", {"address":{"socket_address":{"protocol":2}},"filter_chains":[]}],
  ["V6", {"filter_chains":{}}],
  ["V6", {"filter_chains":[{"filter_chain_match":[]}]}],
  ["V6", {"filter_chains":[{"filters":{}}]}],
  ["V6", {"filter_chains":[{},{"filters":[7]}]}],
  ["V6", {"filter_chains":[{"filters":[{"typed_config":1}]}]}],
  ["V6", {"filter_chains":[{"filters":[{"typed_config":{"@type":3}}]}]}],
  ["V6", {"filter_chains":[{"filters":[{"typed_config":{},"typedConfig":{}}]}]}],
  ["V6", {"default_filter_chain":[]}],
  ["V6", {"default_filter_chain":{},"defaultFilterChain":{}}],
  ["V14", {"address":null}],
  ["V14", {"address":{"pipe":{"path":"/s"}},"filter_chains":[]}],
  ["V14", {"address":{"socket_address":{"address":"","port_value":1}}}],
  ["V14", {"address":{"socketAddress":{"address":"a","portValue":65536}}}],
  ["V14", {"address":{"socketAddress":{"address":"a","portValue":"1","protocol":"UDP"}}}],
  ["V14", {"address":{"socketAddress":{"address":"a","portValue":1,"protocol":1}}}],
  ["in at a:0 serves cluster c", {"address":{"socketAddress":{"address":"a","portValue":0,"protocol":"TCP"}}}],
  ["V16", {"filter_chains":[]}],
  ["V16", {"filter_chains":null}],
  ["V16", {"filter_chains":[{},{}]}],
  ["V16", {"default_filter_chain":{"filters":7}}],
  ["V16", {"filter_chains":[{"filter_chain_match":{"server_names":[],"prefix_ranges":null}}]}],
  ["V17", {"filter_chains":[{"filter_chain_match":{"server_names":null}}]}],
  ["V17", {"filter_chains":[{"filters":[]}]}],
  ["V17", {"filter_chains":[{"filters":[{"name":"n"},{"typed_config":{"cluster":7}}]}]}],
  ["V17", {"filter_chains":[{"filters":[{"typed_config":{"@type":"type.googleapis.com/envoy.extensions.filters.network.rbac.v3.RBAC"}}]}]}],
  ["V17", {"filter_chains":[{"filters":[{"typed_config":{"@type":"type.googleapis.com/envoy.extensions.filters.network.tcp_proxy.v3.TcpProxy","cluster":"a"}},{"typed_config":{"@type":"type.googleapis.com/envoy.extensions.filters.network.tcp_proxy.v3.TcpProxy","cluster":""}}]}]}],
  ["in at 10.1.0.1:8080 serves cluster a", {"filter_chains":[{"filters":[{"typed_config":{"@type":"x","cluster":7}},{"typed_config":null},{"typed_config":{"@type":"type.googleapis.com/envoy.extensions.filters.network.tcp_proxy.v3.TcpProxy","cluster":"a"}}]}]}],
  ["V6", {"filter_chains":[{"filters":[{"typed_config":{"@type":"type.googleapis.com/envoy.extensions.filters.network.tcp_proxy.v3.TcpProxy","cluster":1}}]}]}],
  ["V22", {"filter_chains":[{"filters":[{"typed_config":{"@type":"type.googleapis.com/envoy.extensions.filters.network.tcp_proxy.v3.TcpProxy","stat_prefix":"s"}}]}]}],
  ["V22", {"filter_chains":[{"filters":[{"typed_config":{"@type":"type.googleapis.com/envoy.extensions.filters.network.tcp_proxy.v3.TcpProxy","cluster":"a","weighted_clusters":{}}}]}]}],
  ["V23", {"filter_chains":[{"filters":[{"typed_config":{"@type":"type.googleapis.com/envoy.extensions.filters.network.tcp_proxy.v3.TcpProxy","cluster":""}}]}]}],
  ["V24", {"filter_chains":[{"filters":[{"typed_config":{"@type":"type.googleapis.com/envoy.extensions.filters.network.tcp_proxy.v3.TcpProxy","weighted_clusters":{"clusters":[{"name":"a"}]}}}]}]}]
]"#;

// The same as Envoy reads them.
pub(crate) const ENVOY_LISTENERS: &str = r#"[
  ["in at 10.1.0.1:8080 serves cluster c", {"stat_prefix":0}],
  ["in at pipe:/s:0 serves cluster c", {"address":{"pipe":{"path":"/s"}}}],
  ["in at 0.0.0.0:80 and every address serves cluster c", {"address":{"socket_address":{"address":"0.0.0.0","port_value":80}}}],
  ["in at internal:in:0 serves cluster c", {"address":null,"internal_listener":{}}],
  ["in at api:in:0 serves 0 hosts", {"address":null,"internal_listener":{},"api_listener":{"api_listener":{"@type":"type.googleapis.com/envoy.extensions.filters.network.http_connection_manager.v3.HttpConnectionManager","route_config":{}}},"filter_chains":7,"default_filter_chain":{}}],
  ["in at 10.1.0.1:8080 else serves other", {"filter_chains":[],"default_filter_chain":{"filter_chain_match":7}}],
  ["in at 10.1.0.1:8080 serves other", {"filter_chains":[{"filters":[{"typed_config":{"@type":"x"}}]}]}],
  ["in at 10.1.0.1:8080 port 80 IPv4 10/8 IPv6 0/0 name *.a over tls protocol h2 protocol H serves other", {"filter_chains":[{"filter_chain_match":{"destination_port":80,"prefix_ranges":[{"address_prefix":"10.1.2.3","prefix_len":8},{"address_prefix":"::1"}],"server_names":["*.A"],"transport_protocol":"tls","application_protocols":["h2","H"]}}]}],
  ["in at 10.1.0.1:8080 serves other from port 1 serves other", {"filter_chains":[{"filter_chain_match":{"transport_protocol":"","source_type":"ANY"}},{"filter_chain_match":{"source_ports":["1"]}}]}],
  ["V6", {"api_listener":7,"filter_chains":[]}],
  ["V6", {"internal_listener":7}],
  ["V6", {"default_filter_chain":{"filters":7}}],
  ["V6", {"filter_chains":[{"filter_chain_match":{"destination_port":0}}]}],
  ["V6", {"filter_chains":[{"filter_chain_match":{"source_type":"OTHER"}}]}],
  ["V14", {"address":null}],
  ["V14", {"address":{},"internal_listener":{}}],
  ["in at a:1 by UDP serves cluster c", {"address":{"socketAddress":{"address":"a","portValue":1,"protocol":"UDP"}}}],
  ["V16", {"filter_chains":[]}],
  ["V16", {"filter_chains":[{"filter_chain_match":{"prefix_ranges":[{"address_prefix":"10.0.0.0","prefix_len":33}]}}]}],
  ["V17", {"api_listener":{}}],
  ["V17", {"api_listener":{"api_listener":{"@type":"type.googleapis.com/envoy.extensions.filters.network.tcp_proxy.v3.TcpProxy","cluster":"c"}}}],
  ["V17", {"filter_chains":[{"filters":[{"typed_config":{"@type":"type.googleapis.com/envoy.extensions.filters.network.tcp_proxy.v3.TcpProxy","cluster":"a"}},{"typed_config":{"@type":"type.googleapis.com/envoy.extensions.filters.network.tcp_proxy.v3.TcpProxy","cluster":"a"}}]}]}],
  ["V26", {"filter_chains":[{"filter_chain_match":{"server_names":["a","b"]}},{"filter_chain_match":{"server_names":["B"]}}]}],
  ["V27", {"filter_chains":[{"filter_chain_match":{"server_names":["*"]}}]}],
  ["in at 10.1.0.1:8080 serves 0 hosts secret c secret k unlimited extension e extension h", {"filter_chains":[{"transport_socket":{"typed_config":{"@type":"type.googleapis.com/envoy.extensions.transport_sockets.tls.v3.DownstreamTlsContext","commonTlsContext":{"tlsCertificateSdsSecretConfigs":[{"name":"c","sdsConfig":{"ads":{}}}]},"sessionTicketKeysSdsSecretConfig":{"name":"k","sdsConfig":{"ads":{},"initialFetchTimeout":"0s"}}}},"filters":[{"name":"e","configDiscovery":{"configSource":{"ads":{}}}},{"typed_config":{"@type":"type.googleapis.com/envoy.extensions.filters.network.http_connection_manager.v3.HttpConnectionManager","route_config":{},"httpFilters":[{"name":"h","configDiscovery":{"configSource":{"self":{}},"defaultConfig":{}}},{"name":"d","configDiscovery":{"configSource":{"self":{}},"defaultConfig":{},"applyDefaultConfigWithoutWarming":true}},{"name":7}]}}]}]}],
  ["in at 10.1.0.1:8080 extension l serves cluster c", {"listener_filters":[{"name":"l","configDiscovery":{"configSource":{"ads":{}}}}]}],
  ["in at 10.1.0.1:8080 serves 0 hosts extension h", {"api_listener":{"api_listener":{"@type":"type.googleapis.com/envoy.extensions.filters.network.http_connection_manager.v3.HttpConnectionManager","route_config":{},"http_filters":[{"name":"h","config_discovery":{"config_source":{"ads":{}}}}]}},"listener_filters":[{"name":"l","configDiscovery":{"configSource":{"ads":{}}}}]}],
  ["in at 10.1.0.1:8080 restores hands over serves cluster c", {"use_original_dst":true}],
  ["V10", {"listener_filters":[{"name":"l","configDiscovery":{}}]}],
  ["V2", {"listener_filters":[{"configDiscovery":{"configSource":{"ads":{}}}}]}],
  ["V2", {"listener_filters":[{"configDiscovery":7}]}],
  ["V6", {"listener_filters":[{"name":"l","configDiscovery":7}]}],
  ["V6", {"default_filter_chain":{"transport_socket":7}}]
]"#;

// The same of the members of its connection manager, by the own rules.
pub(crate) const MANAGERS: &str = r#"[
  ["in at 10.1.0.1:8080 serves routes r, limited true", {"rds":{"config_source":{"ads":{}},"route_config_name":"r"}}],
  ["in at 10.1.0.1:8080 serves routes r, limited false", {"rds":{"configSource":{"self":{},"initial_fetch_timeout":"0s"},"routeConfigName":"r"},"route_config":null,"scoped_routes":null}],
  ["in at 10.1.0.1:8080 serves 0 hosts", {"route_config":{}}],
  ["V2", {"rds":{"config_source":{"ads":{}}}}],
  ["V2", {"rds":{"config_source":{"ads":{}},"route_config_name":""},"scoped_routes":1,"scopedRoutes":1}],
  ["V2", {"rds":{},"route_config":{}}],
  ["V6", {"rds":[]}],
  ["V6", {"rds":{"route_config_name":7}}],
  ["V6", {"rds":{"config_source":"ads","route_config_name":"r"}}],
  ["V6", {"rds":{"config_source":{"ads":1},"route_config_name":"r"}}],
  ["V6", {"rds":{"config_source":{"initial_fetch_timeout":5},"route_config_name":"r"}}],
  ["V6", {"route_config":""}],
  ["V6", {"route_config":{"name":1},"rds":{"route_config_name":"r"}}],
  ["V6", {"scoped_routes":1,"scopedRoutes":1}],
  ["V10", {"rds":{"route_config_name":"r"}}],
  ["V10", {"rds":{"config_source":{},"route_config_name":"r"},"route_config":{}}],
  ["V10", {"rds":{"config_source":{"ads":{},"self":{}},"route_config_name":"r"}}],
  ["V10", {"rds":{"config_source":{"ads":{},"path":0},"route_config_name":"r"}}],
  ["V10", {"rds":{"config_source":{"ads":{},"initialFetchTimeout":"-1s"},"route_config_name":"r"}}],
  ["V18", {"stat_prefix":"s"}],
  ["V18", {"rds":{"config_source":{"ads":{}},"route_config_name":"r"},"route_config":{"virtual_hosts":[{}]}}],
  ["V18", {"route_config":{},"scoped_routes":0}],
  ["V18", {"rds":{"config_source":{"ads":{}},"route_config_name":"r"},"scopedRoutes":[]}],
  ["V19", {"route_config":{"virtual_hosts":[{"name":"h"}]}}],
  ["V20", {"route_config":{"virtual_hosts":[{"name":"h","domains":["x.Y","X.y"]}]}}],
  ["V21", {"route_config":{"virtual_hosts":[{"name":"h","domains":["*"],"routes":[{"redirect":{}}]}]}}],
  ["V22", {"route_config":{"virtual_hosts":[{"name":"h","domains":["*"],"routes":[{"match":{"prefix":"/"}}]}]}}],
  ["V23", {"route_config":{"virtual_hosts":[{"name":"h","domains":["*"],"routes":[{"match":{"prefix":"/"},"route":{"cluster":""}}]}]}}],
  ["V24", {"route_config":{"virtual_hosts":[{"name":"h","domains":["*"],"routes":[{"match":{"prefix":"/"},"route":{"weighted_clusters":{}}}]}]}}]
]"#;

// The same as Envoy reads them.
pub(crate) const ENVOY_MANAGERS: &str = r#"[
  ["in at 10.1.0.1:8080 serves other", {"scoped_routes":{}}],
  ["in at 10.1.0.1:8080 serves routes r, limited true", {"rds":{"config_source":{"path":"/x"},"route_config_name":"r"}}],
  ["in at 10.1.0.1:8080 serves 1 hosts", {"route_config":{"virtual_hosts":[{"name":"h","domains":["*"],"routes":[{"match":{"connect_matcher":{}},"filter_action":{}}]}]}}],
  ["V6", {"scoped_routes":0,"route_config":{}}],
  ["V18", {"scoped_routes":{},"route_config":{}}],
  ["V18", {"stat_prefix":"s"}]
]"#;

// Listeners as control planes write them.
pub(crate) const WHOLE_LISTENERS: &str = r#"[
  ["ingress at 0.0.0.0:8443 serves routes shop, limited false", {
    "@type": "type.googleapis.com/envoy.config.listener.v3.Listener",
    "name": "ingress",
    "address": {"socketAddress": {"protocol": "TCP", "address": "0.0.0.0", "portValue": 8443}},
    "accessLog": [{"name": "file", "typedConfig": {"path": "/dev/stdout"}}],
    "listenerFilters": [{"name": "tls_inspector", "typedConfig": {}}],
    "filterChains": [{
      "filterChainMatch": {},
      "transportSocket": {"name": "tls", "typedConfig": {"commonTlsContext": {"alpnProtocols": ["h2"]}}},
      "filters": [
        {"name": "rbac", "typedConfig": {"@type": "type.googleapis.com/envoy.extensions.filters.network.rbac.v3.RBAC", "rules": {}}},
        {"name": "hcm", "typedConfig": {
          "@type": "type.googleapis.com/envoy.extensions.filters.network.http_connection_manager.v3.HttpConnectionManager",
          "statPrefix": "ingress",
          "useRemoteAddress": true,
          "rds": {"configSource": {"ads": {}, "initialFetchTimeout": "0.000s", "resourceApiVersion": "V3"}, "routeConfigName": "shop"},
          "httpFilters": [{"name": "router", "typedConfig": {}}],
          "upgradeConfigs": [{"upgradeType": "websocket"}]
        }}
      ]
    }],
    "perConnectionBufferLimitBytes": 32768
  }],
  ["admin at ::1:0 serves 1 hosts", {
    "name": "admin",
    "address": {"socket_address": {"address": "::1", "port_value": "0", "ipv4_compat": true}},
    "filter_chains": [{"filters": [{"typed_config": {"@type": "type.googleapis.com/envoy.extensions.filters.network.http_connection_manager.v3.HttpConnectionManager", "stat_prefix": "a",
      "route_config": {"name": "local", "virtual_hosts": [{"name": "all", "domains": ["*"], "routes": [
        {"match": {"prefix": "/"}, "direct_response": {"status": 200}}]}]}}}]}]
  }],
  ["db at 10.0.0.9:5432 serves 2 clusters", {
    "name": "db",
    "address": {"socket_address": {"address": "10.0.0.9", "port_value": 5432}},
    "enable_reuse_port": true,
    "filter_chains": [{"name": "", "filters": [{"name": "tcp", "typed_config": {"@type": "type.googleapis.com/envoy.extensions.filters.network.tcp_proxy.v3.TcpProxy", "stat_prefix": "db",
      "idle_timeout": "3600s", "weighted_clusters": {"clusters": [{"name": "a", "weight": 3}, {"name": "b", "weight": 1}]}}}]}]
  }],
  ["cache at c:1 serves cluster redis", {
    "name": "cache", "address": {"socket_address": {"address": "c", "port_value": 1}},
    "filter_chains": [{"filters": [{"typed_config": {"@type": "type.googleapis.com/envoy.extensions.filters.network.tcp_proxy.v3.TcpProxy", "cluster": "redis"}}]}]
  }]
]"#;
