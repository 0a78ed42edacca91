use ev_cluster_json::{read_assignment, read_cluster};
use ev_types::{Assignment, Cluster, Discovery, Profile, Reference, Seq};
use serde_json::Value;
use std::alloc::{AllocError, Global};
use std::test::Fail;

// Clusters, each after what it reads as: each rule alone, beside a lower and a higher one,
// and the fields that aren't looked at.
pub(crate) const CLUSTERS: &str = r#"[
  ["V8", {"name":"a","type":"EDS"}],
  ["V6", {"name":"a","type":"EDS","edsClusterConfig":{},"eds_cluster_config":{}}],
  ["V10", {"name":"a","type":"EDS","edsClusterConfig":{}}],
  ["V3", {}],
  ["a static, checked false", {"name":"a"}],
  ["V7", {"name":"a","type":"STRICT_DNS"}],
  ["V6", {"name":"a","type":9}],
  ["V7", {"name":"a","clusterType":{}}],
  ["V9", {"name":"a","type":0,"eds_cluster_config":{"edsConfig":{"ads":{}}}}],
  ["V10", {"name":"a","type":"EDS","edsClusterConfig":{"edsConfig":{"ads":{},"initialFetchTimeout":"-1s"}}}],
  ["V11", {"name":"a","connectTimeout":"0s"}],
  ["V12", {"name":"a","loadAssignment":{"endpoints":[{"lbEndpoints":[{}]}]}}],
  ["V13", {"name":"a","loadAssignment":{"endpoints":[{"priority":129}]}}],
  ["V8", {"name":"a","type":"EDS","connectTimeout":"0s"}],
  ["V6", {"name":"a","type":"EDS","connectTimeout":"1"}],
  ["V2", {"name":"a","edsClusterConfig":{"serviceName":"^x"}}],
  ["V2", {"name":"","edsClusterConfig":{"serviceName":"^x"},"connectTimeout":"0s"}],
  ["V3", {"name":"","type":7,"healthChecks":{}}],
  ["V6", {"name":5,"type":"STRICT_DNS"}],
  ["V7", {"name":"a","type":1,"edsClusterConfig":{},"connectTimeout":"-1s"}],
  ["V9", {"name":"a","eds_cluster_config":{},"connectTimeout":"-1s","loadAssignment":{"endpoints":[{"priority":200}]}}],
  ["V11", {"name":"a","connectTimeout":"0s","loadAssignment":{"endpoints":[{"lbEndpoints":[{}],"priority":200}]}}],
  ["V12", {"name":"a","loadAssignment":{"endpoints":[{"priority":200},{"lbEndpoints":[{}]}]}}],
  ["V6", {"name":"a","loadAssignment":{"endpoints":[{"priority":200},{"lbEndpoints":[null]}]}}],
  ["a by a, limited true, fresh false, checked false", {"name":"a","type":"EDS","edsClusterConfig":{"edsConfig":{"ads":{}}},"loadAssignment":7}],
  ["a static, checked false", {"name":"a","type":null,"loadAssignment":null,"edsClusterConfig":null,"healthChecks":null}],
  ["V6", {"name":"a","loadAssignment":7}],
  ["V6", {"name":"a","edsClusterConfig":{"edsConfig":"ads"}}],
  ["a static, checked false", {"name":"a","transportSocket":7,"transportSocketMatches":{}}]
]"#;

// The same as Envoy reads them.
pub(crate) const ENVOY_CLUSTERS: &str = r#"[
  ["a static, checked false", {"name":"a"}],
  ["a static, checked false", {"name":"a","type":"STRICT_DNS","loadAssignment":{"endpoints":[{"lbEndpoints":[{%}]}]}}],
  ["V12", {"name":"a","type":2,"loadAssignment":{"endpoints":[{"lbEndpoints":[{}]}]}}],
  ["a elsewhere, checked false", {"name":"a","type":"ORIGINAL_DST","loadAssignment":7}],
  ["a elsewhere, checked true", {"name":"a","type":"EDS","clusterType":{},"healthChecks":[{}]}],
  ["a by b, limited true, fresh true, checked false", {"name":"a","type":3,"edsClusterConfig":{"serviceName":"b","edsConfig":{"pathConfigSource":{"path":"/x"}}}}],
  ["V6", {"name":"a","type":"EDS","clusterType":7}],
  ["V8", {"name":"a","type":"EDS"}],
  ["V9", {"name":"a","type":"EDS","clusterType":{},"edsClusterConfig":{"edsConfig":{"ads":{}}}}],
  ["V9", {"name":"a","type":"LOGICAL_DNS","edsClusterConfig":{"edsConfig":{"ads":{}}}}],
  ["V10", {"name":"a","type":"EDS","edsClusterConfig":{"edsConfig":{"ads":{},"path":"/x"}}}],
  ["a static, checked false secret c secret v unlimited", {"name":"a","transportSocket":{"typedConfig":{"@type":"type.googleapis.com/envoy.extensions.transport_sockets.tls.v3.UpstreamTlsContext","commonTlsContext":{"tlsCertificateSdsSecretConfigs":[{"name":"c","sdsConfig":{"ads":{}}},{"name":"boot"}],"combinedValidationContext":{"validationContextSdsSecretConfig":{"name":"v","sdsConfig":{"ads":{},"initialFetchTimeout":"0s"}}}}}}}],
  ["a static, checked false secret v", {"name":"a","transportSocket":{"typedConfig":{"@type":"x","transportSocket":{"typedConfig":{"@type":"type.googleapis.com/envoy.extensions.transport_sockets.quic.v3.QuicUpstreamTransport","upstreamTlsContext":{"commonTlsContext":{"validationContextSdsSecretConfig":{"name":"v","sdsConfig":{"self":{}}}}}}}}}}],
  ["a static, checked false", {"name":"a","transportSocket":{"typedConfig":{"@type":"x","transportSocket":{"typedConfig":{"@type":"y","transportSocket":7}}}}}],
  ["a static, checked false by match", {"name":"a","transportSocketMatches":[{"name":"m"}]}],
  ["a static, checked false by match secret v", {"name":"a","transportSocketMatches":[{},{"transportSocket":{"typedConfig":{"@type":"type.googleapis.com/envoy.extensions.transport_sockets.tls.v3.UpstreamTlsContext","commonTlsContext":{"validationContextSdsSecretConfig":{"name":"v","sdsConfig":{"path":"/x"}}}}}}]}],
  ["a static, checked false", {"name":"a","transportSocketMatches":[]}],
  ["V2", {"name":"a","transportSocket":{"typedConfig":{"@type":"type.googleapis.com/envoy.extensions.transport_sockets.tls.v3.UpstreamTlsContext","commonTlsContext":{"validationContextSdsSecretConfig":{"sdsConfig":{"ads":{}}}}}}}],
  ["V2", {"name":"a","transportSocket":{"typedConfig":{"@type":"type.googleapis.com/envoy.extensions.transport_sockets.tls.v3.UpstreamTlsContext","commonTlsContext":{"validationContextSdsSecretConfig":{"name":"^x","sdsConfig":7}}}}}],
  ["V10", {"name":"a","transportSocket":{"typedConfig":{"@type":"type.googleapis.com/envoy.extensions.transport_sockets.tls.v3.UpstreamTlsContext","commonTlsContext":{"validationContextSdsSecretConfig":{"name":"v","sdsConfig":{}}}}}}],
  ["V6", {"name":"a","transportSocket":{"typedConfig":{"@type":"type.googleapis.com/envoy.extensions.transport_sockets.tls.v3.UpstreamTlsContext","commonTlsContext":{"validationContextSdsSecretConfig":{"name":"v","sdsConfig":7}}}}}],
  ["V6", {"name":"a","transportSocket":{"typedConfig":{"@type":"type.googleapis.com/envoy.extensions.transport_sockets.tls.v3.UpstreamTlsContext","commonTlsContext":{"validationContextSdsSecretConfig":{"name":7}}}}}],
  ["a static, checked false", {"name":"a","transportSocket":{"typedConfig":{"@type":"type.googleapis.com/envoy.extensions.transport_sockets.tls.v3.UpstreamTlsContext","commonTlsContext":{"validationContextSdsSecretConfig":{"name":""}}}}}],
  ["V6", {"name":"a","transportSocket":{"typedConfig":{"@type":7}}}]
]"#;

// The same of assignments: `address:port*weight@priority` of each host,
// with `+` where it is usable and `-` where it isn't.
pub(crate) const ASSIGNMENTS: &str = r#"[
  ["a:1*1@0- ", {"endpoints":[{"lbEndpoints":[{%,"healthStatus":"UNHEALTHY"}]}]}],
  ["a:1*1@128- a:1*1@128- ", {"clusterName":"","endpoints":[{"lb_endpoints":[{%,"healthStatus":"UNHEALTHY"},{%,"healthStatus":"UNHEALTHY"}],"priority":"128"}]}],
  ["", {}],
  ["V6", {"clusterName":7}],
  ["V6", {"endpoints":{}}],
  ["V6", {"endpoints":[null]}],
  ["V6", {"endpoints":[{"lbEndpoints":[{%,"healthStatus":"UNHEALTHY"}],"lb_endpoints":[{%,"healthStatus":"UNHEALTHY"}]}]}],
  ["V6", {"endpoints":[{"lbEndpoints":[{"endpoint":[]}]}]}],
  ["V12", {"endpoints":[{"lbEndpoints":[{"endpoint":{"address":{"pipe":{"path":"/x"}}}}]}]}],
  ["V12", {"endpoints":[{"lbEndpoints":[{"endpointName":"x"}]}]}],
  ["V13", {"endpoints":[{"lbEndpoints":[{%,"loadBalancingWeight":0}]}]}],
  ["V13", {"endpoints":[{"lbEndpoints":[{%,"load_balancing_weight":"4294967295"},{%,"healthStatus":"UNHEALTHY"}]}]}],
  ["a:1*4294967295@0+ a:1*1@0- ", {"endpoints":[{"lbEndpoints":[{%,"load_balancing_weight":"4294967295"}]},{"lbEndpoints":[{%,"healthStatus":"UNHEALTHY"}]}]}],
  ["V12", {"endpoints":[{"lbEndpoints":[{%,"load_balancing_weight":"4294967295"},{%,"healthStatus":"UNHEALTHY"}]},{"lbEndpoints":[{}]}]}],
  ["V6", {"endpoints":[{"lbEndpoints":[{%,"loadBalancingWeight":0},{}]},{"lbEndpoints":[{"healthStatus":"SICK"}]}]}]
]"#;

// The same as Envoy reads them.
pub(crate) const ENVOY_ASSIGNMENTS: &str = r#"[
  ["a:1*1@0+ pipe:/x:0*1@0+ ", {"endpoints":[{"lbEndpoints":[{%},{"endpoint":{"address":{"pipe":{"path":"/x"}}}}]}]}],
  ["internal:l/i:0*2@1- ", {"endpoints":[{"priority":1,"lbEndpoints":[{"endpoint":{"address":{"envoyInternalAddress":{"serverListenerName":"l","endpointId":"i"}}},"healthStatus":2,"loadBalancingWeight":2}]}]}],
  ["V12", {"endpoints":[{"lbEndpoints":[{"endpoint":{"address":{"pipe":{"path":"/x"},"socketAddress":{"address":"a","portValue":1}}}}]}]}]
]"#;

// Clusters as control planes write them; the profile passes over most of their fields.
pub(crate) const CLUSTERS_OF_CONTROL_PLANES: &str = r#"[
  ["outbound|9080||reviews.default.svc.cluster.local by outbound|9080||reviews.default.svc.cluster.local, limited false, fresh false, checked true", {"@type":"type.googleapis.com/envoy.config.cluster.v3.Cluster",
            "name":"outbound|9080||reviews.default.svc.cluster.local","type":"EDS",
            "edsClusterConfig":{"edsConfig":{"ads":{},"initialFetchTimeout":"0s","resourceApiVersion":"V3"},
            "serviceName":"outbound|9080||reviews.default.svc.cluster.local"},"connectTimeout":"10s",
            "lbPolicy":"LEAST_REQUEST","circuitBreakers":{"thresholds":[{"maxConnections":4294967295}]},
            "healthChecks":[{"timeout":"5s","interval":"10s","httpHealthCheck":{"path":"/healthz"}}],
            "typedExtensionProtocolOptions":{"envoy.extensions.upstreams.http.v3.HttpProtocolOptions":{"@type":"x"}},
            "outlierDetection":{"consecutive5xx":5},"transportSocket":{"name":"tls"},
            "commonLbConfig":{"localityWeightedLbConfig":{}},"metadata":{"filterMetadata":{"istio":{}}}}],
  ["b by b, limited true, fresh false, checked false", {"name":"b","type":3,"edsClusterConfig":{"edsConfig":{"self":{}}}}]
]"#;

// The same of an assignment.
pub(crate) const AN_ASSIGNMENT: &str = r#"[
  ["10.244.0.9:9080*3@0- 10.244.0.9:9080*1@0+ ::1:0*1@1+ ", {"clusterName":"reviews","policy":{"overprovisioningFactor":140},"endpoints":[
            {"locality":{"region":"r","zone":"z"},"loadBalancingWeight":2,"lbEndpoints":[
            {"endpoint":{"address":{"socketAddress":{"address":"10.244.0.9","portValue":9080,"protocol":"TCP"}},
            "hostname":"x","healthCheckConfig":{"portValue":1}},"healthStatus":"DRAINING","loadBalancingWeight":3,"metadata":{}},
            {"endpoint":{"address":{"socketAddress":{"address":"10.244.0.9","portValue":9080}}},"healthStatus":5}]},
            {"priority":1,"lbEndpoints":[
            {"endpoint":{"address":{"socketAddress":{"address":"::1","portValue":0}}}}]}]}]
]"#;

// A cluster in words: its name, how it comes by its hosts, whether they are checked, and the secrets that it waits for.
fn describe_cluster(alloc: Global, cluster: &Cluster) -> Result<String, AllocError> {
    let mut text = describe_hosts(alloc, cluster)?;
    describe_references(&mut text, " secret ", &cluster.secrets)?;
    if let Some(secrets) = &cluster.secrets_by_match {
        text.push_str(" by match")?;
        describe_references(&mut text, " secret ", secrets)?;
    }
    Ok(text)
}

// References in words, each after a word.
pub(crate) fn describe_references(
    text: &mut String,
    word: &str,
    references: &Seq<Reference>,
) -> Result<(), AllocError> {
    for reference in references.as_slice() {
        text.push_str(word)?;
        text.push_str(reference.name.as_str())?;
        text.push_str(if reference.limited { "" } else { " unlimited" })?;
    }
    Ok(())
}

// A cluster in words but for its secrets.
fn describe_hosts(alloc: Global, cluster: &Cluster) -> Result<String, AllocError> {
    let (name, checked) = (cluster.name.as_str(), cluster.checked);
    match &cluster.discovery {
        Discovery::Static(_) => format!(in alloc; "{name} static, checked {checked}"),
        Discovery::Eds {
            service,
            limited,
            fresh,
        } => {
            let (service, limited, fresh) = (service.as_str(), *limited, *fresh);
            format!(in alloc;
                "{name} by {service}, limited {limited}, fresh {fresh}, checked {checked}"
            )
        }
        Discovery::Elsewhere => format!(in alloc; "{name} elsewhere, checked {checked}"),
    }
}

// What a cluster reads as: its content, or the rule that refuses it.
pub(crate) fn tell_cluster(alloc: Global, profile: Profile, body: &Value) -> Result<String, Fail> {
    match read_cluster(alloc, profile, body) {
        Ok(cluster) => {
            let text = describe_cluster(alloc, &cluster);
            drop(cluster);
            Ok(text?)
        }
        Err(error) => Ok(format!(in alloc; "{error}")?),
    }
}

// The hosts of an assignment.
fn describe_assignment(alloc: Global, assignment: &Assignment) -> Result<String, AllocError> {
    let mut text = String::new(alloc);
    for row in assignment.rows() {
        let (address, port) = (row.host.address.as_str(), row.host.port);
        let sign = if row.usable { "+" } else { "-" };
        let told = format!(in alloc; "{address}:{port}*{}@{}{sign} ", row.weight, row.priority)?;
        text.push_str(told.as_str())?;
    }
    Ok(text)
}

// What an assignment reads as: its hosts, or the rule that refuses it.
pub(crate) fn tell_assignment(
    alloc: Global,
    profile: Profile,
    body: &Value,
) -> Result<String, Fail> {
    match read_assignment(alloc, profile, body) {
        Ok(assignment) => {
            let text = describe_assignment(alloc, &assignment);
            drop(assignment);
            Ok(text?)
        }
        Err(error) => Ok(format!(in alloc; "{error}")?),
    }
}
