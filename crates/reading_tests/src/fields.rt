use ev_tree::{
    AnyAddress, BrokenRules, EnumTable, ReadError, Span, any_address, body_text, boolean,
    config_source, duration, enumeration, field, is_not_positive, list, member, number32, object,
    text,
};
use ev_types::{Profile, Rule};
use serde_json::Value;
use std::alloc::Global;
use std::process::Abort;
use std::test::Fail;

const WRONG: ReadError = ReadError::Rule(Rule::V6);

// Fields, each after the number that it writes.
pub(crate) const NUMBERS: &str = r#"[
  ["7", {"load_balancing_weight":7}],
  ["7", {"loadBalancingWeight":7}],
  ["V6", {"loadBalancingWeight":7,"load_balancing_weight":7}],
  ["8", {"loadBalancingWeight":null,"load_balancing_weight":8}],
  ["9", {"loadBalancingWeight":9,"load_balancing_weight":null}],
  ["none", {"LoadBalancingWeight":7,"loadbalancingweight":7,"load_balancingWeight":7}],
  ["none", {"loadBalancingWeight":null}],
  ["none", {}],
  ["0", {"loadBalancingWeight":0}],
  ["4294967295", {"loadBalancingWeight":4294967295}],
  ["V6", {"loadBalancingWeight":4294967296}],
  ["V6", {"loadBalancingWeight":-1}],
  ["V6", {"loadBalancingWeight":1.5}],
  ["4294967295", {"loadBalancingWeight":"4294967295"}],
  ["7", {"loadBalancingWeight":"0000000007"}],
  ["V6", {"loadBalancingWeight":"00000000007"}],
  ["V6", {"loadBalancingWeight":"4294967296"}],
  ["V6", {"loadBalancingWeight":"+1"}],
  ["V6", {"loadBalancingWeight":" 1"}],
  ["V6", {"loadBalancingWeight":""}],
  ["V6", {"loadBalancingWeight":true}],
  ["V6", {"loadBalancingWeight":[1]}]
]"#;

// Durations, each after where it lies.
pub(crate) const DURATIONS: &str = r#"[
  ["zero", {"connectTimeout":"0s"}],
  ["zero", {"connectTimeout":"-0s"}],
  ["zero", {"connectTimeout":"000.000000000s"}],
  ["positive", {"connectTimeout":"0.000000001s"}],
  ["negative", {"connectTimeout":"-0.5s"}],
  ["negative", {"connectTimeout":"-3s"}],
  ["positive", {"connectTimeout":"15s"}],
  ["positive", {"connectTimeout":"315576000000s"}],
  ["V6", {"connectTimeout":"315576000001s"}],
  ["V6", {"connectTimeout":"0315576000000s"}],
  ["V6", {"connectTimeout":"1"}],
  ["V6", {"connectTimeout":"s"}],
  ["V6", {"connectTimeout":""}],
  ["V6", {"connectTimeout":"-s"}],
  ["V6", {"connectTimeout":"+1s"}],
  ["V6", {"connectTimeout":"--1s"}],
  ["V6", {"connectTimeout":"1.s"}],
  ["V6", {"connectTimeout":".5s"}],
  ["V6", {"connectTimeout":"1.0000000000s"}],
  ["V6", {"connectTimeout":"1.5.5s"}],
  ["V6", {"connectTimeout":"1 s"}],
  ["V6", {"connectTimeout":"1ms"}]
]"#;

// Holders of an address, each after the address, or whether it breaks V6 and V12.
pub(crate) const ADDRESSES: &str = r#"[
  ["10.0.0.1:80", {"address":{"socketAddress":{"address":"10.0.0.1","portValue":80}}}],
  ["10.0.0.1:65535", {"address":{"socket_address":{"address":"10.0.0.1","port_value":"65535"}}}],
  ["V6 false, V12 true", {"address":{"socketAddress":{"address":"10.0.0.1","portValue":65536}}}],
  ["V6 false, V12 true", {"address":{"socketAddress":{"address":"","portValue":80}}}],
  ["V6 false, V12 true", {"address":{"socketAddress":{"address":"10.0.0.1","namedPort":"http"}}}],
  ["V6 false, V12 true", {"address":{"pipe":{"path":"/run/x"}}}],
  ["V6 false, V12 true", {}],
  ["V6 true, V12 true", {"address":{"socketAddress":{"address":"10.0.0.1","portValue":-1}}}],
  ["V6 true, V12 true", {"address":"10.0.0.1:80"}]
]"#;

// The same as Envoy reads them: an address of any one kind.
pub(crate) const ENVOY_ADDRESSES: &str = r#"[
  ["10.0.0.1:80", {"address":{"socketAddress":{"address":"10.0.0.1","portValue":80}}}],
  ["pipe:/run/x:0", {"address":{"pipe":{"path":"/run/x"}}}],
  ["internal:in:0", {"address":{"envoyInternalAddress":{"serverListenerName":"in","endpointId":""}}}],
  ["internal:in/7:0", {"address":{"envoy_internal_address":{"server_listener_name":"in","endpoint_id":"7"}}}],
  ["V6 false, V12 true", {"address":{"pipe":{"path":""}}}],
  ["V6 false, V12 true", {"address":{"pipe":{"path":"^"}}}],
  ["V6 false, V12 true", {"address":{"envoyInternalAddress":{"endpointId":"7"}}}],
  ["V6 false, V12 true", {"address":{"pipe":{"path":"/run/x"},"socketAddress":{"address":"10.0.0.1","portValue":80}}}],
  ["V6 false, V12 true", {"address":{}}],
  ["V6 true, V12 false", {"address":{"pipe":{"path":"/run/x"},"socketAddress":80}}],
  ["V6 true, V12 true", {"address":{"pipe":{"path":7}}}]
]"#;

// Config sources, each after whether its wait ends, and whether it breaks V6 and V10.
pub(crate) const SOURCES: &str = r#"[
  ["limited true, V6 false, V10 false", {"ads":{}}],
  ["limited false, V6 false, V10 false", {"self":{},"initialFetchTimeout":"0s"}],
  ["limited true, V6 false, V10 false", {"ads":{},"initial_fetch_timeout":"15s","resourceApiVersion":"V3"}],
  ["limited true, V6 false, V10 true", {"ads":{},"initialFetchTimeout":"-1s"}],
  ["limited true, V6 false, V10 true", {"ads":{},"self":{}}],
  ["limited true, V6 false, V10 true", {"ads":{},"path":"/etc/x"}],
  ["limited true, V6 false, V10 true", {"ads":{},"apiConfigSource":{"apiType":"GRPC"}}],
  ["limited true, V6 false, V10 true", {}],
  ["limited true, V6 true, V10 false", {"ads":{},"path_config_source":{},"pathConfigSource":{}}],
  ["limited true, V6 true, V10 true", {"ads":[]}]
]"#;

// The same as Envoy reads them: any one source will do.
pub(crate) const ENVOY_SOURCES: &str = r#"[
  ["limited true, V6 false, V10 false", {"ads":{}}],
  ["limited false, V6 false, V10 false", {"path":"/etc/x","initialFetchTimeout":"0s"}],
  ["limited true, V6 false, V10 false", {"pathConfigSource":7}],
  ["limited true, V6 false, V10 false", {"apiConfigSource":{"apiType":"GRPC"},"path":null}],
  ["limited true, V6 false, V10 true", {"ads":{},"path":""}],
  ["limited true, V6 false, V10 true", {"path":"/etc/x","initialFetchTimeout":"-1s"}],
  ["limited true, V6 false, V10 true", {}],
  ["limited true, V6 true, V10 false", {"ads":{},"path_config_source":{},"pathConfigSource":{}}],
  ["limited true, V6 true, V10 true", {"self":1}]
]"#;

// Bodies, each after the text by which a change of it is told, with -1 for each float.
pub(crate) const BODIES: &str = r#"[
  ["{\"n\":[-1,7,-1],\"name\":\"a\",\"z\":null}", {"name":"a","z":null,"n":[0.5,7,18446744073709551616]}],
  ["{}", {}]
]"#;

// The same by the own rules, which compare the fields that are read alone.
pub(crate) const OWN_BODIES: &str = r#"[
  ["", {"name":"a"}]
]"#;

// The number that a field writes.
pub(crate) fn tell_number(alloc: Global, body: &Value) -> Result<String, Fail> {
    Ok(match number32(alloc, body, "load_balancing_weight") {
        Ok(Some(number)) => format!(in alloc; "{number}")?,
        Ok(None) => String::from_str(alloc, "none")?,
        Err(error) => format!(in alloc; "{error}")?,
    })
}

// Where a duration lies.
pub(crate) fn tell_duration(alloc: Global, body: &Value) -> Result<String, Fail> {
    Ok(match duration(alloc, body, "connect_timeout") {
        Ok(Some(Span::Negative)) => String::from_str(alloc, "negative")?,
        Ok(Some(Span::Zero)) => String::from_str(alloc, "zero")?,
        Ok(Some(Span::Positive)) => String::from_str(alloc, "positive")?,
        Ok(None) => String::from_str(alloc, "none")?,
        Err(error) => format!(in alloc; "{error}")?,
    })
}

// The address in a holder, or whether the holder breaks V6 and V12.
pub(crate) fn tell_address(alloc: Global, profile: Profile, body: &Value) -> Result<String, Fail> {
    let found = any_address(alloc, profile, Some(body))?;
    describe_address(alloc, found)
}

// The same of what is found of an address.
fn describe_address(alloc: Global, found: AnyAddress<'_>) -> Result<String, Fail> {
    let broken = found.broken;
    if broken.v6 || broken.v12 {
        return Ok(format!(in alloc; "V6 {}, V12 {}", broken.v6, broken.v12)?);
    }
    let text = found.text.to_text(alloc)?;
    let port = found.port;
    Ok(format!(in alloc; "{text}:{port}")?)
}

// Whether the wait of a config source ends, and whether the source breaks V6 and V10.
pub(crate) fn tell_source(alloc: Global, profile: Profile, body: &Value) -> Result<String, Fail> {
    let found = config_source(alloc, profile, Some(body))?;
    let (v6, v10) = (found.broken.v6, found.broken.v10);
    Ok(format!(in alloc; "limited {}, V6 {v6}, V10 {v10}", found.limited)?)
}

// The text by which a change of a body is told.
pub(crate) fn tell_body(alloc: Global, profile: Profile, body: &Value) -> Result<String, Fail> {
    let text = body_text(alloc, profile, body)?;
    Ok(String::from_str(alloc, text.as_str())?)
}

// An object with fields of each form.
const FIELDS: &str =
    r#"{"name":"a","caseSensitive":false,"type":"EDS","healthStatus":5,"protocol":"SCTP","status":6,
    "connectTimeout":5,"drainTimeout":"-0s","ads":{},"endpoints":[{},{}],"domains":["*",null]}"#;

#[test]
fn each_field_reads_as_its_form(rt: HostRuntime) -> Result<(), Fail> {
    let alloc = rt.alloc();
    let value = Value::from_str(alloc, FIELDS)?;
    assert_plain_fields(&rt, alloc, &value);
    let told = assert_inner_fields(&rt, alloc, &value);
    drop(value);
    assert_least_rules(&rt);
    told
}

// Asserts what texts, booleans and words of enums give.
fn assert_plain_fields(rt: &impl Abort, alloc: Global, value: &Value) {
    assert_eq!(rt; text(alloc, value, "name"), Ok(Some("a")));
    assert_eq!(rt; text(alloc, value, "type_url"), Ok(None));
    assert_eq!(rt; text(alloc, value, "ads"), Err(WRONG));
    assert_eq!(rt; boolean(alloc, value, "case_sensitive"), Ok(Some(false)));
    assert_eq!(rt; boolean(alloc, value, "name"), Err(WRONG));
    assert_eq!(rt;
        enumeration(alloc, value, "type", EnumTable::Discovery),
        Ok(Some(3))
    );
    assert_eq!(rt;
        enumeration(alloc, value, "health_status", EnumTable::Health),
        Ok(Some(5))
    );
    assert_eq!(rt;
        enumeration(alloc, value, "protocol", EnumTable::Protocol),
        Err(WRONG)
    );
    assert_eq!(rt;
        enumeration(alloc, value, "status", EnumTable::Health),
        Err(WRONG)
    );
    assert_eq!(rt; duration(alloc, value, "connect_timeout"), Err(WRONG));
}

// Asserts what objects, lists and members give.
fn assert_inner_fields(rt: &impl Abort, alloc: Global, value: &Value) -> Result<(), Fail> {
    assert!(rt; object(alloc, value, "ads")?.is_some());
    assert!(rt; object(alloc, value, "name").is_err());
    assert!(rt; field(alloc, value, "name")?.is_some());
    assert_eq!(rt;
        list(alloc, value, "endpoints")?.map(|elements| elements.len()),
        Some(2)
    );
    assert_eq!(rt;
        list(alloc, value, "domains")?.map(|elements| elements.len()),
        Some(2)
    );
    assert!(rt; list(alloc, value, "ads").is_err());
    assert!(rt; member::objects(alloc, Some(value), "endpoints")?.is_given());
    assert!(rt; member::objects(alloc, Some(value), "domains")?.is_wrong());
    assert!(rt; member::texts(alloc, Some(value), "domains")?.is_wrong());
    assert!(rt; is_not_positive(member::duration(alloc, Some(value), "drain_timeout")?));
    Ok(())
}

// Asserts which of several broken rules is the least.
fn assert_least_rules(rt: &impl Abort) {
    let late = BrokenRules {
        v29: true,
        ..BrokenRules::none()
    };
    let early = BrokenRules {
        v9: true,
        v25: true,
        ..BrokenRules::none()
    };
    assert_eq!(rt; BrokenRules::none().least(), None);
    assert_eq!(rt; late.least(), Some(Rule::V29));
    assert_eq!(rt; late.or(early).least(), Some(Rule::V9));
    assert_eq!(rt; late.or(early.only_if(false)), late);
}
