ghost use Rattle.std.specs.Prelude.{◌≡◌, IfOk};
ghost use Rattle.serde_json.specs.View.{view};
ghost use Rattle.ev_expand.specs.Editing.{with_value, without};

use serde_json::{Value, put};
use std::alloc::{AllocError, Global};

// An object with this value as the member of this name. What is no object stays.
pub(crate) fn with_value(
    alloc: Global,
    value: Value,
    name: &str,
    member: Value,
) -> Result<Value, AllocError>
    ensures { IfOk result (λ made. view made ≡ with_value name.now (view member) (view value)) }
{
    match value {
        Value::Object(mut members) => {
            put(&mut members, alloc, name, member)?;
            Ok(Value::Object(members))
        }
        Value::Null => Ok(Value::Null),
        Value::Bool(b) => Ok(Value::Bool(b)),
        Value::Number(number) => Ok(Value::Number(number)),
        Value::String(text) => Ok(Value::String(text)),
        Value::Array(values) => Ok(Value::Array(values)),
    }
}

// An object without the member of this name. What is no object stays.
pub(crate) fn without(value: Value, name: &str) -> Value
    ensures { view result ≡ without name.now (view value) }
{
    match value {
        Value::Object(mut members) => {
            members.remove(name);
            Value::Object(members)
        }
        Value::Null => Value::Null,
        Value::Bool(b) => Value::Bool(b),
        Value::Number(number) => Value::Number(number),
        Value::String(text) => Value::String(text),
        Value::Array(values) => Value::Array(values),
    }
}
