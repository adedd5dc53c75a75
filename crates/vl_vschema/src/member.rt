// What stands at a name of a value.
ghost use Rattle.std.specs.Prelude.{◌≡◌, codes};
ghost use Rattle.serde_json.specs.View.{view};
ghost use Rattle.vl_vschema.specs.Breaking.{has_type as has_vindex_type, is_lookup as is_lookup_vindex};
ghost use Rattle.vl_vschema.specs.Json.{has as has_name, is_text as is_this_text};
ghost use Rattle.vl_vschema.specs.Vschema.{param as param_text, text_named as text_by_name, text_of as own_text};

use serde_json::Value;

pub(crate) fn has(value: &Value, name: &str) -> bool
    ensures { result ≡ has_name name.now (view value.now) }
{
    value.get(name).is_some()
}

pub(crate) fn is_text(value: &Value, text: &str) -> bool
    ensures { result ≡ is_this_text text.now (view value.now) }
{
    match value.as_str() {
        Some(found) => found == text,
        None => false,
    }
}

/// The text that the value is, empty where it is none.
pub(crate) fn text_of(value: &Value) -> &str
    ensures { result.now ≡ own_text (view value.now) }
{
    value.as_str().unwrap_or("")
}

/// The text of this name, empty where there is none.
pub(crate) fn text_named<'v>(value: &'v Value, name: &str) -> &'v str
    ensures { result.now ≡ text_by_name name.now (view value.now) }
{
    match value.get(name) {
        Some(member) => text_of(member),
        None => "",
    }
}

/// The param of this name, empty where the vindex has none.
pub(crate) fn param<'v>(vindex: &'v Value, name: &str) -> &'v str
    ensures { result.now ≡ param_text name.now (view vindex.now) }
{
    match vindex.get("params") {
        Some(params) => text_named(params, name),
        None => "",
    }
}

/// Whether a vindex has this type.
pub(crate) fn has_type(vindex: &Value, text: &str) -> bool
    ensures { result ≡ has_vindex_type text.now (view vindex.now) }
{
    match vindex.get("type") {
        Some(found) => is_text(found, text),
        None => false,
    }
}

pub(crate) fn is_lookup(vindex: &Value) -> bool
    ensures { result ≡ is_lookup_vindex (view vindex.now) }
{
    has_type(vindex, "consistent_lookup") || has_type(vindex, "consistent_lookup_unique")
}
