ghost use Rattle.std.specs.Prelude.{◌≡◌};
ghost use Rattle.serde_json.specs.View.{view};
ghost use Rattle.vl_vschema.specs.Breaking.{is_known as is_known_type};

use crate::finder::Finder;
use crate::member::{has, has_type, is_lookup};
use crate::path::Path;
use crate::path_sink::PathSink;
use serde_json::Value;
use std::alloc::{AllocError, Global};

fn is_known(vindex: &Value) -> bool
    ensures { result ≡ is_known_type (view vindex.now) }
{
    has_type(vindex, "numeric") || has_type(vindex, "binary_md5") || is_lookup(vindex)
}

/// V2: finds the type of a vindex, where it isn't one of the four.
#[derive(Drop)]
pub(crate) struct UnknownType;

impl Finder for UnknownType {
    ghost use Rattle.vl_vschema.specs.Breaking.{unknown_type};

    ghost found = { λ _. unknown_type };

    fn find<S: PathSink>(
        &self,
        alloc: Global,
        path: &Path,
        vindex: &Value,
        sink: &mut S,
    ) -> Result<(), AllocError> {
        if !has(vindex, "type") {
            return sink.note(alloc, path);
        }
        if is_known(vindex) {
            return Ok(());
        }
        let path = path.child(alloc, b"type")?;
        sink.note(alloc, &path)
    }
}
