use crate::finder::Finder;
use crate::member::{has, is_lookup};
use crate::path::Path;
use crate::path_sink::PathSink;
use crate::walk::look_at;
use serde_json::Value;
use std::alloc::{AllocError, Global};

#[derive(Drop)]
struct ParamsLack;

impl Finder for ParamsLack {
    ghost use Rattle.vl_vschema.specs.Breaking.{params_lack};

    ghost found = { λ _. params_lack };

    fn find<S: PathSink>(
        &self,
        alloc: Global,
        path: &Path,
        params: &Value,
        sink: &mut S,
    ) -> Result<(), AllocError> {
        if has(params, "table") && has(params, "from") && has(params, "to") {
            return Ok(());
        }
        sink.note(alloc, path)
    }
}

/// V3: finds a lookup without its owner or its params, and params without the table or one of its
/// columns.
#[derive(Drop)]
pub(crate) struct LookupLacks;

impl Finder for LookupLacks {
    ghost use Rattle.vl_vschema.specs.Breaking.{lookup_lacks};

    ghost found = { λ _. lookup_lacks };

    fn find<S: PathSink>(
        &self,
        alloc: Global,
        path: &Path,
        vindex: &Value,
        sink: &mut S,
    ) -> Result<(), AllocError> {
        if !is_lookup(vindex) {
            return Ok(());
        }
        if !(has(vindex, "owner") && has(vindex, "params")) {
            sink.note(alloc, path)?;
        }
        look_at(&ParamsLack, alloc, path, vindex, "params", sink)
    }
}
