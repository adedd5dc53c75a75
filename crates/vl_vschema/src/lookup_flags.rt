use crate::finder::Finder;
use crate::member::{is_lookup, is_text};
use crate::path::Path;
use crate::path_sink::PathSink;
use crate::walk::look_at;
use serde_json::Value;
use std::alloc::{AllocError, Global};

#[derive(Drop)]
struct NotFlag;

impl Finder for NotFlag {
    ghost use Rattle.vl_vschema.specs.Breaking.{not_flag};

    ghost found = { λ _. not_flag };

    fn find<S: PathSink>(
        &self,
        alloc: Global,
        path: &Path,
        value: &Value,
        sink: &mut S,
    ) -> Result<(), AllocError> {
        if is_text(value, "true") || is_text(value, "false") {
            return Ok(());
        }
        sink.note(alloc, path)
    }
}

#[derive(Drop)]
struct WrongParams;

impl Finder for WrongParams {
    ghost use Rattle.vl_vschema.specs.Breaking.{wrong_params};

    ghost found = { λ _. wrong_params };

    fn find<S: PathSink>(
        &self,
        alloc: Global,
        path: &Path,
        params: &Value,
        sink: &mut S,
    ) -> Result<(), AllocError> {
        look_at(&NotFlag, alloc, path, params, "ignore_nulls", sink)?;
        look_at(&NotFlag, alloc, path, params, "write_only", sink)
    }
}

/// V6: finds the flags of a lookup that are neither "true" nor "false".
#[derive(Drop)]
pub(crate) struct LookupFlags;

impl Finder for LookupFlags {
    ghost use Rattle.vl_vschema.specs.Breaking.{lookup_flags};

    ghost found = { λ _. lookup_flags };

    fn find<S: PathSink>(
        &self,
        alloc: Global,
        path: &Path,
        vindex: &Value,
        sink: &mut S,
    ) -> Result<(), AllocError> {
        if !is_lookup(vindex) {
            return Ok(());
        }
        look_at(&WrongParams, alloc, path, vindex, "params", sink)
    }
}
