ghost use Rattle.std.specs.Prelude.{◌≡◌, option_map};
ghost use Rattle.serde_json.specs.View.{view};
ghost use Rattle.vl_vschema.specs.Breaking.{is_vindex as is_vindex_name};

use crate::finder::Finder;
use crate::member::has;
use crate::path::Path;
use crate::path_sink::PathSink;
use crate::walk::look_at;
use serde_json::Value;
use std::alloc::{AllocError, Global};

// Whether the name is that of one of the vindexes.
fn is_vindex(vindexes: Option<&Value>, name: &Value) -> bool
    ensures { result ≡ is_vindex_name (option_map (λ v. view v.now) vindexes.entry) (view name.now) }
{
    match (vindexes, name.as_str()) {
        (Some(vindexes), Some(name)) => has(vindexes, name),
        _ => false,
    }
}

#[derive(Drop)]
struct NoVindex<'a> {
    vindexes: Option<&'a Value>,
}

impl Finder for NoVindex<'_> {
    ghost use Rattle.std.specs.Prelude.{option_map};
    ghost use Rattle.vl_vschema.specs.Breaking.{no_vindex};

    ghost found = { λ s. no_vindex (option_map (λ v. view v.now) s.vindexes) };

    fn find<S: PathSink>(
        &self,
        alloc: Global,
        path: &Path,
        name: &Value,
        sink: &mut S,
    ) -> Result<(), AllocError> {
        if is_vindex(self.vindexes, name) {
            return Ok(());
        }
        sink.note(alloc, path)
    }
}

/// V4: finds a column vindex with neither or both of `column` and `columns` or without a name, and a
/// name that is none of the vindexes'.
#[derive(Drop)]
pub(crate) struct WrongColumnVindex<'a> {
    pub(crate) vindexes: Option<&'a Value>,
}

impl Finder for WrongColumnVindex<'_> {
    ghost use Rattle.std.specs.Prelude.{option_map};
    ghost use Rattle.vl_vschema.specs.Breaking.{wrong_column_vindex};

    ghost found = { λ s. wrong_column_vindex (option_map (λ v. view v.now) s.vindexes) };

    fn find<S: PathSink>(
        &self,
        alloc: Global,
        path: &Path,
        column_vindex: &Value,
        sink: &mut S,
    ) -> Result<(), AllocError> {
        let one = has(column_vindex, "column") != has(column_vindex, "columns");
        if !(one && has(column_vindex, "name")) {
            sink.note(alloc, path)?;
        }
        let name = NoVindex {
            vindexes: self.vindexes,
        };
        look_at(&name, alloc, path, column_vindex, "name", sink)
    }
}
