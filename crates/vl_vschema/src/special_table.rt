use crate::finder::Finder;
use crate::member::is_text;
use crate::path::Path;
use crate::path_sink::PathSink;
use crate::walk::{Here, look_at};
use serde_json::Value;
use std::alloc::{AllocError, Global};

#[derive(Drop)]
struct NotEmpty;

impl Finder for NotEmpty {
    ghost use Rattle.vl_vschema.specs.Breaking.{not_empty};

    ghost found = { λ _. not_empty };

    fn find<S: PathSink>(
        &self,
        alloc: Global,
        path: &Path,
        value: &Value,
        sink: &mut S,
    ) -> Result<(), AllocError> {
        if is_text(value, "") {
            return Ok(());
        }
        sink.note(alloc, path)
    }
}

/// V5: finds a table's `type` that isn't the empty text, and `pinned`.
#[derive(Drop)]
pub(crate) struct SpecialTable;

impl Finder for SpecialTable {
    ghost use Rattle.vl_vschema.specs.Breaking.{special_table};

    ghost found = { λ _. special_table };

    fn find<S: PathSink>(
        &self,
        alloc: Global,
        path: &Path,
        table: &Value,
        sink: &mut S,
    ) -> Result<(), AllocError> {
        look_at(&NotEmpty, alloc, path, table, "type", sink)?;
        look_at(&Here, alloc, path, table, "pinned", sink)
    }
}
