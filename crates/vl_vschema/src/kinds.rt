// V1 of a VSchema file: a member has the wrong JSON kind. Members that aren't named may have any.

use crate::finder::Finder;
use crate::path::Path;
use crate::path_sink::PathSink;
use crate::walk::{EachItem, EachMember, look_at};
use serde_json::Value;
use std::alloc::{AllocError, Global};

/// Finds what is no text.
#[derive(Drop)]
pub(crate) struct NotText;

impl Finder for NotText {
    ghost use Rattle.vl_vschema.specs.Breaking.{not_text};

    ghost found = { λ _. not_text };

    fn find<S: PathSink>(
        &self,
        alloc: Global,
        path: &Path,
        value: &Value,
        sink: &mut S,
    ) -> Result<(), AllocError> {
        if value.is_string() {
            return Ok(());
        }
        sink.note(alloc, path)
    }
}

/// Finds what is neither `true` nor `false`.
#[derive(Drop)]
pub(crate) struct NotBoolean;

impl Finder for NotBoolean {
    ghost use Rattle.vl_vschema.specs.Breaking.{not_boolean};

    ghost found = { λ _. not_boolean };

    fn find<S: PathSink>(
        &self,
        alloc: Global,
        path: &Path,
        value: &Value,
        sink: &mut S,
    ) -> Result<(), AllocError> {
        if value.is_boolean() {
            return Ok(());
        }
        sink.note(alloc, path)
    }
}

/// Finds what is no object, and looks into what is one.
#[derive(Drop)]
pub(crate) struct InObject<F>(pub(crate) F);

impl<F: Finder> Finder for InObject<F> {
    ghost use Rattle.vl_vschema.specs.Breaking.{in_object};

    ghost found = { λ s. in_object (F.found s.0) };

    fn find<S: PathSink>(
        &self,
        alloc: Global,
        path: &Path,
        value: &Value,
        sink: &mut S,
    ) -> Result<(), AllocError> {
        if value.is_object() {
            return self.0.find(alloc, path, value, sink);
        }
        sink.note(alloc, path)
    }
}

/// Finds what is no list, and looks into what is one.
#[derive(Drop)]
pub(crate) struct InList<F>(pub(crate) F);

impl<F: Finder> Finder for InList<F> {
    ghost use Rattle.vl_vschema.specs.Breaking.{in_list};

    ghost found = { λ s. in_list (F.found s.0) };

    fn find<S: PathSink>(
        &self,
        alloc: Global,
        path: &Path,
        value: &Value,
        sink: &mut S,
    ) -> Result<(), AllocError> {
        if value.is_array() {
            return self.0.find(alloc, path, value, sink);
        }
        sink.note(alloc, path)
    }
}

#[derive(Drop)]
struct VindexKinds;

impl Finder for VindexKinds {
    ghost use Rattle.vl_vschema.specs.Breaking.{vindex_kinds};

    ghost found = { λ _. vindex_kinds };

    fn find<S: PathSink>(
        &self,
        alloc: Global,
        path: &Path,
        vindex: &Value,
        sink: &mut S,
    ) -> Result<(), AllocError> {
        let params = InObject(EachMember(NotText));
        look_at(&NotText, alloc, path, vindex, "type", sink)?;
        look_at(&params, alloc, path, vindex, "params", sink)?;
        look_at(&NotText, alloc, path, vindex, "owner", sink)
    }
}

#[derive(Drop)]
struct ColumnVindexKinds;

impl Finder for ColumnVindexKinds {
    ghost use Rattle.vl_vschema.specs.Breaking.{column_vindex_kinds};

    ghost found = { λ _. column_vindex_kinds };

    fn find<S: PathSink>(
        &self,
        alloc: Global,
        path: &Path,
        column_vindex: &Value,
        sink: &mut S,
    ) -> Result<(), AllocError> {
        let columns = InList(EachItem(NotText));
        look_at(&NotText, alloc, path, column_vindex, "column", sink)?;
        look_at(&columns, alloc, path, column_vindex, "columns", sink)?;
        look_at(&NotText, alloc, path, column_vindex, "name", sink)
    }
}

#[derive(Drop)]
struct TableKinds;

impl Finder for TableKinds {
    ghost use Rattle.vl_vschema.specs.Breaking.{table_kinds};

    ghost found = { λ _. table_kinds };

    fn find<S: PathSink>(
        &self,
        alloc: Global,
        path: &Path,
        table: &Value,
        sink: &mut S,
    ) -> Result<(), AllocError> {
        let column_vindexes = InList(EachItem(InObject(ColumnVindexKinds)));
        look_at(
            &column_vindexes,
            alloc,
            path,
            table,
            "column_vindexes",
            sink,
        )
    }
}

/// Finds the members of an object that have the wrong kind.
#[derive(Drop)]
pub(crate) struct VschemaKinds;

impl Finder for VschemaKinds {
    ghost use Rattle.vl_vschema.specs.Breaking.{vschema_kinds};

    ghost found = { λ _. vschema_kinds };

    fn find<S: PathSink>(
        &self,
        alloc: Global,
        path: &Path,
        file: &Value,
        sink: &mut S,
    ) -> Result<(), AllocError> {
        let vindexes = InObject(EachMember(InObject(VindexKinds)));
        let tables = InObject(EachMember(InObject(TableKinds)));
        look_at(&NotBoolean, alloc, path, file, "sharded", sink)?;
        look_at(&vindexes, alloc, path, file, "vindexes", sink)?;
        look_at(&tables, alloc, path, file, "tables", sink)
    }
}
