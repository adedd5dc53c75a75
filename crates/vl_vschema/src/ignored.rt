// What a VSchema file has besides. It is read, ignored and listed; what is ignored isn't looked into.

use crate::finder::Finder;
use crate::member::is_lookup;
use crate::others::Others;
use crate::path::Path;
use crate::path_sink::PathSink;
use crate::walk::{EachItem, EachMember, Here, look_at};
use serde_json::Value;
use std::alloc::{AllocError, Global};

const FILE_NAMES: [&str; 3] = ["sharded", "vindexes", "tables"];

const VINDEX_NAMES: [&str; 3] = ["type", "params", "owner"];

const PARAM_NAMES: [&str; 5] = ["table", "from", "to", "ignore_nulls", "write_only"];

const TABLE_NAMES: [&str; 3] = ["column_vindexes", "type", "pinned"];

const COLUMN_VINDEX_NAMES: [&str; 3] = ["column", "columns", "name"];

// The params that the vindex doesn't use, and its owner, where it is no lookup.
#[derive(Drop)]
struct IgnoredParams;

impl Finder for IgnoredParams {
    ghost use Rattle.vl_vschema.specs.Ignored.{ignored_params};

    ghost found = { λ _. ignored_params };

    fn find<S: PathSink>(
        &self,
        alloc: Global,
        path: &Path,
        vindex: &Value,
        sink: &mut S,
    ) -> Result<(), AllocError> {
        if is_lookup(vindex) {
            let params = Others {
                names: &PARAM_NAMES,
            };
            return look_at(&params, alloc, path, vindex, "params", sink);
        }
        let params = Others { names: &[] };
        look_at(&Here, alloc, path, vindex, "owner", sink)?;
        look_at(&params, alloc, path, vindex, "params", sink)
    }
}

#[derive(Drop)]
struct IgnoredOfVindex;

impl Finder for IgnoredOfVindex {
    ghost use Rattle.vl_vschema.specs.Ignored.{ignored_of_vindex};

    ghost found = { λ _. ignored_of_vindex };

    fn find<S: PathSink>(
        &self,
        alloc: Global,
        path: &Path,
        vindex: &Value,
        sink: &mut S,
    ) -> Result<(), AllocError> {
        let others = Others {
            names: &VINDEX_NAMES,
        };
        others.find(alloc, path, vindex, sink)?;
        IgnoredParams.find(alloc, path, vindex, sink)
    }
}

#[derive(Drop)]
struct IgnoredOfTable;

impl Finder for IgnoredOfTable {
    ghost use Rattle.vl_vschema.specs.Ignored.{ignored_of_table};

    ghost found = { λ _. ignored_of_table };

    fn find<S: PathSink>(
        &self,
        alloc: Global,
        path: &Path,
        table: &Value,
        sink: &mut S,
    ) -> Result<(), AllocError> {
        let others = Others {
            names: &TABLE_NAMES,
        };
        let column_vindexes = EachItem(Others {
            names: &COLUMN_VINDEX_NAMES,
        });
        others.find(alloc, path, table, sink)?;
        look_at(
            &column_vindexes,
            alloc,
            path,
            table,
            "column_vindexes",
            sink,
        )
    }
}

/// Finds what a VSchema file has besides.
#[derive(Drop)]
pub(crate) struct Ignored;

impl Finder for Ignored {
    ghost use Rattle.vl_vschema.specs.Ignored.{ignored};

    ghost found = { λ _. ignored };

    fn find<S: PathSink>(
        &self,
        alloc: Global,
        path: &Path,
        file: &Value,
        sink: &mut S,
    ) -> Result<(), AllocError> {
        let others = Others { names: &FILE_NAMES };
        others.find(alloc, path, file, sink)?;
        look_at(
            &EachMember(IgnoredOfVindex),
            alloc,
            path,
            file,
            "vindexes",
            sink,
        )?;
        look_at(
            &EachMember(IgnoredOfTable),
            alloc,
            path,
            file,
            "tables",
            sink,
        )
    }
}
