ghost use Rattle.std.specs.Prelude.{◌≡◌, ◌++◌, IfOk, OnOk};
ghost use Rattle.std.specs.List.{flat_map};
ghost use Rattle.vl_catalog.specs.declared.table_def.TableDef.{TableDef as ATable};
ghost use Rattle.vl_vschema.specs.Sink.{IsListing};
ghost use Rattle.vl_load.specs.Ignored.{all_ignored, ignored_of, paths_in};

use crate::keyspace_read::KeyspaceRead;
use crate::names::path_in;
use std::alloc::{AllocError, Global};
use vl_catalog::TableDef;
use vl_values::bytes::Bytes;
use vl_values::items::Items;
use vl_vschema::listing_of;

// Adds the paths of a file.
fn add_paths(
    alloc: Global,
    all: &mut Vec<Bytes>,
    file: &Bytes,
    paths: &[Bytes],
) -> Result<(), AllocError>
    ensures { OnOk result (all.new.items ≡ all.old.items ++ paths_in file.now paths.now) }
{
    for path in paths {
        all.push(path_in(alloc, file.as_slice(), path.as_slice())?)?;
    }
    Ok(())
}

// Adds the paths of a schema file.
fn add_tables(
    alloc: Global,
    all: &mut Vec<Bytes>,
    file: &Bytes,
    tables: &[TableDef],
) -> Result<(), AllocError>
    ensures { OnOk result (all.new.items ≡ all.old.items ++ flat_map (λ (table : ATable). paths_in file.now table.ignored) tables.now) }
{
    for table in tables {
        add_paths(alloc, all, file, table.ignored.as_slice())?;
    }
    Ok(())
}

fn add_ignored(alloc: Global, all: &mut Vec<Bytes>, read: &KeyspaceRead) -> Result<(), AllocError>
    ensures { OnOk result (all.new.items ≡ all.old.items ++ ignored_of read.now) }
{
    add_paths(
        alloc,
        all,
        &read.vschema_file,
        read.vschema.ignored.as_slice(),
    )?;
    add_tables(alloc, all, &read.schema_file, read.tables.as_slice())
}

fn all_ignored(alloc: Global, reads: &[KeyspaceRead]) -> Result<Vec<Bytes>, AllocError>
    ensures { IfOk result (λ all. all.items ≡ all_ignored reads.now) }
{
    let mut all = Vec::new(alloc);
    for read in reads {
        add_ignored(alloc, &mut all, read)?;
    }
    Ok(all)
}

/// What is ignored in the files of the keyspaces: each path once, by bytes.
pub(crate) fn ignored(alloc: Global, reads: &[KeyspaceRead]) -> Result<Items<Bytes>, AllocError>
    ensures { IfOk result (IsListing (all_ignored reads.now)) }
{
    let all = all_ignored(alloc, reads)?;
    listing_of(alloc, all)
}
