ghost use Rattle.std.specs.Prelude.{IfOk, IfErr};
ghost use Rattle.std.specs.List.{AllZip};
ghost use Rattle.serde_json.specs.Data.{Data};
ghost use Rattle.vl_ddl.specs.Fault.{Defines, IsAt};
ghost use Rattle.vl_vschema.specs.Breaking.{breaks};
ghost use Rattle.vl_vschema.specs.Document.{Breaks, IsRefusal};
ghost use Rattle.vl_load.specs.Faults.{IsUnfit};
ghost use Rattle.vl_load.specs.Files.{ListsKeyspaces};
ghost use Rattle.vl_load.specs.Reading.{Means, RefusesFile, RefusesFiles, RefusesJson, RefusesSchema, SaysVschema};
ghost use Rattle.vl_vschema.specs.CatalogFile.{catalog_breaks};

use crate::file_text::FileText;
use crate::keyspace_read::KeyspaceRead;
use crate::keyspace_texts::KeyspaceTexts;
use crate::load_fault::LoadFault;
use crate::names::place_in;
use crate::refused::Refused;
use std::alloc::Global;
use vl_catalog::{KeyspaceVschema, TableDef};
use vl_ddl::{DdlFault, read_schema};
use vl_values::items::Items;
use vl_vschema::{KeyspaceFile, VschemaFault, read_catalog, read_vschema};

// Why a file in JSON is refused, of which the reader told this fault.
fn json_fault(alloc: Global, file: &FileText, fault: VschemaFault) -> LoadFault
    ensures { (rules : Data → Breaks) → IsRefusal rules file.now.text fault → IsUnfit (RefusesJson rules file.now.name file.now.text) result }
{
    match fault {
        VschemaFault::NotJson => match file.name.copy(alloc) {
            Ok(file) => LoadFault::Refused(Refused::NotJson { file }),
            Err(_) => LoadFault::Memory,
        },
        VschemaFault::Broken { path, rule } => {
            match place_in(alloc, file.name.as_slice(), path.as_slice()) {
                Ok(path) => LoadFault::Refused(Refused::Broken { path, rule }),
                Err(_) => LoadFault::Memory,
            }
        }
        VschemaFault::Memory => LoadFault::Memory,
    }
}

/// The keyspaces of a catalog file.
pub(crate) fn keyspaces_of(alloc: Global, file: &FileText) -> Result<Items<KeyspaceFile>, LoadFault>
    ensures ok { IfOk result (ListsKeyspaces file.now.text) }
    ensures err { IfErr result (IsUnfit (RefusesJson catalog_breaks file.now.name file.now.text)) }
{
    match read_catalog(alloc, file.text.as_slice()) {
        Ok(keyspaces) => Ok(keyspaces),
        Err(fault) => Err(json_fault(alloc, file, fault)),
    }
}

fn vschema_of(alloc: Global, file: &FileText) -> Result<KeyspaceVschema, LoadFault>
    ensures ok { IfOk result (SaysVschema file.now.text) }
    ensures err { IfErr result (IsUnfit (RefusesJson breaks file.now.name file.now.text)) }
{
    match read_vschema(alloc, file.text.as_slice()) {
        Ok(vschema) => Ok(vschema),
        Err(fault) => Err(json_fault(alloc, file, fault)),
    }
}

// Why a schema file is refused, of which the reader told this fault.
fn schema_fault(alloc: Global, file: &FileText, fault: DdlFault) -> LoadFault
    ensures { IsAt fault file.now.text → IsUnfit (RefusesSchema file.now) result }
{
    let Ok(name) = file.name.copy(alloc) else {
        return LoadFault::Memory;
    };
    match fault {
        DdlFault::Syntax { at } => LoadFault::Refused(Refused::Syntax { file: name, at }),
        DdlFault::Unsupported { at } => LoadFault::Refused(Refused::Unsupported { file: name, at }),
        DdlFault::Memory => LoadFault::Memory,
    }
}

fn tables_of(alloc: Global, file: &FileText) -> Result<Items<TableDef>, LoadFault>
    ensures ok { IfOk result (Defines file.now.text) }
    ensures err { IfErr result (IsUnfit (RefusesSchema file.now)) }
{
    match read_schema(alloc, file.text.as_slice()) {
        Ok(tables) => Ok(tables),
        Err(fault) => Err(schema_fault(alloc, file, fault)),
    }
}

// What the two files of a keyspace mean.
fn read_pair(alloc: Global, texts: KeyspaceTexts) -> Result<KeyspaceRead, LoadFault>
    ensures ok { IfOk result (Means texts) }
    ensures err { IfErr result (IsUnfit (RefusesFile texts)) }
{
    let KeyspaceTexts {
        keyspace,
        vschema: vschema_text,
        schema: schema_text,
    } = texts;
    let vschema = match vschema_of(alloc, &vschema_text) {
        Ok(vschema) => vschema,
        Err(fault) => return Err(fault),
    };
    match tables_of(alloc, &schema_text) {
        Ok(tables) => Ok(KeyspaceRead {
            keyspace,
            vschema_file: vschema_text.name,
            vschema,
            schema_file: schema_text.name,
            tables,
        }),
        Err(fault) => Err(fault),
    }
}

/// What the files of the keyspaces mean, of each its VSchema file and then its schema file.
pub(crate) fn read_files(
    alloc: Global,
    texts: Vec<KeyspaceTexts>,
) -> Result<Vec<KeyspaceRead>, LoadFault>
    ensures ok { IfOk result (λ reads. AllZip Means texts.items reads.items) }
    ensures err { IfErr result (IsUnfit (RefusesFiles texts.items)) }
{
    let mut reads = Vec::new(alloc);
    for pair in texts {
        match read_pair(alloc, pair) {
            Ok(read) => reads.push(read)?,
            Err(fault) => return Err(fault),
        }
    }
    Ok(reads)
}
