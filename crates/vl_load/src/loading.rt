ghost use Rattle.std.specs.Prelude.{◌≡◌, IfOk, IfErr};
ghost use Rattle.vl_load.specs.Faults.{HasLoadCause, IsUnfit};
ghost use Rattle.vl_load.specs.Files.{IsCatalogFile};
ghost use Rattle.vl_load.specs.Loading.{AreTexts, IsCatalogOf, IsFaultOf, IsLoadedBy, IsLoadedFrom, RefusesRules, RefusesTexts};

use crate::ignored::ignored;
use crate::keyspace_texts::KeyspaceTexts;
use crate::load_fault::LoadFault;
use crate::loaded::Loaded;
use crate::names::folder_of;
use crate::reading::{keyspaces_of, read_files};
use crate::refused::Refused;
use crate::rings::with_rings;
use crate::texts::{load_text, load_texts};
use std::alloc::Global;
use vl_base::Files;
use vl_catalog::{Catalog, KeyspaceParts};
use vl_rules::{CatalogFault, Check};
use vl_values::items::Items;
use vl_vschema::KeyspaceFile;

// The catalog that these parts mean, where it keeps the rules.
fn checked(alloc: Global, parts: Vec<KeyspaceParts>) -> Result<Catalog, LoadFault>
    ensures ok { IfOk result (IsCatalogOf parts.items) }
    ensures err { IfErr result (IsUnfit (RefusesRules parts.items)) }
{
    let Ok(catalog) = Catalog::build(alloc, parts) else {
        return Err(LoadFault::Memory);
    };
    match catalog.check(alloc) {
        Ok(()) => Ok(catalog),
        Err(CatalogFault::Broken { table, rule }) => {
            Err(LoadFault::Refused(Refused::Rule { table, rule }))
        }
        Err(CatalogFault::Memory) => Err(LoadFault::Memory),
    }
}

// Loads and reads the catalog file.
fn load_keyspaces<F: Files>(
    alloc: Global,
    files: &mut F,
    name: &str,
) -> Result<Items<KeyspaceFile>, LoadFault>
    ensures same { F.known files.new ≡ F.known files.old }
    ensures ok { IfOk result (IsCatalogFile (F.known files.old) name.now) }
    ensures err { IfErr result (IsFaultOf (F.known files.old) name.now) }
    ensures cause { HasLoadCause (F.failures files.old) (F.failures files.new) result }
{
    let Ok(name) = String::from_str(alloc, name) else {
        return Err(LoadFault::Memory);
    };
    let file = match load_text(files, name) {
        Ok(file) => file,
        Err(fault) => return Err(fault),
    };
    match keyspaces_of(alloc, &file) {
        Ok(keyspaces) => Ok(keyspaces),
        Err(fault) => Err(fault),
    }
}

// Loads all files.
fn load_all<F: Files>(
    alloc: Global,
    files: &mut F,
    name: &str,
) -> Result<Vec<KeyspaceTexts>, LoadFault>
    ensures same { F.known files.new ≡ F.known files.old }
    ensures ok { IfOk result (λ texts. AreTexts (F.known files.old) name.now texts.items) }
    ensures err { IfErr result (IsFaultOf (F.known files.old) name.now) }
    ensures cause { HasLoadCause (F.failures files.old) (F.failures files.new) result }
{
    let keyspaces = match load_keyspaces(alloc, files, name) {
        Ok(keyspaces) => keyspaces,
        Err(fault) => return Err(fault),
    };
    let Ok(folder) = folder_of(alloc, name) else {
        return Err(LoadFault::Memory);
    };
    match load_texts(alloc, files, folder.as_str(), keyspaces.into_vec()) {
        Ok(texts) => Ok(texts),
        Err(fault) => Err(fault),
    }
}

// What the texts of the files mean.
fn catalog_of(alloc: Global, texts: Vec<KeyspaceTexts>) -> Result<Loaded, LoadFault>
    ensures ok { IfOk result (IsLoadedBy texts.items) }
    ensures err { IfErr result (IsUnfit (RefusesTexts texts.items)) }
{
    let reads = match read_files(alloc, texts) {
        Ok(reads) => reads,
        Err(fault) => return Err(fault),
    };
    let Ok(ignored) = ignored(alloc, &reads) else {
        return Err(LoadFault::Memory);
    };
    let parts = match with_rings(alloc, reads) {
        Ok(parts) => parts,
        Err(fault) => return Err(fault),
    };
    match checked(alloc, parts) {
        Ok(catalog) => Ok(Loaded { catalog, ignored }),
        Err(fault) => Err(fault),
    }
}

/// Loads the catalog whose catalog file has this name. That file is loaded and read first; then all
/// files that it names, which stand in its folder, are loaded in its order, of each keyspace the VSchema
/// file and then the schema file; then they are read in this order; then the ranges and the ring of each
/// keyspace; then the rules are looked at. A refusal is the first fault. `Memory` may come at any point.
pub fn load<F: Files>(alloc: Global, files: &mut F, name: &str) -> Result<Loaded, LoadFault>
    ensures same { F.known files.new ≡ F.known files.old }
    // What is loaded is what the files mean, and keeps the rules.
    ensures ok { IfOk result (IsLoadedFrom (F.known files.old) name.now) }
    // A refusal is the first fault; too long is the first file that isn't loaded.
    ensures err { IfErr result (IsFaultOf (F.known files.old) name.now) }
    // `Failed` comes only where the count of faults rose.
    ensures cause { HasLoadCause (F.failures files.old) (F.failures files.new) result }
{
    let texts = match load_all(alloc, files, name) {
        Ok(texts) => texts,
        Err(fault) => return Err(fault),
    };
    match catalog_of(alloc, texts) {
        Ok(loaded) => Ok(loaded),
        Err(fault) => Err(fault),
    }
}
