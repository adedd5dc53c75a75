ghost use Rattle.std.specs.Prelude.{◌≡◌, ◌++◌, IfOk, IfErr};
ghost use Rattle.std.specs.List.{AllZip};
ghost use Rattle.std.specs.String.{string_bytes};
ghost use Rattle.vl_load.specs.Faults.{HasLoadCause, IsUnloaded};
ghost use Rattle.vl_load.specs.Files.{HasTexts, IsLong, IsLongIn, IsLongOf, IsTextOf};

use crate::file_text::FileText;
use crate::keyspace_texts::KeyspaceTexts;
use crate::load_fault::LoadFault;
use crate::names::name_in;
use std::alloc::Global;
use vl_base::{FileFault, Files};
use vl_values::bytes::Bytes;
use vl_vschema::KeyspaceFile;

/// Loads a file.
pub(crate) fn load_text<F: Files>(files: &mut F, name: String) -> Result<FileText, LoadFault>
    ensures same { F.known files.new ≡ F.known files.old }
    ensures ok { IfOk result (IsTextOf (F.known files.old) (string_bytes name)) }
    ensures err { IfErr result (IsUnloaded (IsLong (F.known files.old) (string_bytes name))) }
    ensures cause { HasLoadCause (F.failures files.old) (F.failures files.new) result }
{
    match files.load(name.as_str()) {
        Ok(text) => Ok(FileText {
            name: Bytes::from_vec(name.into_bytes()),
            text: Bytes::from_vec(text),
        }),
        Err(FileFault::Failed) => Err(LoadFault::Failed),
        Err(FileFault::TooLong) => Err(LoadFault::TooLong {
            file: Bytes::from_vec(name.into_bytes()),
        }),
        Err(FileFault::Memory) => Err(LoadFault::Memory),
    }
}

// Loads a file that stands in this folder.
fn load_in<F: Files>(
    alloc: Global,
    files: &mut F,
    folder: &str,
    file: &str,
) -> Result<FileText, LoadFault>
    ensures same { F.known files.new ≡ F.known files.old }
    ensures ok { IfOk result (IsTextOf (F.known files.old) (folder.now ++ file.now)) }
    ensures err { IfErr result (IsUnloaded (IsLong (F.known files.old) (folder.now ++ file.now))) }
    ensures cause { HasLoadCause (F.failures files.old) (F.failures files.new) result }
{
    match name_in(alloc, folder, file) {
        Ok(name) => load_text(files, name),
        Err(_) => Err(LoadFault::Memory),
    }
}

// Loads the two files of a keyspace.
fn load_pair<F: Files>(
    alloc: Global,
    files: &mut F,
    folder: &str,
    keyspace: KeyspaceFile,
) -> Result<KeyspaceTexts, LoadFault>
    ensures same { F.known files.new ≡ F.known files.old }
    ensures ok { IfOk result (HasTexts (F.known files.old) folder.now keyspace) }
    ensures err { IfErr result (IsUnloaded (IsLongOf (F.known files.old) folder.now keyspace)) }
    ensures cause { HasLoadCause (F.failures files.old) (F.failures files.new) result }
{
    let vschema = match load_in(alloc, files, folder, keyspace.vschema.as_str()) {
        Ok(vschema) => vschema,
        Err(fault) => return Err(fault),
    };
    match load_in(alloc, files, folder, keyspace.schema.as_str()) {
        Ok(schema) => Ok(KeyspaceTexts {
            keyspace,
            vschema,
            schema,
        }),
        Err(fault) => Err(fault),
    }
}

/// Loads the files of the keyspaces, of each its VSchema file and then its schema file.
pub(crate) fn load_texts<F: Files>(
    alloc: Global,
    files: &mut F,
    folder: &str,
    keyspaces: Vec<KeyspaceFile>,
) -> Result<Vec<KeyspaceTexts>, LoadFault>
    ensures same { F.known files.new ≡ F.known files.old }
    ensures ok { IfOk result (λ texts. AllZip (HasTexts (F.known files.old) folder.now) keyspaces.items texts.items) }
    ensures err { IfErr result (IsUnloaded (IsLongIn (F.known files.old) folder.now keyspaces.items)) }
    ensures cause { HasLoadCause (F.failures files.old) (F.failures files.new) result }
{
    let mut texts = Vec::new(alloc);
    for keyspace in keyspaces {
        match load_pair(alloc, files, folder, keyspace) {
            Ok(pair) => texts.push(pair)?,
            Err(fault) => return Err(fault),
        }
    }
    Ok(texts)
}
