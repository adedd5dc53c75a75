ghost use Rattle.std.specs.Prelude.{◌≡◌, ◌++◌, IfOk};
ghost use Rattle.std.specs.String.{string_bytes};
ghost use Rattle.vl_load.specs.Names.{folder_of, path_in, place_in};

use crate::text::joined;
use std::alloc::{AllocError, Global};
use vl_values::bytes::Bytes;

/// A file's folder: its name up to and with the last `/`.
pub(crate) fn folder_of(alloc: Global, name: &str) -> Result<String, AllocError>
    ensures { IfOk result (λ folder. string_bytes folder ≡ folder_of name.now) }
{
    let Some((before, _)) = name.rsplit_once('/') else {
        return Ok(String::new(alloc));
    };
    let mut folder = String::from_str(alloc, before)?;
    folder.push('/')?;
    Ok(folder)
}

/// The name by which a file in this folder is loaded.
pub(crate) fn name_in(alloc: Global, folder: &str, file: &str) -> Result<String, AllocError>
    ensures { IfOk result (λ name. string_bytes name ≡ folder.now ++ file.now) }
{
    let mut name = String::from_str(alloc, folder)?;
    name.push_str(file)?;
    Ok(name)
}

/// What has this path in a file.
pub(crate) fn path_in(alloc: Global, file: &[u8], path: &[u8]) -> Result<Bytes, AllocError>
    ensures { IfOk result (λ whole. whole ≡ path_in file.now path.now) }
{
    let whole = joined(alloc, &[file, b"/", path])?;
    Ok(Bytes::from_vec(whole))
}

/// The same, where the empty path is that of the file's object.
pub(crate) fn place_in(alloc: Global, file: &[u8], path: &[u8]) -> Result<Bytes, AllocError>
    ensures { IfOk result (λ whole. whole ≡ place_in file.now path.now) }
{
    if path.is_empty() {
        return Bytes::from_slice(alloc, file);
    }
    path_in(alloc, file, path)
}
