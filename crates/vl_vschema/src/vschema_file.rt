ghost use Rattle.std.specs.Prelude.{◌≡◌, [], IfOk, IfErr};
ghost use Rattle.serde_json.specs.Data.{Data};
ghost use Rattle.serde_json.specs.View.{view};
ghost use Rattle.vl_vschema.specs.Breaking.{breaks};
ghost use Rattle.vl_vschema.specs.Document.{IsJson, IsRefusal, IsSound};
ghost use Rattle.vl_vschema.specs.Ignored.{ignored as ignored_paths};
ghost use Rattle.vl_vschema.specs.Sink.{IsListing};
ghost use Rattle.vl_vschema.specs.Vschema.{is_sharded as is_sharded_file, IsVschema};

use crate::breaks::first_broken;
use crate::finder::Finder;
use crate::ignored::Ignored;
use crate::json::parse;
use crate::listing::Listing;
use crate::path::Path;
use crate::table_vschema::tables;
use crate::vindex_def::vindexes;
use crate::vschema_fault::VschemaFault;
use serde_json::Value;
use std::alloc::{AllocError, Global};
use vl_catalog::KeyspaceVschema;
use vl_values::bytes::Bytes;
use vl_values::items::Items;

fn is_sharded(file: &Value) -> bool
    ensures { result ≡ is_sharded_file (view file.now) }
{
    match file.get("sharded") {
        Some(sharded) => sharded.as_bool().unwrap_or(false),
        None => false,
    }
}

// Each ignored path once, by their bytes.
fn ignored(alloc: Global, file: &Value) -> Result<Items<Bytes>, AllocError>
    ensures { IfOk result (IsListing (ignored_paths [] (view file.now))) }
{
    let mut listing = Listing::new(alloc);
    Ignored.find(alloc, &Path::root(alloc), file, &mut listing)?;
    listing.into_items(alloc)
}

// What a file means, of which the rules are to be looked at elsewhere.
fn meaning(alloc: Global, file: &Value) -> Result<KeyspaceVschema, AllocError>
    ensures { IfOk result (IsVschema (view file.now)) }
{
    let vindexes = vindexes(alloc, file)?;
    let tables = tables(alloc, file)?;
    let ignored = ignored(alloc, file)?;
    Ok(KeyspaceVschema {
        sharded: is_sharded(file),
        vindexes: Items::from_vec(vindexes),
        tables: Items::from_vec(tables),
        ignored,
    })
}

/// Reads a VSchema file. `Broken` names the least rule that is broken, and of it the least path;
/// `Memory` may come at any file.
pub fn read_vschema(alloc: Global, bytes: &[u8]) -> Result<KeyspaceVschema, VschemaFault>
    ensures ok { IfOk result (λ vschema. (d : Data) × IsJson bytes.now d × IsSound (breaks d)
        × IsVschema d vschema) }
    ensures err { IfErr result (IsRefusal breaks bytes.now) }
{
    let file = match parse(alloc, bytes) {
        Ok(file) => file,
        Err(fault) => return Err(fault),
    };
    match first_broken(alloc, &file) {
        Ok(None) => {}
        Ok(Some((rule, path))) => {
            return Err(VschemaFault::Broken {
                path: path.into_bytes(),
                rule,
            });
        }
        Err(_) => return Err(VschemaFault::Memory),
    }
    match meaning(alloc, &file) {
        Ok(vschema) => Ok(vschema),
        Err(_) => Err(VschemaFault::Memory),
    }
}
