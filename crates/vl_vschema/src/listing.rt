ghost use Rattle.std.specs.Prelude.{◌≡◌, [], OnOk, IfOk};
ghost use Rattle.vl_vschema.specs.Sink.{IsListing};

use crate::path::Path;
use crate::path_sink::PathSink;
use std::alloc::{AllocError, Global};
use std::marker::Model;
use vl_values::bytes::Bytes;
use vl_values::items::Items;

/// All of the paths so far, in the order in which they came.
#[derive(Drop)]
pub(crate) struct Listing {
    paths: Vec<Path>,
}

impl Model for Listing {
    ghost use Rattle.std.specs.Prelude.{ℕ, List};

    ghost Value = { List (List ℕ) };

    ghost view = { λ l. l.paths.items };
}

// Each path once, in their order.
fn in_order(mut paths: Vec<Path>) -> Vec<Path>
    ensures { IsListing paths.items result.items }
{
    paths.sort_unstable();
    paths.dedup();
    paths
}

fn as_bytes(alloc: Global, paths: Vec<Path>) -> Result<Vec<Bytes>, AllocError>
    ensures { IfOk result (λ bytes. bytes.items ≡ paths.items) }
{
    let mut bytes = Vec::with_capacity(alloc, paths.len())?;
    for path in paths {
        bytes.push(path.into_bytes())?;
    }
    Ok(bytes)
}

fn as_paths(alloc: Global, bytes: Vec<Bytes>) -> Result<Vec<Path>, AllocError>
    ensures { IfOk result (λ paths. paths.items ≡ bytes.items) }
{
    let mut paths = Vec::with_capacity(alloc, bytes.len())?;
    for path in bytes {
        paths.push(Path::from_bytes(path))?;
    }
    Ok(paths)
}

/// Each of the paths once, by their bytes.
pub fn listing_of(alloc: Global, paths: Vec<Bytes>) -> Result<Items<Bytes>, AllocError>
    ensures { IfOk result (IsListing paths.items) }
{
    let bytes = as_bytes(alloc, in_order(as_paths(alloc, paths)?))?;
    Ok(Items::from_vec(bytes))
}

impl Listing {
    pub(crate) fn new(alloc: Global) -> Listing
        ensures { result ≡ [] }
    {
        Listing {
            paths: Vec::new(alloc),
        }
    }

    /// Each of the paths once, by their bytes.
    pub(crate) fn into_items(self, alloc: Global) -> Result<Items<Bytes>, AllocError>
        ensures { IfOk result (IsListing self) }
    {
        let Listing { paths } = self;
        let bytes = as_bytes(alloc, in_order(paths))?;
        Ok(Items::from_vec(bytes))
    }
}

impl PathSink for Listing {
    ghost use Rattle.vl_vschema.specs.Sink.{listed};

    ghost with = { listed };

    fn note(&mut self, alloc: Global, path: &Path) -> Result<(), AllocError> {
        self.paths.push(path.copy(alloc)?)?;
        Ok(())
    }
}
