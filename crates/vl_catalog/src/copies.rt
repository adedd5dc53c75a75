ghost use Rattle.std.specs.Prelude.{◌≡◌, IfOk};

use std::alloc::{AllocError, Global};
use vl_values::bytes::Bytes;
use vl_values::items::Items;
use vl_vindex::Ring;

/// The same numbers: columns, or lookups.
pub fn numbers_of<T: Copy>(alloc: Global, numbers: &[T]) -> Result<Items<T>, AllocError>
    ensures { IfOk result (λ copy. copy ≡ numbers.now) }
{
    let copy = Vec::from_slice(alloc, numbers)?;
    Ok(Items::from_vec(copy))
}

/// The same name, where there is one.
pub fn name_of(alloc: Global, name: &Option<Bytes>) -> Result<Option<Bytes>, AllocError>
    ensures { IfOk result (λ copy. copy ≡ name.now) }
{
    match name {
        None => Ok(None),
        Some(name) => match name.copy(alloc) {
            Ok(name) => Ok(Some(name)),
            Err(error) => Err(error),
        },
    }
}

/// The same rings.
pub fn rings_of(alloc: Global, rings: &[Ring]) -> Result<Items<Ring>, AllocError>
    ensures { IfOk result (λ copy. copy ≡ rings.now) }
{
    let mut copy = Vec::with_capacity(alloc, rings.len())?;
    for ring in rings {
        copy.push(ring.copy(alloc)?)?;
    }
    Ok(Items::from_vec(copy))
}
