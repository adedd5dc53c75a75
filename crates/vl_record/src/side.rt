ghost use Rattle.std.specs.Prelude.{◌≡◌, ◌++◌, ◌∷◌, [], IfOk};
ghost use Rattle.vl_record.specs.Spelling.{header_bytes};

use crate::writing::{put_u8, put_u32, put_u64};
use std::alloc::{AllocError, Global};
use vl_catalog::ShardNo;

/// What stands behind the file gate of a side that was never checkpointed: a header with epoch 1, no transaction and no
/// rows, and a closed gate.
pub fn new_side(alloc: Global, shard: ShardNo) -> Result<Vec<u8>, AllocError>
    ensures { IfOk result (λ bytes. bytes.items ≡ header_bytes shard 1 0 [] ++ 0 ∷ []) }
{
    let mut bytes = Vec::with_capacity(alloc, 37)?;
    bytes.extend_from_slice(b"VLSHARD1")?;
    put_u32(&mut bytes, shard)?;
    put_u64(&mut bytes, 1)?;
    put_u64(&mut bytes, 0)?;
    put_u64(&mut bytes, 0)?;
    put_u8(&mut bytes, 0)?;
    Ok(bytes)
}
