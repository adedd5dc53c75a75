ghost use Rattle.std.specs.Prelude.{◌≡◌};
ghost use Rattle.vl_record.specs.Picking.{epoch_at, picked};
ghost use Rattle.vl_record.specs.Readers.{Gives};

use crate::file::{header_at, is_open};
use crate::file_side::FileSide;
use crate::read_error::ReadError;
use crate::reader::Reader;
use vl_catalog::ShardNo;

/// The epoch in the header of a file whose gate is open, or none where the gate is closed. The first 29 bytes of a file are
/// enough.
#[tactic(auto, unfolding(crate::specs::Picking::epoch_at))]
pub fn epoch_of(shard: ShardNo, file: &[u8]) -> Result<Option<u64>, ReadError>
    ensures { Gives (λ epoch. epoch) result (epoch_at shard file.now) }
{
    if !is_open(file) {
        return Ok(None);
    }
    let reader = Reader {
        bytes: &file[1..],
        offset: 1,
        is_body: false,
    };
    let ((epoch, _), _) = header_at(shard, reader)?;
    Ok(Some(epoch))
}

/// The side in use, by the epoch of each: the greater one, side a where they are equal or neither has one.
pub fn pick(a: Option<u64>, b: Option<u64>) -> FileSide
    ensures { result ≡ picked a b }
{
    match (a, b) {
        (None, Some(_)) => FileSide::B,
        (Some(a), Some(b)) if a < b => FileSide::B,
        _ => FileSide::A,
    }
}
