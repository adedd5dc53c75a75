ghost use Rattle.std.specs.Prelude.{◌≡◌, ◌≤◌, length};

use arrayvec::ArrayVec;
use std::marker::Model;

/// The printed name of a shard, as `commerce/-80`: at most 130 bytes in a fixed array, so that a
/// reply that names a shard takes no memory.
#[derive(Drop)]
pub struct ShardName {
    bytes: ArrayVec<u8, 130>,
}

impl Model for ShardName {
    ghost use Rattle.std.specs.Prelude.{ℕ, List};

    ghost Value = { List ℕ };

    ghost view = { λ n. n.bytes.items };
}

impl ShardName {
    /// A name of at most 130 bytes.
    pub fn new(name: &[u8]) -> ShardName
        requires { length name.now ≤ 130 }
        ensures { result ≡ name.now }
    {
        let mut bytes = ArrayVec::new();
        let _ = bytes.try_extend_from_slice(name);
        ShardName { bytes }
    }

    /// The bytes of the name.
    pub fn as_slice(&self) -> &[u8]
        ensures { result.now ≡ self.now }
    {
        self.bytes.as_slice()
    }
}
