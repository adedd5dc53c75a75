ghost use Rattle.std.specs.Prelude.{◌≡◌, ◌↔◌, ◌++◌, ◌∷◌, ℕ, [], List, IsTrue, OnOk, OnErr, Contains, length};

use std::alloc::{AllocError, Global};
use std::marker::Model;
use vl_values::ShardNo;

/// Shards in the order in which they were added.
#[derive(Debug, Drop)]
pub struct ShardList {
    shards: Vec<ShardNo>,
}

impl Model for ShardList {
    ghost use Rattle.std.specs.Prelude.{ℕ, List, length, ◌<◌, ◌^◌};

    ghost Value = { List ℕ };

    ghost view = { λ s. s.shards.items };

    ghost invariant = { λ s. length s.shards.items < 2 ^ 32 };
}

impl ShardList {
    /// No shard. It takes no memory.
    pub fn new(alloc: Global) -> ShardList
        ensures { result ≡ [] }
    {
        ShardList {
            shards: Vec::new(alloc),
        }
    }

    /// How many there are.
    pub fn len(&self) -> u32
        ensures { result ≡ length self.now }
    {
        self.shards.len() as u32
    }

    /// Whether no shard is listed.
    pub fn is_empty(&self) -> bool
        ensures { IsTrue result ↔ (self.now ≡ []) }
    {
        self.shards.is_empty()
    }

    /// The shards, ascending.
    pub fn as_slice(&self) -> &[ShardNo]
        ensures { result.now ≡ self.now }
    {
        self.shards.as_slice()
    }

    /// Whether this shard is listed.
    pub fn contains(&self, shard: ShardNo) -> bool
        ensures { IsTrue result ↔ Contains self.now shard }
    {
        self.shards.contains(&shard)
    }

    /// Adds a shard behind the others. It is refused where there is no memory, and where the list has as
    /// many shards as a `u32` counts.
    pub fn push(&mut self, shard: ShardNo) -> Result<(), AllocError>
        ensures ok { OnOk result (self.new ≡ self.old ++ shard ∷ []) }
        ensures err { OnErr result (self.new ≡ self.old) }
    {
        if self.len() == u32::MAX {
            return Err(AllocError);
        }
        self.shards.push(shard)?;
        Ok(())
    }

    /// Takes the last shard away, where there is one. It takes no memory.
    pub fn pop(&mut self)
        ensures { (front : List ℕ) (shard : ℕ) → self.old ≡ front ++ shard ∷ [] → self.new ≡ front }
    {
        let _ = self.shards.pop();
    }
}
