//! Claims: the entries of owned lookups, taken for rows that are to be written.
//!
//! A row that is to be written needs an entry in each lookup that indexes it. A `Claim` obtains one: it
//! inserts the entry in pre; where one stands there already, it asks in main whether an owner's row still has
//! it, and if none does, the entry is kept or redirected. Each `step` does the one action that is due, on one
//! shard, and tells whether another is due, whether the claim is done, or what stands in its way. The layer
//! above relies on `ClaimStepped`: which action was done, what its answer means, and what became of the
//! transaction's list of claimed keys. It stands on the port alone and knows no shard.
#![tactic(auto)]

mod asking;
pub mod claim;
pub mod claim_told;
mod claims;
mod entry;
pub mod stage;
