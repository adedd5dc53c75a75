use crate::insertion::Insertion;
use vl_lookup::claim::Claim;

/// A part of an INSERT.
#[derive(Drop)]
pub enum Task {
    /// An entry is claimed for a row that comes behind it.
    Claim(Claim),
    /// A row is inserted.
    Row(Insertion),
}
