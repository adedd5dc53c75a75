use crate::target::Target;
use vl_lookup::claim::Claim;

/// A part of an INSERT whose rows are still in its plan.
#[derive(Drop)]
pub enum Outline {
    /// An entry is claimed.
    Claim(Claim),
    /// The next row is inserted here.
    Row(Target),
}
