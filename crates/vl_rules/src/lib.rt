//! The rules C1 to C14 that a catalog keeps, and the first that it breaks.
//!
//! A catalog that was built from its files may break any of them; the layers above are called with one
//! that keeps them all. `catalog.check(alloc)` answers `Ok` exactly for such a catalog, and else names
//! the first broken rule of the first table in order, as `first_broken` of `specs/Order.antt` says. What
//! each rule says stands in `specs/Tables.antt`, `specs/Lookups.antt` and `specs/Limits.antt`, a
//! definition for each. `specs/Kept.antt` says what a lookup and a table of a checked catalog have, which
//! `lookup_kept` and `table_kept` of `proofs/` conclude.
#![tactic(auto)]

mod catalog_fault;
mod catalog_rule;
mod check;
mod column_vindexes;
mod from_columns;
mod limits;
mod lookup_rule;
mod lookup_rules;
mod numbers;
mod order;
mod table_rules;
#[cfg(test)]
mod test_catalogs;
#[cfg(test)]
mod test_changes;
#[cfg(test)]
mod tests;

pub use crate::catalog_fault::CatalogFault;
pub use crate::catalog_rule::CatalogRule;
pub use crate::check::Check;
