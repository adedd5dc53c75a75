//! The plan of a statement: its table, its values as the table's columns take them, and by which shards
//! it goes; or the first refusal.
//!
//! `plan` is a function of the catalog and the statement. The layer above relies on it: what is planned
//! breaks no rule of the catalog, its columns exist and its values fit them; what is refused is refused
//! for the first cause in the order of refusals.
#![tactic(auto)]

mod asks;
mod columns;
mod condition;
mod counts;
pub mod delete_plan;
mod in_order;
mod insert;
pub mod insert_plan;
mod matched;
pub mod plan;
pub mod planning;
pub mod projection;
mod route;
mod select;
pub mod select_plan;
pub mod setting;
mod settings;
pub mod sort;
mod stored;
mod table;
mod target;
#[cfg(test)]
mod test_catalogs;
mod test_of;
#[cfg(test)]
mod test_texts;
#[cfg(test)]
mod tests;
mod unsupported;
mod update;
pub mod update_plan;
