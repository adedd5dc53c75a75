//! The schema file of a keyspace: a list of CREATE TABLE statements, and the tables that they define.
//!
//! `read_schema` answers the tables that a file defines, in order, or the place of the first token
//! with which no schema file goes on. It tells a fault of syntax from what a wider language has at
//! that place: another type, another default, UNIQUE or FOREIGN. The layer above relies on the
//! grammar, on what a statement means, and on the list of what each table ignores.
#![tactic(auto)]

mod column_options;
mod column_part;
mod columns;
mod create;
mod declared_type;
mod default_value;
mod law;
mod meaning;
mod number_type;
mod opening;
mod options;
mod part;
mod parts;
mod schema;
mod statement;
mod step;
#[cfg(test)]
mod tests;
mod text_type;
mod told;
mod trailer;
mod types;

pub use law::one_meaning;
pub use schema::{DdlFault, read_schema};
