//! The catalog: keyspaces with their rings, tables, and the lookups between them.
//!
//! `Catalog::build` turns what the catalog's files say into numbers: tables and lookups know one
//! another by their places in the catalog, and a name that stands for nothing has no number. The layer
//! above relies on that, on `place`, which says on which shard a row stands, and on `after`, which says
//! what the parts of a journal leave of a key. `Catalog::a` is the built-in catalog.
#![tactic(auto)]

mod bare_table;
mod build;
mod catalog;
mod catalog_a;
mod change;
mod column;
mod column_vindex;
mod columns;
mod copies;
mod keyspace;
mod keyspace_parts;
mod keyspace_vschema;
mod ksid;
mod lookup;
mod lookup_def;
mod lookup_id;
mod lookup_ids;
mod lookups;
mod part;
mod place;
mod primary;
mod table;
mod table_def;
mod table_vschema;
#[cfg(test)]
mod tests;
mod vindex;
mod vindex_def;

pub use crate::catalog::Catalog;
pub use crate::change::Change;
pub use crate::column::Column;
pub use crate::column_vindex::ColumnVindex;
pub use crate::keyspace::Keyspace;
pub use crate::keyspace_parts::KeyspaceParts;
pub use crate::keyspace_vschema::KeyspaceVschema;
pub use crate::ksid::Ksid;
pub use crate::lookup::Lookup;
pub use crate::lookup_def::LookupDef;
pub use crate::lookup_id::LookupId;
pub use crate::part::Part;
pub use crate::primary::Primary;
pub use crate::table::Table;
pub use crate::table_def::TableDef;
pub use crate::table_vschema::TableVschema;
pub use crate::vindex::Vindex;
pub use crate::vindex_def::{VindexDef, VindexKind};
pub use vl_values::{ColumnNo, ShardNo, TableNo};

/// A lookup's number in its catalog, counted from 0.
pub type LookupNo = u32;
