use crate::catalog_rule::CatalogRule;
use vl_values::bytes::Bytes;

/// Why a catalog is refused.
#[derive(Debug, Drop)]
pub enum CatalogFault {
    /// The table of this name breaks the rule. The name is empty where a limit of the whole catalog is
    /// passed. Where no table lists a lookup, it is the name of the lookup's
    /// owner, as written.
    Broken { table: Bytes, rule: CatalogRule },
    /// The catalog breaks a rule, and there is no memory for the table's name.
    Memory,
}
