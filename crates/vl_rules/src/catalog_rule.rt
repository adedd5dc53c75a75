/// A rule that a catalog keeps. A refusal prints it as `C` and its number.
#[derive(Clone, Copy, Debug, PartialEq, Eq)]
pub enum CatalogRule {
    /// C1: no two tables have one name, in one keyspace or in several. Printed as `C1`.
    UniqueTableName,
    /// C2: a table has a primary key, and stands in the VSchema and in the schema; one of a keyspace that
    /// isn't sharded need not be in the VSchema. Printed as `C2`.
    DefinedTable,
    /// C3: a sharded table's column vindexes are one that is no lookup, and then lookups; a table of a
    /// keyspace that isn't sharded has none, and stands on one shard. Printed as `C3`.
    PrimaryVindexFirst,
    /// C4: the column of the primary vindex is in the primary key. Printed as `C4`.
    PrimaryVindexInKey,
    /// C5: `numeric` stands on a column of BIGINT or INT, signed or not. Printed as `C5`.
    NumericOnNumber,
    /// C6: a lookup's table has its columns, of which the `from` columns are the primary key, `to` is wide
    /// enough, and any other may be NULL. Printed as `C6`.
    LookupTable,
    /// C7: the `from` columns are the owner's column and, unless the lookup is unique, the rest of the
    /// owner's primary key, with their types. Printed as `C7`.
    FromColumns,
    /// C8: the owner of a lookup is the one table that lists it. Printed as `C8`.
    OwnerListsLookup,
    /// C9: a sharded lookup table is placed by its first `from` column alone, and no lookup table owns a
    /// lookup. Printed as `C9`.
    LookupTablePlacement,
    /// C10: no lookup is `write_only`. Printed as `C10`.
    NotWriteOnly,
    /// C11: no limit is passed. Printed as `C11`.
    WithinLimits,
    /// C12: a column vindex has exactly one column. Printed as `C12`.
    OneColumnVindex,
    /// C13: a table serves at most one lookup, and no table lists one twice. Printed as `C13`.
    OneLookupTable,
    /// C14: the owner of a lookup exists, with the column of its primary vindex. Printed as `C14`.
    OwnerPlacement,
}

impl CatalogRule {
    ghost use Rattle.std.specs.Prelude.{◌≡◌};
    ghost use Rattle.vl_rules.specs.RuleNumber.{number_of};

    /// The number by which it is printed: 7 of C7.
    pub fn number(&self) -> u8
        ensures { result ≡ number_of self.now }
    {
        match self {
            CatalogRule::UniqueTableName => 1,
            CatalogRule::DefinedTable => 2,
            CatalogRule::PrimaryVindexFirst => 3,
            CatalogRule::PrimaryVindexInKey => 4,
            CatalogRule::NumericOnNumber => 5,
            CatalogRule::LookupTable => 6,
            CatalogRule::FromColumns => 7,
            CatalogRule::OwnerListsLookup => 8,
            CatalogRule::LookupTablePlacement => 9,
            CatalogRule::NotWriteOnly => 10,
            CatalogRule::WithinLimits => 11,
            CatalogRule::OneColumnVindex => 12,
            CatalogRule::OneLookupTable => 13,
            CatalogRule::OwnerPlacement => 14,
        }
    }
}
