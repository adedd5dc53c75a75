use vl_catalog::LookupNo;
use vl_values::row::Row;

/// By which shards a statement goes to the rows that its tests match. The values are those of a test:
/// fitted to the column, without NULL, each once and in ascending order. Without values no shard is
/// visited.
#[derive(Debug, Drop)]
pub enum Route {
    /// The shards that the primary vindex gives these values of its column.
    Primary(Row),
    /// The shards of this lookup's entries for these values, then those of the keyspace ids found there.
    Lookup(LookupNo, Row),
    /// Each shard of the table's keyspace.
    All,
}
