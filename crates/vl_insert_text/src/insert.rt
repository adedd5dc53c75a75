ghost use Rattle.std.specs.Prelude.{◌≡◌, IfOk, Some};
ghost use Rattle.vl_model.specs.Taken.{insert_of};

use std::alloc::{AllocError, Global};
use vl_sql::sequence::Sequence;
use vl_sql::stmt::Stmt;
use vl_sql::table::TableName;
use vl_values::bytes::Bytes;
use vl_values::row::Row;
use vl_values::value::Value;

/// The INSERT of one row of these values into t1.
pub fn insert_into_t1(alloc: Global, id: u64, u: u64) -> Result<Stmt, AllocError>
    ensures { IfOk result (λ stmt. insert_of stmt ≡ Some (id, u)) }
{
    let table = TableName {
        keyspace: None,
        name: Bytes::from_slice(alloc, b"t1")?,
    };
    let names = vec![in alloc;
        Bytes::from_slice(alloc, b"id")?,
        Bytes::from_slice(alloc, b"u")?,
    ]?;
    let row = vec![in alloc; Value::Uint(id), Value::Uint(u)]?;
    let rows = vec![in alloc; Row::from_vec(row)]?;
    Ok(Stmt::Insert {
        table,
        columns: Sequence::from_vec(names),
        rows: Sequence::from_vec(rows),
    })
}
