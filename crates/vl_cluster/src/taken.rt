ghost use Rattle.std.specs.Prelude.{◌≡◌};
ghost use Rattle.vl_model.specs.Taken as taken;

use vl_sql::stmt::Stmt;
use vl_sql::table::TableName;
use vl_values::bytes::Bytes;
use vl_values::row::Row;
use vl_values::value::Value;

/// The values of id and u of an INSERT that the core takes; none for a statement that it doesn't take.
pub fn insert_of(stmt: &Stmt) -> Option<(u64, u64)>
    ensures { result ≡ taken.insert_of stmt.now }
{
    match stmt {
        Stmt::Insert {
            table,
            columns,
            rows,
        } => {
            if is_t1(table) && are_id_u(columns.as_slice()) {
                return numbers_of(rows.as_slice());
            }
            None
        }
        _ => None,
    }
}

fn is_t1(table: &TableName) -> bool
    ensures { result ≡ taken.is_t1 table.now }
{
    match &table.keyspace {
        None => table.name.as_slice() == b"t1".as_slice(),
        Some(_) => false,
    }
}

fn are_id_u(names: &[Bytes]) -> bool
    ensures { result ≡ taken.are_id_u names.now }
{
    match names {
        [first, second] => {
            first.as_slice() == b"id".as_slice() && second.as_slice() == b"u".as_slice()
        }
        _ => false,
    }
}

// The numbers of the one row that there is.
fn numbers_of(rows: &[Row]) -> Option<(u64, u64)>
    ensures { result ≡ taken.numbers_of rows.now }
{
    match rows {
        [row] => numbers_in(row.as_slice()),
        _ => None,
    }
}

fn numbers_in(values: &[Value]) -> Option<(u64, u64)>
    ensures { result ≡ taken.numbers_in values.now }
{
    match values {
        [Value::Uint(id), Value::Uint(u)] => Some((*id, *u)),
        _ => None,
    }
}
