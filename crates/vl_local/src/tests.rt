use crate::listing::local_result;
use crate::result_set::ResultSet;
use std::alloc::{AllocError, Global};
use std::process::Abort;
use std::test::Fail;
use vl_catalog::Catalog;
use vl_sql::stmt::Stmt;
use vl_values::bytes::Bytes;
use vl_values::row::Row;
use vl_values::value::Value;

// A statement of its kind, the chosen keyspace (empty: none), and the first value of each row.
struct Line {
    kind: u8,
    chosen: &'static [u8],
    rows: &'static [&'static [u8]],
}

static LINES: [Line; 6] = [
    Line {
        kind: 0,
        chosen: b"",
        rows: &[b"t1", b"t1_u_idx", b"t2", b"t2_a_idx", b"t2_b_idx"],
    },
    Line {
        kind: 0,
        chosen: b"commerce",
        rows: &[b"t1", b"t1_u_idx", b"t2", b"t2_a_idx", b"t2_b_idx"],
    },
    Line {
        kind: 0,
        chosen: b"nowhere",
        rows: &[],
    },
    Line {
        kind: 1,
        chosen: b"",
        rows: &[b"commerce"],
    },
    Line {
        kind: 2,
        chosen: b"commerce",
        rows: &[b"commerce"],
    },
    Line {
        kind: 3,
        chosen: b"",
        rows: &[b"vtgate_cl"],
    },
];

fn stmt_of(kind: u8) -> Stmt {
    match kind {
        0 => Stmt::ShowTables,
        1 => Stmt::ShowDatabases,
        2 => Stmt::SelectDatabase,
        _ => Stmt::SelectVersionComment,
    }
}

fn begins_with(row: &Row, text: &[u8]) -> bool {
    match row.as_slice().first() {
        Some(Value::Bytes(bytes)) => bytes.as_slice() == text,
        _ => false,
    }
}

fn has_rows(set: &ResultSet, rows: &[&[u8]]) -> bool {
    let found = set.rows.as_slice();
    if found.len() != rows.len() {
        return false;
    }
    for n in 0..found.len() {
        if n < rows.len() && !begins_with(&found[n], rows[n]) {
            return false;
        }
    }
    true
}

fn is_played(alloc: Global, catalog: &Catalog, line: &Line) -> Result<bool, AllocError> {
    let chosen = if line.chosen.is_empty() {
        None
    } else {
        Some(Bytes::from_slice(alloc, line.chosen)?)
    };
    match local_result(alloc, catalog, &chosen, &[], &stmt_of(line.kind))? {
        Some(set) => Ok(has_rows(&set, line.rows)),
        None => Ok(false),
    }
}

#[test]
fn names_are_listed(rt: HostRuntime) -> Result<(), Fail> {
    let alloc = rt.alloc();
    let catalog = Catalog::a(alloc)?;
    for line in &LINES {
        assert!(&rt; is_played(alloc, &catalog, line)?);
    }
    Ok(())
}
