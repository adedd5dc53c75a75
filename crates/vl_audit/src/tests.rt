use crate::auditing::audit;
use crate::found::Found;
use std::alloc::{AllocError, Global};
use std::process::Abort;
use std::test::Fail;
use vl_catalog::Catalog;
use vl_values::bytes::Bytes;
use vl_values::items::Items;
use vl_values::key::Key;
use vl_values::row::Row;
use vl_values::value::Value;

enum Cell {
    Null,
    Number(u64),
    Text(&'static [u8]),
    /// The keyspace id of a number.
    Ksid(u64),
}

/// A row of the built-in catalog: its shard, its table and its values.
struct Given {
    shard: u32,
    table: u32,
    cells: &'static [Cell],
}

/// Rows, and by their places those that an audit lists, in order.
struct Case {
    rows: &'static [Given],
    missing: &'static [usize],
    doubled: &'static [usize],
    orphans: &'static [usize],
}

// Tables 0 and 2 are t1(id, u) and t2(id, a, b). Table 1 has the entries of the unique lookup on u, table 3 those of
// the unique lookup on a, and table 4 those of the lookup on b, which isn't unique: b, id, keyspace id.
static CASES: [Case; 9] = [
    // Each row has its entries, and NULL needs none.
    Case {
        rows: &[
            Given {
                shard: 0,
                table: 0,
                cells: &[Cell::Number(1), Cell::Number(7)],
            },
            Given {
                shard: 0,
                table: 1,
                cells: &[Cell::Number(7), Cell::Ksid(1)],
            },
            Given {
                shard: 0,
                table: 2,
                cells: &[Cell::Number(1), Cell::Number(5), Cell::Text(b"x")],
            },
            Given {
                shard: 0,
                table: 3,
                cells: &[Cell::Number(5), Cell::Ksid(1)],
            },
            Given {
                shard: 1,
                table: 4,
                cells: &[Cell::Text(b"x"), Cell::Number(1), Cell::Ksid(1)],
            },
            Given {
                shard: 1,
                table: 0,
                cells: &[Cell::Number(9223372036854775808), Cell::Null],
            },
            Given {
                shard: 0,
                table: 2,
                cells: &[Cell::Number(2), Cell::Null, Cell::Null],
            },
        ],
        missing: &[],
        doubled: &[],
        orphans: &[],
    },
    // No entry; a row that two lookups miss stands once.
    Case {
        rows: &[
            Given {
                shard: 1,
                table: 0,
                cells: &[Cell::Number(9223372036854775808), Cell::Number(8)],
            },
            Given {
                shard: 0,
                table: 2,
                cells: &[Cell::Number(1), Cell::Number(5), Cell::Text(b"x")],
            },
            Given {
                shard: 0,
                table: 0,
                cells: &[Cell::Number(1), Cell::Number(7)],
            },
        ],
        missing: &[2, 1, 0],
        doubled: &[],
        orphans: &[],
    },
    // Entries of a unique lookup with another keyspace id, and with none.
    Case {
        rows: &[
            Given {
                shard: 0,
                table: 0,
                cells: &[Cell::Number(1), Cell::Number(7)],
            },
            Given {
                shard: 0,
                table: 1,
                cells: &[Cell::Number(7), Cell::Ksid(2)],
            },
            Given {
                shard: 0,
                table: 0,
                cells: &[Cell::Number(3), Cell::Number(9)],
            },
            Given {
                shard: 0,
                table: 1,
                cells: &[Cell::Number(9), Cell::Null],
            },
        ],
        missing: &[0, 2],
        doubled: &[],
        orphans: &[1, 3],
    },
    // Entries of a lookup that isn't unique with another id, and with another keyspace id.
    Case {
        rows: &[
            Given {
                shard: 0,
                table: 2,
                cells: &[Cell::Number(1), Cell::Null, Cell::Text(b"x")],
            },
            Given {
                shard: 1,
                table: 4,
                cells: &[Cell::Text(b"x"), Cell::Number(2), Cell::Ksid(1)],
            },
            Given {
                shard: 0,
                table: 2,
                cells: &[Cell::Number(3), Cell::Null, Cell::Text(b"y")],
            },
            Given {
                shard: 0,
                table: 4,
                cells: &[Cell::Text(b"y"), Cell::Number(3), Cell::Ksid(1)],
            },
        ],
        missing: &[0, 2],
        doubled: &[],
        orphans: &[3, 1],
    },
    // Orphans of each lookup, in order of shard, table and key.
    Case {
        rows: &[
            Given {
                shard: 1,
                table: 4,
                cells: &[Cell::Text(b"b"), Cell::Number(9), Cell::Ksid(9)],
            },
            Given {
                shard: 0,
                table: 4,
                cells: &[Cell::Text(b"b"), Cell::Number(8), Cell::Ksid(8)],
            },
            Given {
                shard: 0,
                table: 4,
                cells: &[Cell::Text(b"a"), Cell::Number(9), Cell::Ksid(9)],
            },
            Given {
                shard: 0,
                table: 3,
                cells: &[Cell::Number(6), Cell::Ksid(6)],
            },
            Given {
                shard: 0,
                table: 1,
                cells: &[Cell::Number(7), Cell::Ksid(7)],
            },
            Given {
                shard: 0,
                table: 1,
                cells: &[Cell::Number(5), Cell::Ksid(5)],
            },
        ],
        missing: &[],
        doubled: &[],
        orphans: &[5, 4, 3, 2, 1, 0],
    },
    // A unique value on rows of two shards: one entry is there.
    Case {
        rows: &[
            Given {
                shard: 0,
                table: 0,
                cells: &[Cell::Number(1), Cell::Number(7)],
            },
            Given {
                shard: 1,
                table: 0,
                cells: &[Cell::Number(9223372036854775808), Cell::Number(7)],
            },
            Given {
                shard: 0,
                table: 1,
                cells: &[Cell::Number(7), Cell::Ksid(1)],
            },
        ],
        missing: &[1],
        doubled: &[0, 1],
        orphans: &[],
    },
    // A unique value on three rows of one shard, and two rows with one value of the lookup that isn't unique.
    Case {
        rows: &[
            Given {
                shard: 0,
                table: 2,
                cells: &[Cell::Number(1), Cell::Number(5), Cell::Null],
            },
            Given {
                shard: 0,
                table: 2,
                cells: &[Cell::Number(2), Cell::Number(5), Cell::Text(b"x")],
            },
            Given {
                shard: 0,
                table: 2,
                cells: &[Cell::Number(3), Cell::Number(5), Cell::Text(b"x")],
            },
            Given {
                shard: 0,
                table: 3,
                cells: &[Cell::Number(5), Cell::Ksid(2)],
            },
            Given {
                shard: 0,
                table: 4,
                cells: &[Cell::Text(b"x"), Cell::Number(2), Cell::Ksid(2)],
            },
            Given {
                shard: 0,
                table: 4,
                cells: &[Cell::Text(b"x"), Cell::Number(3), Cell::Ksid(3)],
            },
        ],
        missing: &[0, 2],
        doubled: &[0, 1, 2],
        orphans: &[],
    },
    // An entry of another lookup is none.
    Case {
        rows: &[
            Given {
                shard: 0,
                table: 0,
                cells: &[Cell::Number(1), Cell::Number(7)],
            },
            Given {
                shard: 0,
                table: 3,
                cells: &[Cell::Number(7), Cell::Ksid(1)],
            },
        ],
        missing: &[0],
        doubled: &[],
        orphans: &[1],
    },
    // Nothing is stored.
    Case {
        rows: &[],
        missing: &[],
        doubled: &[],
        orphans: &[],
    },
];

fn value_of(alloc: Global, cell: &Cell) -> Result<Value, AllocError> {
    match cell {
        Cell::Null => Ok(Value::Null),
        Cell::Number(n) => Ok(Value::Uint(*n)),
        Cell::Text(text) => Ok(Value::Bytes(Bytes::from_slice(alloc, text)?)),
        Cell::Ksid(n) => Ok(Value::Bytes(Bytes::from_slice(alloc, &n.to_be_bytes())?)),
    }
}

fn pair_of(alloc: Global, catalog: &Catalog, given: &Given) -> Result<(Key, Row), Fail> {
    let mut values = Vec::new(alloc);
    for cell in given.cells {
        values.push(value_of(alloc, cell)?)?;
    }
    let table = catalog
        .tables
        .as_slice()
        .get(given.table as usize)
        .ok_or("a table")?;
    let key = table.key_of(alloc, given.table, values.as_slice())?;
    Ok((key, Row::from_vec(values)))
}

fn rows_on(
    alloc: Global,
    catalog: &Catalog,
    rows: &[Given],
    shard: u32,
) -> Result<Items<(Key, Row)>, Fail> {
    let mut pairs = Vec::new(alloc);
    for given in rows {
        if given.shard == shard {
            pairs.push(pair_of(alloc, catalog, given)?)?;
        }
    }
    Ok(Items::from_vec(pairs))
}

fn check_list(
    rt: &impl Abort,
    alloc: Global,
    catalog: &Catalog,
    found: &[Found],
    rows: &[Given],
    want: &[usize],
) -> Result<(), Fail> {
    assert_eq!(rt; found.len(), want.len());
    for (one, place) in found.iter().zip(want.iter()) {
        let given = rows.get(*place).ok_or("a row")?;
        let (key, row) = pair_of(alloc, catalog, given)?;
        assert!(rt; one.shard == given.shard && one.key == key && one.row == row);
    }
    Ok(())
}

#[test]
fn lists_of_tables_by_hand(rt: HostRuntime) -> Result<(), Fail> {
    let alloc = rt.alloc();
    let catalog = Catalog::a(alloc)?;
    for case in &CASES {
        let low = rows_on(alloc, &catalog, case.rows, 0)?;
        let high = rows_on(alloc, &catalog, case.rows, 1)?;
        let report = audit(alloc, &catalog, &[low, high])?;
        check_list(
            &rt,
            alloc,
            &catalog,
            report.missing.as_slice(),
            case.rows,
            case.missing,
        )?;
        check_list(
            &rt,
            alloc,
            &catalog,
            report.doubled.as_slice(),
            case.rows,
            case.doubled,
        )?;
        check_list(
            &rt,
            alloc,
            &catalog,
            report.orphans.as_slice(),
            case.rows,
            case.orphans,
        )?;
    }
    Ok(())
}
