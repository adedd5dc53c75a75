use crate::test_catalogs::{Files, GOOD, empty_keyspaces, many_tables, of_files};
use crate::test_changes::Change::{Keyspace, Lookup, Table, Unsharded};
use crate::test_changes::LookupChange::{Column, From, Owner, Served, To, Unique, WriteOnly};
use crate::test_changes::TableChange::{
    By, Key, More, Name, NoPrimary, OffSchema, OffVschema, Rename, Type, Vindexes,
};
use crate::test_changes::{Change, built_in_but};
use crate::{CatalogFault, Check};
use std::alloc::Global;
use std::process::Abort;
use std::test::Fail;
use vl_catalog::{Catalog, Vindex};
use vl_values::col_type::ColType;

// A name of 65 bytes.
const LONG: &str = "a2345678901234567890123456789012345678901234567890123456789012345";

// What the check answers, as `kept` or as the name of a table and the number of a rule.
fn answer(alloc: Global, catalog: &Catalog) -> Result<String, Fail> {
    match catalog.check(alloc) {
        Ok(()) => Ok(String::from_str(alloc, "kept")?),
        Err(CatalogFault::Broken { table, rule }) => {
            let name = String::from_utf8(table.into_vec()).ok().ok_or("a text")?;
            let number = rule.number();
            Ok(format!(in alloc; "{name} {number}")?)
        }
        Err(CatalogFault::Memory) => Err("ample memory".into()),
    }
}

// Whether the built-in catalog after the changes is answered so.
fn is_answered(rt: &impl Abort, alloc: Global, changes: &[Change], want: &str) -> Result<(), Fail> {
    let catalog = built_in_but(alloc, changes)?;
    let got = answer(alloc, &catalog)?;
    assert_eq!(rt; got.as_str(), want);
    Ok(())
}

fn are_answered(rt: &impl Abort, alloc: Global, table: &[(&[Change], &str)]) -> Result<(), Fail> {
    for (changes, want) in table {
        is_answered(rt, alloc, changes, want)?;
    }
    Ok(())
}

static OF_TABLES: [(&[Change], &str); 18] = [
    (&[], "kept"),
    (&[Table(0, Name("t2"))], "t2 1"),
    (&[Table(4, Name("t1"))], "t1 1"),
    (&[Table(2, Name("t1_u_idx"))], "t1_u_idx 1"),
    (&[Table(0, Key(&[]))], "t1 2"),
    (&[Table(0, Key(&[0, 9]))], "t1 2"),
    (&[Table(3, OffSchema)], "t2_a_idx 2"),
    (&[Table(1, OffVschema)], "t1_u_idx 2"),
    (&[Unsharded], "t1 3"),
    (&[Table(0, Vindexes(&[], &[]))], "t1 3"),
    (&[Table(0, Vindexes(&[(&["u"], "t1_u")], &[0]))], "t1 3"),
    (
        &[Table(0, Vindexes(&[(&["id"], "by_num"), (&["u"], "by_md5")], &[]))],
        "t1 3",
    ),
    (&[Table(0, Key(&[1]))], "t1 4"),
    (&[Table(0, NoPrimary)], "t1 4"),
    (&[Table(0, By(1, Vindex::Numeric))], "t1 4"),
    (&[Table(0, Type(0, ColType::VarChar(8)))], "t1 5"),
    (&[Table(2, Type(0, ColType::VarBinary(8)))], "t2 5"),
    (&[Table(0, Type(0, ColType::Int))], "kept"),
];

#[test]
fn rules_about_a_table_are_named(rt: HostRuntime) -> Result<(), Fail> {
    are_answered(&rt, rt.alloc(), &OF_TABLES)
}

static OF_LOOKUP_TABLES: [(&[Change], &str); 16] = [
    (&[Lookup(0, Served(None))], "t1 6"),
    (&[Lookup(0, To(None))], "t1 6"),
    (&[Lookup(0, From(&[]))], "t1 6"),
    (&[Table(1, Type(1, ColType::VarBinary(15)))], "t1 6"),
    (&[Table(4, Key(&[1, 0]))], "t2 6"),
    (&[Table(1, More(1, ColType::Int, false))], "t1 6"),
    (&[Table(1, More(1, ColType::Int, true))], "kept"),
    (
        &[
            Table(2, Type(2, ColType::VarBinary(32))),
            Table(4, Type(0, ColType::VarBinary(32))),
        ],
        "kept",
    ),
    (
        &[
            Table(2, Type(2, ColType::VarBinary(32))),
            Table(4, Type(0, ColType::VarBinary(32))),
            Lookup(2, To(Some(0))),
        ],
        "t2 6",
    ),
    (&[Table(1, Type(0, ColType::BigInt))], "t1 7"),
    (&[Table(4, Type(1, ColType::BigInt))], "t2 7"),
    (&[Table(4, Type(0, ColType::VarChar(33)))], "t2 7"),
    (&[Lookup(0, Column(None))], "t1 7"),
    (&[Lookup(2, Unique(true))], "t2 7"),
    (&[Lookup(1, Unique(false))], "t2 7"),
    (&[Lookup(2, From(&[1, 0])), Table(4, Key(&[1, 0]))], "t2 7"),
];

#[test]
fn rules_about_the_table_of_a_lookup_are_named(rt: HostRuntime) -> Result<(), Fail> {
    are_answered(&rt, rt.alloc(), &OF_LOOKUP_TABLES)
}

static OF_OWNERS: [(&[Change], &str); 15] = [
    (&[Lookup(0, Owner(None, "nobody"))], "t1 8"),
    (&[Lookup(0, Owner(Some(2), "t2"))], "t1 7"),
    (
        &[Table(2, Rename(1, "u")), Lookup(0, Owner(Some(2), "t2"))],
        "t1 8",
    ),
    (
        &[Table(
            2,
            Vindexes(
                &[
                    (&["id"], "by_num"),
                    (&["a"], "t2_a"),
                    (&["b"], "t2_b"),
                    (&["a"], "t1_u"),
                ],
                &[1, 2, 0],
            ),
        )],
        "t1 8",
    ),
    (&[Table(0, Vindexes(&[(&["id"], "by_num")], &[]))], "t1 8"),
    (
        &[
            Table(0, Vindexes(&[(&["id"], "by_num")], &[])),
            Lookup(0, Owner(None, "nobody")),
        ],
        "nobody 8",
    ),
    (
        &[
            Table(0, Vindexes(&[(&["id"], "by_num")], &[])),
            Lookup(0, To(None)),
        ],
        "t1 6",
    ),
    (
        &[Table(1, Vindexes(&[(&["u"], "by_num"), (&["u"], "by_num")], &[]))],
        "t1 9",
    ),
    (&[Table(1, By(1, Vindex::BinaryMd5))], "t1 9"),
    (&[Lookup(1, Owner(Some(1), "t1_u_idx"))], "t1 9"),
    (&[Table(1, Vindexes(&[], &[]))], "t1_u_idx 3"),
    (&[Lookup(0, WriteOnly)], "t1 10"),
    (&[Lookup(2, WriteOnly)], "t2 10"),
    (&[Lookup(1, Served(Some(1)))], "t1 13"),
    (&[Lookup(0, Served(Some(3)))], "t1 13"),
];

#[test]
fn rules_about_owners_are_named(rt: HostRuntime) -> Result<(), Fail> {
    are_answered(&rt, rt.alloc(), &OF_OWNERS)
}

static OF_LIMITS: [(&[Change], &str); 16] = [
    (&[Keyspace(LONG)], " 11"),
    (
        &[Table(0, Name(LONG))],
        "a2345678901234567890123456789012345678901234567890123456789012345 11",
    ),
    (&[Table(0, Rename(0, LONG))], "t1 11"),
    (&[Table(0, More(1, ColType::VarChar(0), true))], "t1 11"),
    (
        &[Table(0, More(1, ColType::VarBinary(16384), true))],
        "t1 11",
    ),
    (
        &[Table(0, More(1, ColType::VarBinary(16383), true))],
        "kept",
    ),
    (
        &[Table(0, More(4, ColType::VarBinary(16383), true))],
        "t1 11",
    ),
    (&[Table(0, More(63, ColType::Int, true))], "t1 11"),
    (&[Table(0, More(62, ColType::Int, true))], "kept"),
    (
        &[Table(0, Vindexes(&[(&[], "by_num"), (&["u"], "t1_u")], &[0]))],
        "t1 12",
    ),
    (
        &[
            Table(
                0,
                Vindexes(&[(&["id", "u"], "by_num"), (&["u"], "t1_u")], &[0]),
            ),
            Table(0, NoPrimary),
        ],
        "t1 12",
    ),
    (
        &[
            Table(
                0,
                Vindexes(&[(&["id"], "by_num"), (&["u", "id"], "t1_u")], &[0]),
            ),
            Lookup(0, Column(None)),
        ],
        "t1 12",
    ),
    (
        &[Table(
            2,
            Vindexes(
                &[
                    (&["id"], "by_num"),
                    (&["a"], "t2_a"),
                    (&["b", "id"], "t2_b"),
                ],
                &[1, 2],
            ),
        )],
        "kept",
    ),
    (
        &[Table(
            2,
            Vindexes(
                &[(&["id"], "by_num"), (&["a"], "t2_a"), (&["b", "a"], "t2_b")],
                &[1, 2],
            ),
        )],
        "t2 12",
    ),
    (
        &[Table(
            0,
            Vindexes(
                &[(&["id"], "by_num"), (&["u"], "t1_u"), (&["u"], "t1_u")],
                &[0, 0],
            ),
        )],
        "t1 13",
    ),
    (&[Table(0, Key(&[1])), Lookup(0, To(None))], "t1 4"),
];

#[test]
fn limits_and_column_vindexes_are_named(rt: HostRuntime) -> Result<(), Fail> {
    are_answered(&rt, rt.alloc(), &OF_LIMITS)
}

fn files_answer(alloc: Global, files: &Files) -> Result<String, Fail> {
    answer(alloc, &of_files(alloc, files)?)
}

#[test]
fn files_of_two_keyspaces_are_answered(rt: HostRuntime) -> Result<(), Fail> {
    let table = [
        (GOOD, "kept"),
        (
            Files {
                corder_key: &["order_id"],
                ..GOOD
            },
            "corder 4",
        ),
        (
            Files {
                corder_key: &["nothing"],
                ..GOOD
            },
            "corder 2",
        ),
        (
            Files {
                corder_vindexes: &[(&["sku_id"], "num"), (&["order_id"], "corder_order")],
                ..GOOD
            },
            "corder 4",
        ),
        (
            Files {
                corder_vindexes: &[(&["customer_id"], "num"), (&["order"], "corder_order")],
                ..GOOD
            },
            "corder 7",
        ),
        (
            Files {
                keyspace: None,
                ..GOOD
            },
            "corder 6",
        ),
        (
            Files {
                table: "nowhere",
                ..GOOD
            },
            "corder 6",
        ),
        (
            Files {
                unique: false,
                ..GOOD
            },
            "corder 7",
        ),
        (
            Files {
                owner: "nobody",
                ..GOOD
            },
            "corder 8",
        ),
        (
            Files {
                corder_vindexes: &[(&["customer_id"], "num")],
                owner: "nobody",
                ..GOOD
            },
            "nobody 8",
        ),
        (
            Files {
                product_ranges: &["-80", "80-"],
                ..GOOD
            },
            "corder_order_idx 3",
        ),
        (
            Files {
                product_vindexes: &[(&["order_id"], "num")],
                ..GOOD
            },
            "corder_order_idx 3",
        ),
        (
            Files {
                product_alone: true,
                ..GOOD
            },
            "alone 2",
        ),
    ];
    for (files, want) in &table {
        let got = files_answer(rt.alloc(), files)?;
        assert_eq!(rt; got.as_str(), *want);
    }
    Ok(())
}

#[test]
fn limits_of_the_whole_catalog_are_looked_at_first(rt: HostRuntime) -> Result<(), Fail> {
    let alloc = rt.alloc();
    let four = ["-40", "40-80", "80-c0", "c0-"];
    let five = ["-40", "40-80", "80-a0", "a0-c0", "c0-"];
    assert_eq!(rt;
        answer(alloc, &empty_keyspaces(alloc, 16, &four)?)?.as_str(),
        "kept"
    );
    assert_eq!(rt;
        answer(alloc, &empty_keyspaces(alloc, 17, &["-"])?)?.as_str(),
        " 11"
    );
    assert_eq!(rt;
        answer(alloc, &empty_keyspaces(alloc, 13, &five)?)?.as_str(),
        " 11"
    );
    assert_eq!(rt;
        answer(alloc, &many_tables(alloc, 256)?)?.as_str(),
        "corder_order_idx 1"
    );
    assert_eq!(rt; answer(alloc, &many_tables(alloc, 257)?)?.as_str(), " 11");
    Ok(())
}
