use crate::{DdlFault, one_meaning, read_schema};
use std::alloc::{AllocError, Global};
use std::process::Abort;
use std::test::Fail;
use vl_catalog::{Column, TableDef};
use vl_values::bytes::Bytes;
use vl_values::col_type::ColType;

fn add_joined(text: &mut Vec<u8>, names: &[Bytes]) -> Result<(), AllocError> {
    for (i, name) in names.iter().enumerate() {
        if i > 0 {
            text.extend_from_slice(b" ")?;
        }
        text.extend_from_slice(name.as_slice())?;
    }
    Ok(())
}

fn type_text(alloc: Global, ty: ColType) -> Result<String, AllocError> {
    match ty {
        ColType::BigInt => format!(in alloc; "bigint"),
        ColType::BigUint => format!(in alloc; "bigint unsigned"),
        ColType::Int => format!(in alloc; "int"),
        ColType::Uint32 => format!(in alloc; "int unsigned"),
        ColType::VarChar(n) => format!(in alloc; "varchar {n}"),
        ColType::VarBinary(n) => format!(in alloc; "varbinary {n}"),
    }
}

fn add_column(alloc: Global, text: &mut Vec<u8>, column: &Column) -> Result<(), AllocError> {
    text.extend_from_slice(column.name.as_slice())?;
    text.extend_from_slice(b" ")?;
    text.extend_from_slice(type_text(alloc, column.ty)?.as_bytes())?;
    if !column.nullable {
        text.extend_from_slice(b" not null")?;
    }
    text.extend_from_slice(b", ")?;
    Ok(())
}

// `name: column type [not null], .. key names ignored paths;`
fn add_table(alloc: Global, text: &mut Vec<u8>, table: &TableDef) -> Result<(), AllocError> {
    text.extend_from_slice(table.name.as_slice())?;
    text.extend_from_slice(b": ")?;
    for column in table.columns.as_slice() {
        add_column(alloc, text, column)?;
    }
    text.extend_from_slice(b"key ")?;
    add_joined(text, table.key.as_slice())?;
    text.extend_from_slice(b" ignored ")?;
    add_joined(text, table.ignored.as_slice())?;
    text.extend_from_slice(b";")?;
    Ok(())
}

fn told(alloc: Global, tables: &[TableDef]) -> Result<Vec<u8>, AllocError> {
    let mut text = Vec::new(alloc);
    for table in tables {
        add_table(alloc, &mut text, table)?;
    }
    Ok(text)
}

// Tells the tables of a file, or the fault.
fn read(alloc: Global, text: &[u8]) -> Result<Vec<u8>, AllocError> {
    match read_schema(alloc, text) {
        Ok(tables) => told(alloc, tables.as_slice()),
        Err(DdlFault::Syntax { at }) => {
            let said = format!(in alloc; "syntax {at}")?;
            Vec::from_slice(alloc, said.as_bytes())
        }
        Err(DdlFault::Unsupported { at }) => {
            let said = format!(in alloc; "unsupported {at}")?;
            Vec::from_slice(alloc, said.as_bytes())
        }
        Err(DdlFault::Memory) => Vec::from_slice(alloc, b"memory"),
    }
}

fn check(rt: &(impl Abort + AllocGlobal), cases: &[(&[u8], &[u8])]) -> Result<(), Fail> {
    for (text, said) in cases {
        let read = read(rt.alloc(), text)?;
        assert_eq!(rt; read.as_slice(), *said);
    }
    Ok(())
}

#[test]
fn tables_of_catalogs(rt: HostRuntime) -> Result<(), Fail> {
    check(
        &rt,
        &[
            (b"", b""),
            (b" -- none\n/* at all */", b""),
            (
                b"CREATE TABLE t1 (id BIGINT UNSIGNED NOT NULL, u BIGINT UNSIGNED, PRIMARY KEY (id));\nCREATE TABLE t1_u_idx (u BIGINT UNSIGNED NOT NULL, keyspace_id VARBINARY(16), PRIMARY KEY (u));",
                b"t1: id bigint unsigned not null, u bigint unsigned, key id ignored ;t1_u_idx: u bigint unsigned not null, keyspace_id varbinary 16, key u ignored ;",
            ),
            (
                b"CREATE TABLE t2_b_idx (b VARCHAR(32) NOT NULL, id BIGINT UNSIGNED NOT NULL, keyspace_id VARBINARY(16), PRIMARY KEY (b, id));",
                b"t2_b_idx: b varchar 32 not null, id bigint unsigned not null, keyspace_id varbinary 16, key b id ignored ;",
            ),
            (
                b"CREATE TABLE corder (customer_id BIGINT UNSIGNED NOT NULL, order_id BIGINT UNSIGNED NOT NULL, sku VARCHAR(64), PRIMARY KEY (customer_id, order_id));",
                b"corder: customer_id bigint unsigned not null, order_id bigint unsigned not null, sku varchar 64, key customer_id order_id ignored ;",
            ),
        ],
    )
}

#[test]
fn productions(rt: HostRuntime) -> Result<(), Fail> {
    one_meaning();
    check(
        &rt,
        &[
            (
                b"create Table if Not exists `a b`(`c d` int(11));",
                b"a b: c d int, key  ignored ;",
            ),
            (
                b"CREATE TABLE if (a INT, b INT UNSIGNED NULL);",
                b"if: a int, b int unsigned, key  ignored ;",
            ),
            (
                b"CREATE TABLE t (a BIGINT(20) UNSIGNED NULL DEFAULT NULL AUTO_INCREMENT PRIMARY KEY CHARACTER SET utf8 COLLATE utf8_bin, b VARCHAR(3) COLLATE x, c VARCHAR(4) CHARACTER SET y);",
                b"t: a bigint unsigned not null, b varchar 3, c varchar 4, key a ignored t/a t/b t/c;",
            ),
            (
                b"CREATE TABLE t (PRIMARY KEY(b,a), a INT NULL, b INT, c INT, KEY k (a, a), INDEX i (zz)) ENGINE = InnoDB DEFAULT CHARSET=utf8, COMMENT='x;y' PARTITION BY ((a)+(b.c) - -1 `q`);",
                b"t: a int not null, b int not null, c int, key b a ignored t/k t/i t;",
            ),
            (
                b"CREATE TABLE t (key bigint, primary int(3), index INT NOT NULL, unique varchar(1), foreign int);",
                b"t: key bigint, primary int, index int not null, unique varchar 1, foreign int, key  ignored ;",
            ),
            (
                b"CREATE TABLE t (`key` bigint, key bigint(x), key varchar(`y`), KEY(z int);",
                b"syntax 66",
            ),
            (
                b"CREATE TABLE t (a bigint, key bigint(x), index varchar(`y`), PRIMARY KEY (zz));",
                b"t: a bigint, key zz ignored t/bigint t/varchar;",
            ),
            (
                b"CREATE TABLE t (a VARCHAR(0), b VARBINARY(16384), c VARCHAR(99999999999999999999999), d VARCHAR(065536));",
                b"t: a varchar 0, b varbinary 16384, c varchar 65535, d varchar 65535, key  ignored ;",
            ),
        ],
    )
}

#[test]
fn places_of_faults(rt: HostRuntime) -> Result<(), Fail> {
    check(
        &rt,
        &[
            (b"CREATE TABLE t (a INT)", b"syntax 22"),
            (b"CREATE TABLE t (a INT) -- end", b"syntax 29"),
            (b"CREATE TABLE t (a INT);;", b"syntax 23"),
            (b"CREATE TABLE t ();", b"syntax 16"),
            (b"CREATE TABLE t (a INT,);", b"syntax 22"),
            (b"CREATE TABLE t (a INT NULL NOT NULL);", b"syntax 27"),
            (
                b"CREATE TABLE t (a INT COLLATE x CHARACTER SET y);",
                b"syntax 32",
            ),
            (b"CREATE TABLE t (a VARCHAR(3) UNSIGNED);", b"syntax 29"),
            (b"CREATE TABLE t (a VARCHAR);", b"syntax 25"),
            (b"CREATE TABLE t (a VARCHAR(-3));", b"syntax 26"),
            (b"CREATE TABLE t (a `INT`);", b"syntax 18"),
            (b"CREATE TABLE t (a INT, b INT, a INT);", b"syntax 30"),
            (
                b"CREATE TABLE t (a INT PRIMARY KEY, PRIMARY KEY (a));",
                b"syntax 35",
            ),
            (
                b"CREATE TABLE t (PRIMARY KEY (a), a INT PRIMARY KEY);",
                b"syntax 39",
            ),
            (
                b"CREATE TABLE t (PRIMARY KEY (a, b, a), a INT);",
                b"syntax 35",
            ),
            (
                b"CREATE TABLE t (CONSTRAINT c PRIMARY KEY (a));",
                b"unsupported 27",
            ),
            (b"CREATE TABLE t (PRIMARY int (a));", b"syntax 24"),
            (b"CREATE TABLE t (KEY (a));", b"syntax 20"),
            (b"CREATE TABLE t (a INT) x ( y;", b"syntax 28"),
            (b"CREATE TABLE t (a INT) x ) y;", b"syntax 25"),
            (b"CREATE TABLE t (a INT) x * y;", b"syntax 25"),
            (b"CREATE TABLE t (a INT) x 'y;", b"syntax 25"),
            (b"DROP TABLE t;", b"syntax 0"),
            (b"CREATE TABLE t.u (a INT);", b"syntax 14"),
        ],
    )
}

#[test]
fn what_is_unsupported(rt: HostRuntime) -> Result<(), Fail> {
    check(
        &rt,
        &[
            (b"CREATE TABLE t (a DOUBLE(3, 4));", b"unsupported 18"),
            (b"CREATE TABLE t (a TEXT", b"unsupported 18"),
            (b"CREATE TABLE t (a", b"syntax 17"),
            (
                b"CREATE TABLE t (a INT, UNIQUE KEY k (a));",
                b"unsupported 23",
            ),
            (
                b"CREATE TABLE t (a INT, FOREIGN KEY (a) REFERENCES u (a));",
                b"unsupported 23",
            ),
            (b"CREATE TABLE t (UNIQUE int (a));", b"unsupported 16"),
            (b"CREATE TABLE t (a INT UNIQUE);", b"unsupported 22"),
            (
                b"CREATE TABLE t (a INT NOT NULL unique KEY, b DOUBLE);",
                b"unsupported 31",
            ),
            (
                b"CREATE TABLE t (a INT COLLATE c UNIQUE NULL);",
                b"unsupported 32",
            ),
            (b"CREATE TABLE t (a INT DEFAULT UNIQUE);", b"unsupported 30"),
            (b"CREATE TABLE t (a INT NOT UNIQUE);", b"syntax 26"),
            (b"CREATE TABLE t (`UNIQUE` (a));", b"syntax 25"),
            (b"CREATE TABLE t (a INT DEFAULT 0);", b"unsupported 30"),
            (b"CREATE TABLE t (a INT DEFAULT 'x');", b"unsupported 30"),
            (b"CREATE TABLE t (a INT DEFAULT ?);", b"syntax 30"),
            (b"CREATE TABLE t (a INT DEFAULT", b"syntax 29"),
            (
                b"CREATE TABLE t (KEY double (a), PRIMARY KEY (a), b INT DEFAULT (1));",
                b"unsupported 63",
            ),
        ],
    )
}
