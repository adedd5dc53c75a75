use crate::{LoadFault, load, report};
use std::alloc::{AllocError, Global};
use std::process::Abort;
use std::test::Fail;
use vl_base::{MemoryFile, MemoryFiles};

const B: &[u8] = br#"{"keyspaces":[
 {"name":"commerce","shards":["-40","40-80","80-c0","c0-"],"vschema":"commerce.json","schema":"commerce.sql"},
 {"name":"product","shards":["-"],"vschema":"product.json","schema":"product.sql"}]}"#;

const COMMERCE_JSON: &[u8] = br#"{"sharded":true,"vindexes":{"num":{"type":"numeric"},
 "corder_order":{"type":"consistent_lookup_unique","owner":"corder",
  "params":{"table":"product.corder_order_idx","from":"order_id","to":"keyspace_id"}}},
 "tables":{"corder":{"column_vindexes":[{"column":"customer_id","name":"num"},
  {"column":"order_id","name":"corder_order"}]}}}"#;

const COMMERCE_SQL: &[u8] =
    b"CREATE TABLE corder (customer_id BIGINT UNSIGNED NOT NULL, order_id BIGINT UNSIGNED NOT NULL, sku VARCHAR(64), PRIMARY KEY (customer_id, order_id));";

const PRODUCT_JSON: &[u8] = br#"{"tables":{"corder_order_idx":{}}}"#;

const PRODUCT_SQL: &[u8] =
    b"CREATE TABLE corder_order_idx (order_id BIGINT UNSIGNED NOT NULL, keyspace_id VARBINARY(16), PRIMARY KEY (order_id));";

const A: &[u8] =
    br#"{"keyspaces":[{"name":"commerce","shards":["80-","-80"],"vschema":"a.json","schema":"a.sql"}]}"#;

const A_JSON: &[u8] = br#"{"sharded":true,"vindexes":{
  "by_num":{"type":"numeric"},
  "by_md5":{"type":"binary_md5"},
  "t1_u":{"type":"consistent_lookup_unique","owner":"t1",
   "params":{"table":"t1_u_idx","from":"u","to":"keyspace_id","ignore_nulls":"true"}},
  "t2_a":{"type":"consistent_lookup_unique","owner":"t2",
   "params":{"table":"t2_a_idx","from":"a","to":"keyspace_id"}},
  "t2_b":{"type":"consistent_lookup","owner":"t2",
   "params":{"table":"t2_b_idx","from":"b, id","to":"keyspace_id","ignore_nulls":"true"}}},
 "tables":{
  "t1":{"column_vindexes":[{"column":"id","name":"by_num"},{"column":"u","name":"t1_u"}]},
  "t1_u_idx":{"column_vindexes":[{"column":"u","name":"by_num"}]},
  "t2":{"column_vindexes":[{"column":"id","name":"by_num"},{"column":"a","name":"t2_a"},{"columns":["b","id"],"name":"t2_b"}]},
  "t2_a_idx":{"column_vindexes":[{"column":"a","name":"by_num"}]},
  "t2_b_idx":{"column_vindexes":[{"column":"b","name":"by_md5"}]}}}"#;

const A_SQL: &[u8] =
    b"CREATE TABLE t1 (id BIGINT UNSIGNED NOT NULL, u BIGINT UNSIGNED, PRIMARY KEY (id));
CREATE TABLE t1_u_idx (u BIGINT UNSIGNED NOT NULL, keyspace_id VARBINARY(16), PRIMARY KEY (u));
CREATE TABLE t2 (id BIGINT UNSIGNED NOT NULL, a BIGINT UNSIGNED, b VARCHAR(32), PRIMARY KEY (id));
CREATE TABLE t2_a_idx (a BIGINT UNSIGNED NOT NULL, keyspace_id VARBINARY(16), PRIMARY KEY (a));
CREATE TABLE t2_b_idx (b VARCHAR(32) NOT NULL, id BIGINT UNSIGNED NOT NULL, keyspace_id VARBINARY(16), PRIMARY KEY (b, id));";

const A_REPORT: &[u8] = b"catalog: 1 keyspaces, 2 shards, 5 tables, 3 lookups
table commerce.t1 primary id numeric
lookup t1_u unique commerce.t1(u) to commerce.t1_u_idx(u, keyspace_id)
table commerce.t1_u_idx primary u numeric
table commerce.t2 primary id numeric
lookup t2_a unique commerce.t2(a) to commerce.t2_a_idx(a, keyspace_id)
lookup t2_b many commerce.t2(b) to commerce.t2_b_idx(b, id, keyspace_id)
table commerce.t2_a_idx primary a numeric
table commerce.t2_b_idx primary b binary_md5
";

// Adds a file in the folder d.
fn add_file(
    alloc: Global,
    files: &mut Vec<MemoryFile>,
    name: &[u8],
    bytes: &[u8],
) -> Result<(), AllocError> {
    let mut path = Vec::from_slice(alloc, b"d/")?;
    path.extend_from_slice(name)?;
    files.push(MemoryFile::new(path, Vec::from_slice(alloc, bytes)?))?;
    Ok(())
}

// Loads d/b.json: the files of catalog B, of which those of the changes come first.
fn outcome(
    alloc: Global,
    changes: &[(&[u8], &[u8])],
    failing: &[u64],
) -> Result<Vec<u8>, AllocError> {
    let mut files = Vec::new(alloc);
    for (name, bytes) in changes {
        add_file(alloc, &mut files, name, bytes)?;
    }
    add_file(alloc, &mut files, b"b.json", B)?;
    add_file(alloc, &mut files, b"commerce.json", COMMERCE_JSON)?;
    add_file(alloc, &mut files, b"commerce.sql", COMMERCE_SQL)?;
    add_file(alloc, &mut files, b"product.json", PRODUCT_JSON)?;
    add_file(alloc, &mut files, b"product.sql", PRODUCT_SQL)?;
    let mut files = MemoryFiles::new(alloc, files, Vec::from_slice(alloc, failing)?);
    match load(alloc, &mut files, "d/b.json") {
        Ok(loaded) => report(alloc, &loaded),
        Err(LoadFault::Failed) => Vec::from_slice(alloc, b"failed"),
        Err(LoadFault::Memory) => Vec::from_slice(alloc, b"memory"),
        Err(fault) => fault.line(alloc),
    }
}

fn check(
    rt: &(impl Abort + AllocGlobal),
    cases: &[(&[(&[u8], &[u8])], &[u8])],
) -> Result<(), Fail> {
    for (changes, told) in cases {
        let outcome = outcome(rt.alloc(), changes, &[])?;
        assert_eq!(rt; outcome.as_slice(), *told);
    }
    Ok(())
}

#[test]
fn the_report_of_catalog_b(rt: HostRuntime) -> Result<(), Fail> {
    check(
        &rt,
        &[
            (
                &[],
                b"catalog: 2 keyspaces, 5 shards, 2 tables, 1 lookups
table commerce.corder primary customer_id numeric
lookup corder_order unique commerce.corder(order_id) to product.corder_order_idx(order_id, keyspace_id)
table product.corder_order_idx unsharded
",
            ),
            (
                &[
                    (
                        b"product.json",
                        br#"{"z":0,"tables":{"corder_order_idx":{"b":1,"a":1}},"":0}"#,
                    ),
                    (
                        b"product.sql",
                        b"CREATE TABLE corder_order_idx (order_id BIGINT UNSIGNED NOT NULL AUTO_INCREMENT, keyspace_id VARBINARY(16), PRIMARY KEY (order_id), KEY k (order_id), KEY k (order_id)) ENGINE=x;",
                    ),
                ],
                b"catalog: 2 keyspaces, 5 shards, 2 tables, 1 lookups
table commerce.corder primary customer_id numeric
lookup corder_order unique commerce.corder(order_id) to product.corder_order_idx(order_id, keyspace_id)
table product.corder_order_idx unsharded
ignored d/product.json/
ignored d/product.json/tables/corder_order_idx/a
ignored d/product.json/tables/corder_order_idx/b
ignored d/product.json/z
ignored d/product.sql/corder_order_idx
ignored d/product.sql/corder_order_idx/k
ignored d/product.sql/corder_order_idx/order_id
",
            ),
        ],
    )
}

#[test]
fn a_lookup_that_names_the_rest_of_the_key(rt: HostRuntime) -> Result<(), Fail> {
    check(
        &rt,
        &[(
            &[(b"b.json", A), (b"a.json", A_JSON), (b"a.sql", A_SQL)],
            A_REPORT,
        )],
    )
}

#[test]
fn what_is_refused(rt: HostRuntime) -> Result<(), Fail> {
    check(
        &rt,
        &[
            (
                &[(b"b.json", b"{")],
                b"catalog refused: d/b.json is not JSON\n",
            ),
            (
                &[(b"b.json", b"[]")],
                b"catalog refused: d/b.json breaks V1\n",
            ),
            (
                &[
                    (b"commerce.json", br#"{"vindexes":{"num":{"type":"hash"}}}"#),
                    (b"commerce.sql", b"?"),
                ],
                b"catalog refused: d/commerce.json/vindexes/num/type breaks V2\n",
            ),
            (
                &[(b"commerce.sql", b"CREATE TABLE t"), (b"product.json", b"")],
                b"catalog refused: d/commerce.sql has a syntax error at byte 14\n",
            ),
            (
                &[(b"product.sql", b"CREATE TABLE t (a TEXT);")],
                b"catalog refused: d/product.sql has something unsupported at byte 18\n",
            ),
        ],
    )
}

#[test]
fn ranges_and_rules_that_are_refused(rt: HostRuntime) -> Result<(), Fail> {
    check(
        &rt,
        &[
            (
                &[(
                    b"b.json",
                    br#"{"keyspaces":[{"name":"commerce","shards":["-8"],"vschema":"commerce.json","schema":"commerce.sql"}]}"#,
                )],
                b"catalog refused: range -8 is wrong at byte 2\n",
            ),
            (
                &[(
                    b"b.json",
                    br#"{"keyspaces":[{"name":"commerce","shards":["-40","80-"],"vschema":"commerce.json","schema":"commerce.sql"}]}"#,
                )],
                b"catalog refused: keyspace commerce has a gap after 40\n",
            ),
            (
                &[(
                    b"b.json",
                    br#"{"keyspaces":[{"name":"commerce","shards":["80-"],"vschema":"commerce.json","schema":"commerce.sql"}]}"#,
                )],
                b"catalog refused: keyspace commerce has a gap after \n",
            ),
            (
                &[(
                    b"b.json",
                    br#"{"keyspaces":[{"name":"commerce","shards":["-80","7F-"],"vschema":"commerce.json","schema":"commerce.sql"}]}"#,
                )],
                b"catalog refused: keyspace commerce has an overlap at 7f\n",
            ),
            (
                &[(
                    b"commerce.sql",
                    b"CREATE TABLE corder (customer_id BIGINT UNSIGNED NOT NULL, order_id BIGINT UNSIGNED NOT NULL, sku VARCHAR(64), PRIMARY KEY (order_id));",
                )],
                b"catalog refused: table corder breaks C4\n",
            ),
        ],
    )
}

#[test]
fn loads_that_fail(rt: HostRuntime) -> Result<(), Fail> {
    let alloc = rt.alloc();
    for number in 1..=5 {
        let outcome = outcome(alloc, &[(b"commerce.json", b"{")], &[number])?;
        assert_eq!(rt; outcome.as_slice(), b"failed".as_slice());
    }
    let long = vec![in alloc; 32_u8; 1_048_577]?;
    check(
        &rt,
        &[
            (
                &[(b"b.json", long.as_slice())],
                b"file d/b.json is too long\n",
            ),
            (
                &[
                    (b"product.json", long.as_slice()),
                    (b"product.sql", long.as_slice()),
                    (b"commerce.json", b"{"),
                ],
                b"file d/product.json is too long\n",
            ),
        ],
    )
}
