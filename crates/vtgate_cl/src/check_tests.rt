use crate::batch::batch;
use std::alloc::{AllocError, Global};
use std::fs;
use std::process::Abort;
use std::test::Fail;
use vl_base::{Files, FolderFiles, MemoryFile, MemoryFiles, MemorySink, SteadySource};

const ORDERS: &[u8] = br#"{"keyspaces":[
 {"name":"commerce","shards":["-40","40-80","80-c0","c0-"],"vschema":"commerce.json","schema":"commerce.sql"},
 {"name":"product","shards":["-"],"vschema":"product.json","schema":"product.sql"}]}"#;

const COMMERCE_JSON: &[u8] = br#"{"sharded":true,"vindexes":{"num":{"type":"numeric"},
 "corder_order":{"type":"consistent_lookup_unique","owner":"corder",
  "params":{"table":"product.corder_order_idx","from":"order_id","to":"keyspace_id"}}},
 "tables":{"corder":{"column_vindexes":[{"column":"customer_id","name":"num"},
  {"column":"order_id","name":"corder_order"}]}}}"#;

const COMMERCE_SQL: &[u8] =
    b"CREATE TABLE corder (customer_id BIGINT UNSIGNED NOT NULL, order_id BIGINT UNSIGNED NOT NULL, sku VARCHAR(64), PRIMARY KEY (customer_id, order_id));";

const PRODUCT_JSON: &[u8] = br#"{"tables":{"corder_order_idx":{}}}"#;

const PRODUCT_SQL: &[u8] =
    b"CREATE TABLE corder_order_idx (order_id BIGINT UNSIGNED NOT NULL, keyspace_id VARBINARY(16), PRIMARY KEY (order_id));";

const REPORT: &[u8] = b"catalog: 2 keyspaces, 5 shards, 2 tables, 1 lookups
table commerce.corder primary customer_id numeric
lookup corder_order unique commerce.corder(order_id) to product.corder_order_idx(order_id, keyspace_id)
table product.corder_order_idx unsharded
";

fn add_file(
    alloc: Global,
    files: &mut Vec<MemoryFile>,
    folder: &[u8],
    name: &[u8],
    bytes: &[u8],
) -> Result<(), AllocError> {
    let mut path = Vec::from_slice(alloc, folder)?;
    path.extend_from_slice(name)?;
    files.push(MemoryFile::new(path, Vec::from_slice(alloc, bytes)?))?;
    Ok(())
}

// The files of the orders' catalog in this folder. Those of the changes stand before them, and so in their place.
fn orders(
    alloc: Global,
    folder: &[u8],
    changes: &[(&[u8], &[u8])],
) -> Result<Vec<MemoryFile>, AllocError> {
    let mut files = Vec::new(alloc);
    for (name, bytes) in changes {
        add_file(alloc, &mut files, folder, name, bytes)?;
    }
    add_file(alloc, &mut files, folder, b"b.json", ORDERS)?;
    add_file(alloc, &mut files, folder, b"commerce.json", COMMERCE_JSON)?;
    add_file(alloc, &mut files, folder, b"commerce.sql", COMMERCE_SQL)?;
    add_file(alloc, &mut files, folder, b"product.json", PRODUCT_JSON)?;
    add_file(alloc, &mut files, folder, b"product.sql", PRODUCT_SQL)?;
    Ok(files)
}

fn words_of(alloc: Global, words: &[&str]) -> Result<Vec<String>, AllocError> {
    let mut list = Vec::new(alloc);
    for word in words {
        list.push(String::from_str(alloc, word)?)?;
    }
    Ok(list)
}

// The exit status of the words over these files, and what is printed into this room.
fn ran<F: Files>(
    alloc: Global,
    words: &[&str],
    files: &mut F,
    room: usize,
) -> Result<(u8, Vec<u8>), AllocError> {
    let words = words_of(alloc, words)?;
    let mut src = SteadySource::new(b"bogus".to_vec(alloc)?, 1);
    let mut out = MemorySink::new(alloc, room, 7, Vec::new(alloc))?;
    let status = batch(alloc, words.as_slice(), files, &mut src, &mut out);
    Ok((status.number(), out.bytes().to_vec(alloc)?))
}

// Checks the orders' catalog in the folder d, with one file changed and the load of this number failing.
fn check_orders(
    rt: &(impl Abort + AllocGlobal),
    cases: &[(&[u8], &[u8], u64, u8, &[u8])],
) -> Result<(), Fail> {
    let alloc = rt.alloc();
    for (name, bytes, failing, status, printed) in cases {
        let files = orders(alloc, b"d/", &[(*name, *bytes)])?;
        let mut files = MemoryFiles::new(alloc, files, [*failing].to_vec(alloc)?);
        let words = ["check", "--catalog", "d/b.json"];
        let (got, text) = ran(alloc, &words, &mut files, 1000)?;
        assert_eq!(rt; got, *status);
        assert_eq!(rt; text.as_slice(), *printed);
    }
    Ok(())
}

#[test]
fn catalogs_are_reported_or_refused(rt: HostRuntime) -> Result<(), Fail> {
    check_orders(
        &rt,
        &[
            (b"", b"", 0, 0, REPORT),
            // The primary key lacks the primary vindex's column.
            (
                b"commerce.sql",
                b"CREATE TABLE corder (customer_id BIGINT UNSIGNED NOT NULL, order_id BIGINT UNSIGNED NOT NULL, sku VARCHAR(64), PRIMARY KEY (order_id));",
                0,
                10,
                b"catalog refused: table corder breaks C4\n",
            ),
            (
                b"b.json",
                br#"{"keyspaces":[
 {"name":"commerce","shards":["-40","80-"],"vschema":"commerce.json","schema":"commerce.sql"},
 {"name":"product","shards":["-"],"vschema":"product.json","schema":"product.sql"}]}"#,
                0,
                10,
                b"catalog refused: keyspace commerce has a gap after 40\n",
            ),
            (
                b"product.json",
                b"",
                0,
                10,
                b"catalog refused: d/product.json is not JSON\n",
            ),
        ],
    )
}

#[test]
fn files_that_are_not_loaded(rt: HostRuntime) -> Result<(), Fail> {
    let long = vec![in rt.alloc(); 32_u8; 1_048_577]?;
    check_orders(
        &rt,
        &[
            (b"", b"", 1, 8, b""),
            // All files are loaded before the second is refused.
            (b"commerce.json", b"", 5, 8, b""),
            (
                b"product.sql",
                long.as_slice(),
                0,
                8,
                b"file d/product.sql is too long\n",
            ),
            (
                b"b.json",
                long.as_slice(),
                0,
                8,
                b"file d/b.json is too long\n",
            ),
        ],
    )
}

// Files of the built-in catalog in which the lookup on b names its columns so.
fn built_in(alloc: Global, columns: &[u8]) -> Result<Vec<MemoryFile>, AllocError> {
    let mut vschema = Vec::from_slice(
        alloc,
        br#"{"sharded":true,"vindexes":{"by_num":{"type":"numeric"},"by_md5":{"type":"binary_md5"},
 "t1_u":{"type":"consistent_lookup_unique","owner":"t1","params":{"table":"t1_u_idx","from":"u","to":"keyspace_id","ignore_nulls":"true"}},
 "t2_a":{"type":"consistent_lookup_unique","owner":"t2","params":{"table":"t2_a_idx","from":"a","to":"keyspace_id"}},
 "t2_b":{"type":"consistent_lookup","owner":"t2","params":{"table":"t2_b_idx","from":"b, id","to":"keyspace_id","ignore_nulls":"true"}}},
 "tables":{"t1":{"column_vindexes":[{"column":"id","name":"by_num"},{"column":"u","name":"t1_u"}]},
 "t1_u_idx":{"column_vindexes":[{"column":"u","name":"by_num"}]},
 "t2_a_idx":{"column_vindexes":[{"column":"a","name":"by_num"}]},
 "t2_b_idx":{"column_vindexes":[{"column":"b","name":"by_md5"}]},
 "t2":{"column_vindexes":[{"column":"id","name":"by_num"},{"column":"a","name":"t2_a"},{"name":"t2_b","#,
    )?;
    vschema.extend_from_slice(columns)?;
    vschema.extend_from_slice(b"}]}}}")?;
    let mut files = Vec::new(alloc);
    add_file(
        alloc,
        &mut files,
        b"",
        b"a.json",
        br#"{"keyspaces":[{"name":"commerce","shards":["-80","80-"],"vschema":"v","schema":"s"}]}"#,
    )?;
    add_file(alloc, &mut files, b"", b"v", vschema.as_slice())?;
    add_file(
        alloc,
        &mut files,
        b"",
        b"s",
        b"CREATE TABLE t1 (id BIGINT UNSIGNED NOT NULL, u BIGINT UNSIGNED, PRIMARY KEY (id));
CREATE TABLE t1_u_idx (u BIGINT UNSIGNED NOT NULL, keyspace_id VARBINARY(16), PRIMARY KEY (u));
CREATE TABLE t2 (id BIGINT UNSIGNED NOT NULL, a BIGINT UNSIGNED, b VARCHAR(32), PRIMARY KEY (id));
CREATE TABLE t2_a_idx (a BIGINT UNSIGNED NOT NULL, keyspace_id VARBINARY(16), PRIMARY KEY (a));
CREATE TABLE t2_b_idx (b VARCHAR(32) NOT NULL, id BIGINT UNSIGNED NOT NULL, keyspace_id VARBINARY(16), PRIMARY KEY (b, id));
",
    )?;
    Ok(files)
}

#[test]
fn a_lookup_of_several_owners_columns_means_its_column(rt: HostRuntime) -> Result<(), Fail> {
    let alloc = rt.alloc();
    for columns in [
        br#""columns":["b","id"]"#.as_slice(),
        br#""column":"b""#.as_slice(),
    ] {
        let mut files = MemoryFiles::new(alloc, built_in(alloc, columns)?, Vec::new(alloc));
        let (got, text) = ran(alloc, &["check", "--catalog=a.json"], &mut files, 1000)?;
        assert_eq!(rt; got, 0);
        assert_eq!(rt;
            text.as_slice(),
            b"catalog: 1 keyspaces, 2 shards, 5 tables, 3 lookups
table commerce.t1 primary id numeric
lookup t1_u unique commerce.t1(u) to commerce.t1_u_idx(u, keyspace_id)
table commerce.t1_u_idx primary u numeric
table commerce.t2 primary id numeric
lookup t2_a unique commerce.t2(a) to commerce.t2_a_idx(a, keyspace_id)
lookup t2_b many commerce.t2(b) to commerce.t2_b_idx(b, id, keyspace_id)
table commerce.t2_a_idx primary a numeric
table commerce.t2_b_idx primary b binary_md5
"
                .as_slice()
        );
    }
    Ok(())
}

// The exit statuses of words over the orders' catalog; nothing is printed for those that are refused.
fn check_words(rt: &(impl Abort + AllocGlobal), cases: &[(&[&str], u8)]) -> Result<(), Fail> {
    let alloc = rt.alloc();
    for (words, status) in cases {
        let files = orders(alloc, b"", &[])?;
        let mut files = MemoryFiles::new(alloc, files, Vec::new(alloc));
        let (got, text) = ran(alloc, words, &mut files, 1000)?;
        assert_eq!(rt; got, *status);
        assert!(rt; *status != 1 || text.is_empty());
    }
    Ok(())
}

#[test]
fn words_are_accepted_as_clap_takes_them(rt: HostRuntime) -> Result<(), Fail> {
    check_words(
        &rt,
        &[
            (&["check", "--catalog", "b.json"], 0),
            (&["check", "--catalog=b.json"], 0),
            (&["check", "--catalog=b.json", "--"], 0),
            (&["check", "--catalog=c.json"], 8),
            (&["check"], 1),
            (&["check", "--catalog"], 1),
            (&["check", "b.json"], 1),
            (&["check", "--catalog=b.json", "b.json"], 1),
            (&["check", "--catalog=b.json", "--catalog=b.json"], 1),
            (&["check", "--data=x", "--catalog=b.json"], 1),
            (&["check", "--help"], 1),
            (&["check", "--catalog=b.json", "-h"], 1),
            (&["check", "--catalog=b.json", "--version"], 1),
            (&["check", "help"], 1),
            (&["Check", "--catalog=b.json"], 1),
            (&["--catalog=b.json"], 1),
            (&["--help"], 1),
            (&["script", "--help"], 1),
            (&["script", "--catalog=b.json"], 1),
            (&["script", "script"], 1),
            (&[], 1),
            // The source has a line that is no script line.
            (&["script", "--"], 2),
        ],
    )
}

#[test]
fn a_full_sink_ends_a_check(rt: HostRuntime) -> Result<(), Fail> {
    let alloc = rt.alloc();
    for (room, status, printed) in [
        (0, 4, b"".as_slice()),
        (8, 4, b"catalog:"),
        (REPORT.len(), 0, REPORT),
    ] {
        let files = orders(alloc, b"", &[])?;
        let mut files = MemoryFiles::new(alloc, files, Vec::new(alloc));
        let (got, text) = ran(alloc, &["check", "--catalog", "b.json"], &mut files, room)?;
        assert_eq!(rt; got, status);
        assert_eq!(rt; text.as_slice(), printed);
    }
    Ok(())
}

#[test]
fn files_of_the_system_are_checked(rt: HostRuntime) -> Result<(), Fail> {
    let alloc = rt.alloc();
    for (name, bytes) in [
        (
            "vtgate_cl_c.json",
            br#"{"keyspaces":[{"name":"k","shards":["-"],"vschema":"vtgate_cl_v","schema":"vtgate_cl_s"}]}"#.as_slice(),
        ),
        ("vtgate_cl_v", br#"{"x":1}"#.as_slice()),
        (
            "vtgate_cl_s",
            b"CREATE TABLE t (a INT, PRIMARY KEY (a));".as_slice(),
        ),
    ] {
        assert!(rt; fs::write(&rt, name, bytes).is_ok());
    }
    let long = vec![in alloc; b' '; 1_048_577]?;
    assert!(rt; fs::write(&rt, "vtgate_cl_long", long.as_slice()).is_ok());
    let mut files = FolderFiles::new(&rt, alloc);
    for (name, status, printed) in [
        (
            "vtgate_cl_c.json",
            0,
            "catalog: 1 keyspaces, 1 shards, 1 tables, 0 lookups\ntable k.t unsharded\nignored vtgate_cl_v/x\n",
        ),
        ("vtgate_cl_none.json", 8, ""),
        ("./vtgate_cl_none.json", 8, ""),
        // A folder stands in its place.
        ("/", 8, ""),
        ("vtgate_cl_long", 8, "file vtgate_cl_long is too long\n"),
        (
            "./vtgate_cl_c.json",
            0,
            "catalog: 1 keyspaces, 1 shards, 1 tables, 0 lookups\ntable k.t unsharded\nignored ./vtgate_cl_v/x\n",
        ),
        (
            "vtgate_cl_s",
            10,
            "catalog refused: vtgate_cl_s is not JSON\n",
        ),
    ] {
        let (got, text) = ran(alloc, &["check", "--catalog", name], &mut files, 1000)?;
        assert_eq!(rt; got, status, "{name}");
        assert_eq!(rt; text.as_slice(), printed.as_bytes(), "{name}");
    }
    for name in [
        "vtgate_cl_c.json",
        "vtgate_cl_v",
        "vtgate_cl_s",
        "vtgate_cl_long",
    ] {
        assert!(rt; fs::remove_file(&rt, name).is_ok());
    }
    Ok(())
}
