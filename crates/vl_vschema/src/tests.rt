use crate::{VschemaFault, read_catalog, read_vschema};
use std::alloc::Global;
use std::test::Fail;
use vl_catalog::{LookupDef, TableVschema, VindexDef, VindexKind};
use vl_values::bytes::Bytes;
use vl_values::items::Items;

// The number of the rule that refuses a file, and the path.
fn refusal(fault: VschemaFault) -> Result<(u8, Vec<u8>), Fail> {
    match fault {
        VschemaFault::Broken { path, rule } => Ok((rule.number(), path.into_vec())),
        VschemaFault::NotJson => Err("is not JSON".into()),
        VschemaFault::Memory => Err("no memory".into()),
    }
}

fn vschema_refusal(alloc: Global, text: &str) -> Result<(u8, Vec<u8>), Fail> {
    match read_vschema(alloc, text.as_bytes()) {
        Ok(_) => Err("was read".into()),
        Err(fault) => refusal(fault),
    }
}

fn catalog_refusal(alloc: Global, text: &str) -> Result<(u8, Vec<u8>), Fail> {
    match read_catalog(alloc, text.as_bytes()) {
        Ok(_) => Err("was read".into()),
        Err(fault) => refusal(fault),
    }
}

#[test]
fn wrong_kinds_and_types_are_refused(rt: HostRuntime) -> Result<(), Fail> {
    let table = [
        ("[]", 1, ""),
        (r#"{"sharded":1,"vindexes":[]}"#, 1, "sharded"),
        (
            r#"{"vindexes":{"b":{"type":0},"a":{"params":{"x":0}}}}"#,
            1,
            "vindexes/a/params/x",
        ),
        (
            r#"{"tables":{"t":{"column_vindexes":[{"columns":["a",0]}]}}}"#,
            1,
            "tables/t/column_vindexes/0/columns/1",
        ),
        (r#"{"vindexes":{"n":{}}}"#, 2, "vindexes/n"),
        (
            r#"{"vindexes":{"n":{"type":"hash"}}}"#,
            2,
            "vindexes/n/type",
        ),
        (
            r#"{"vindexes":{"b":{"type":"hash"},"a/c":{}}}"#,
            2,
            "vindexes/a/c",
        ),
    ];
    for (text, rule, path) in table {
        let got = vschema_refusal(rt.alloc(), text)?;
        assert_eq!(rt; got.0, rule);
        assert!(rt; got.1.as_slice() == path.as_bytes());
    }
    Ok(())
}

#[test]
fn lookups_that_lack_something_are_refused(rt: HostRuntime) -> Result<(), Fail> {
    let table = [
        (
            r#"{"vindexes":{"l":{"type":"consistent_lookup","owner":"t"}}}"#,
            3,
            "vindexes/l",
        ),
        (
            r#"{"vindexes":{"l":{"type":"consistent_lookup_unique","params":{"table":"a","from":"b","to":"c"}}}}"#,
            3,
            "vindexes/l",
        ),
        (
            r#"{"vindexes":{"l":{"type":"consistent_lookup","owner":"t","params":{"table":"a","from":"b"}}}}"#,
            3,
            "vindexes/l/params",
        ),
        (
            r#"{"vindexes":{"l":{"type":"consistent_lookup","owner":"t","params":{"table":"a","from":"b","to":"c","write_only":"yes"}}}}"#,
            6,
            "vindexes/l/params/write_only",
        ),
        (
            r#"{"vindexes":{"l":{"type":"consistent_lookup","owner":"t","params":{"table":"a","from":"b","to":"c","write_only":"1","ignore_nulls":""}}}}"#,
            6,
            "vindexes/l/params/ignore_nulls",
        ),
        (
            r#"{"vindexes":{"l":{"type":"consistent_lookup_unique","owner":"t","params":{"table":"a","from":"b","to":"c","ignore_nulls":"True"}}}}"#,
            6,
            "vindexes/l/params/ignore_nulls",
        ),
    ];
    for (text, rule, path) in table {
        let got = vschema_refusal(rt.alloc(), text)?;
        assert_eq!(rt; got.0, rule);
        assert!(rt; got.1.as_slice() == path.as_bytes());
    }
    Ok(())
}

#[test]
fn wrong_tables_are_refused(rt: HostRuntime) -> Result<(), Fail> {
    let table = [
        (
            r#"{"tables":{"t":{"column_vindexes":[{"column":"a","name":"n"}]}}}"#,
            4,
            "tables/t/column_vindexes/0/name",
        ),
        (
            r#"{"vindexes":{"n":{"type":"numeric"}},"tables":{"t":{"column_vindexes":[{"column":"a","name":"n"},{"name":"n"}]}}}"#,
            4,
            "tables/t/column_vindexes/1",
        ),
        (
            r#"{"vindexes":{"n":{"type":"numeric"}},"tables":{"t":{"column_vindexes":[{"column":"a","columns":["a"],"name":"n"}]}}}"#,
            4,
            "tables/t/column_vindexes/0",
        ),
        (
            r#"{"vindexes":{"n":{"type":"numeric"}},"tables":{"t":{"column_vindexes":[{"column":"a"}],"pinned":1}}}"#,
            4,
            "tables/t/column_vindexes/0",
        ),
        (
            r#"{"tables":{"t":{"type":"sequence"}}}"#,
            5,
            "tables/t/type",
        ),
        (r#"{"tables":{"t":{"type":0}}}"#, 5, "tables/t/type"),
        (
            r#"{"tables":{"t":{"type":"","pinned":"00"}}}"#,
            5,
            "tables/t/pinned",
        ),
    ];
    for (text, rule, path) in table {
        let got = vschema_refusal(rt.alloc(), text)?;
        assert_eq!(rt; got.0, rule);
        assert!(rt; got.1.as_slice() == path.as_bytes());
    }
    Ok(())
}

#[test]
fn wrong_catalog_files_are_refused(rt: HostRuntime) -> Result<(), Fail> {
    let table = [
        ("0", ""),
        ("{}", ""),
        (r#"{"keyspaces":{}}"#, "keyspaces"),
        (
            r#"{"keyspaces":[{"name":"a","shards":["-"],"vschema":"a","schema":1}]}"#,
            "keyspaces/0/schema",
        ),
        (
            r#"{"keyspaces":[{"name":"a","shards":["-",0],"vschema":"a","schema":"b"}]}"#,
            "keyspaces/0/shards/1",
        ),
        (
            r#"{"keyspaces":[{"name":"a","shards":["-"],"vschema":"a"}]}"#,
            "keyspaces/0",
        ),
        (
            r#"{"keyspaces":[{"name":"a","shards":[],"vschema":"a","schema":"b"},{"name":"b","shards":[],"vschema":"a","schema":"b"},{"name":"a","shards":[],"vschema":"a","schema":"b"}]}"#,
            "keyspaces/2/name",
        ),
    ];
    for (text, path) in table {
        let got = catalog_refusal(rt.alloc(), text)?;
        assert_eq!(rt; got.0, 1);
        assert!(rt; got.1.as_slice() == path.as_bytes());
    }
    Ok(())
}

#[test]
fn what_is_no_json_is_refused(rt: HostRuntime) -> Result<(), Fail> {
    let table: [&[u8]; 5] = [b"", b"{", b"{\"a\":}", b"\"\xff\"", b"{} {}"];
    for bytes in table {
        let vschema = read_vschema(rt.alloc(), bytes);
        assert!(rt; matches!(vschema, Err(VschemaFault::NotJson)));
        let catalog = read_catalog(rt.alloc(), bytes);
        assert!(rt; matches!(catalog, Err(VschemaFault::NotJson)));
    }
    Ok(())
}

const CATALOG: &str = r#"{"keyspaces":[
 {"name":"commerce","shards":["-40","40-80","80-c0","c0-"],"vschema":"commerce.json","schema":"commerce.sql"},
 {"name":"product","shards":["-"],"vschema":"product.json","schema":"product.sql"}]}"#;

const COMMERCE: &str = r#"{"sharded":true,"vindexes":{"num":{"type":"numeric"},
 "corder_order":{"type":"consistent_lookup_unique","owner":"corder",
  "params":{"table":"product.corder_order_idx","from":"order_id","to":"keyspace_id"}}},
 "tables":{"corder":{"column_vindexes":[{"column":"customer_id","name":"num"},
  {"column":"order_id","name":"corder_order"}]}}}"#;

const EVERYTHING: &str =
    r#"{"routing":0,"vindexes":{"n":{"type":"numeric","owner":"t","params":{"b":"","a":""},"x":{"y":0}},
 "l":{"type":"consistent_lookup","owner":"t","params":{"table":"k.a.b","from":" b , c d","to":"e","batch":"1","write_only":"true"}}},
 "tables":{"t":{"type":"","column_vindexes":[{"columns":["b","c d"],"name":"l","z":null}],"columns":[]}},
 "vindexes/n":[]}"#;

// The names, separated by `|`.
fn joined(alloc: Global, names: &Items<Bytes>) -> Result<Vec<u8>, Fail> {
    let mut all = Vec::new(alloc);
    for name in names.as_slice() {
        all.extend_from_slice(name.as_slice())?;
        all.push(b'|')?;
    }
    Ok(all)
}

#[test]
fn the_keyspaces_of_a_catalog_are_read(rt: HostRuntime) -> Result<(), Fail> {
    let keyspaces = read_catalog(rt.alloc(), CATALOG.as_bytes()).map_err(|_| "refused")?;
    let table = [
        (
            "commerce",
            "-40|40-80|80-c0|c0-|",
            "commerce.json",
            "commerce.sql",
        ),
        ("product", "-|", "product.json", "product.sql"),
    ];
    assert_eq!(rt; keyspaces.len(), 2);
    for (keyspace, (name, shards, vschema, schema)) in keyspaces.as_slice().iter().zip(table) {
        assert!(rt; keyspace.name.as_slice() == name.as_bytes());
        assert!(rt; joined(rt.alloc(), &keyspace.shards)?.as_slice() == shards.as_bytes());
        assert!(rt; keyspace.vschema.as_str() == vschema);
        assert!(rt; keyspace.schema.as_str() == schema);
    }
    Ok(())
}

// The lookup of this place among the vindexes.
fn lookup_at(vindexes: &[VindexDef], place: usize) -> Option<&LookupDef> {
    match &vindexes.get(place)?.kind {
        VindexKind::Lookup(def) => Some(def),
        VindexKind::Primary(_) => None,
    }
}

fn text_of(alloc: Global, bytes: Option<&Bytes>) -> Result<Vec<u8>, Fail> {
    match bytes {
        Some(bytes) => Ok(Vec::from_slice(alloc, bytes.as_slice())?),
        None => Ok(Vec::from_slice(alloc, b"none")?),
    }
}

// What a lookup says, separated by `|`.
fn lookup_text(alloc: Global, def: &LookupDef) -> Result<Vec<u8>, Fail> {
    let mut all = text_of(alloc, Some(&def.owner))?;
    all.push(b'|')?;
    all.extend_from_slice(text_of(alloc, def.keyspace.as_ref())?.as_slice())?;
    all.push(b'|')?;
    all.extend_from_slice(def.table.as_slice())?;
    all.push(b'|')?;
    all.extend_from_slice(joined(alloc, &def.from)?.as_slice())?;
    all.extend_from_slice(def.to.as_slice())?;
    Ok(all)
}

// What a table says, separated by `|`.
fn table_text(alloc: Global, table: &TableVschema) -> Result<Vec<u8>, Fail> {
    let mut all = text_of(alloc, Some(&table.name))?;
    for column_vindex in table.column_vindexes.as_slice() {
        all.push(b'|')?;
        all.extend_from_slice(column_vindex.vindex.as_slice())?;
        all.push(b':')?;
        all.extend_from_slice(joined(alloc, &column_vindex.columns)?.as_slice())?;
    }
    Ok(all)
}

#[test]
fn a_vschema_is_read(rt: HostRuntime) -> Result<(), Fail> {
    let alloc = rt.alloc();
    let vschema = read_vschema(alloc, COMMERCE.as_bytes()).map_err(|_| "refused")?;
    assert!(rt; vschema.sharded);
    assert_eq!(rt; vschema.vindexes.len(), 2);
    let def = lookup_at(vschema.vindexes.as_slice(), 0).ok_or("a lookup")?;
    assert!(rt; def.unique && !def.ignore_nulls && !def.write_only);
    assert!(rt;
        lookup_text(alloc, def)?.as_slice()
            == b"corder|product|corder_order_idx|order_id|keyspace_id".as_slice()
    );
    let table = vschema.tables.as_slice().first().ok_or("a table")?;
    assert!(rt;
        table_text(alloc, table)?.as_slice()
            == b"corder|num:customer_id||corder_order:order_id|".as_slice()
    );
    assert!(rt; vschema.ignored.is_empty());
    Ok(())
}

#[test]
fn what_is_missing_is_empty(rt: HostRuntime) -> Result<(), Fail> {
    let product = r#"{"tables":{"corder_order_idx":{}}}"#;
    let vschema = read_vschema(rt.alloc(), product.as_bytes()).map_err(|_| "refused")?;
    assert!(rt; !vschema.sharded);
    assert_eq!(rt; vschema.vindexes.len(), 0);
    let table = vschema.tables.as_slice().first().ok_or("a table")?;
    assert!(rt; table_text(rt.alloc(), table)?.as_slice() == b"corder_order_idx".as_slice());
    assert!(rt; vschema.ignored.is_empty());
    Ok(())
}

#[test]
fn what_is_ignored_is_listed(rt: HostRuntime) -> Result<(), Fail> {
    let alloc = rt.alloc();
    let vschema = read_vschema(alloc, EVERYTHING.as_bytes()).map_err(|_| "refused")?;
    let def = lookup_at(vschema.vindexes.as_slice(), 0).ok_or("a lookup")?;
    assert!(rt; !def.unique && !def.ignore_nulls && def.write_only);
    assert!(rt; lookup_text(alloc, def)?.as_slice() == b"t|k|a.b|b|c d|e".as_slice());
    assert!(rt;
        joined(alloc, &vschema.ignored)?.as_slice()
            == b"routing|tables/t/column_vindexes/0/z|tables/t/columns|vindexes/l/params/batch|vindexes/n|vindexes/n/owner|vindexes/n/params/a|vindexes/n/params/b|vindexes/n/x|".as_slice()
    );
    Ok(())
}
