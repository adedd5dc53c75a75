ghost use Rattle.std.specs.Prelude.{IfOk};
ghost use Rattle.vl_rules.specs.Order.{Checked};

use crate::{joined_text, key_text, shard_name, shown};
use std::alloc::{AllocError, Global};
use std::process::Abort;
use std::test::Fail;
use vl_catalog::{Catalog, Keyspace};
use vl_rules::Check;
use vl_values::bytes::Bytes;
use vl_values::col_type::ColType;
use vl_values::items::Items;
use vl_values::key::Key;
use vl_values::row::Row;
use vl_values::value::Value;
use vl_vindex::{KeyRange, Ring};

fn bytes(alloc: Global, bytes: &[u8]) -> Result<Value, AllocError> {
    let bytes = Bytes::from_slice(alloc, bytes)?;
    Ok(Value::Bytes(bytes))
}

fn assert_shown(
    rt: &impl Abort,
    alloc: Global,
    ty: ColType,
    value: Value,
    want: &[u8],
) -> Result<(), Fail> {
    let text = shown(alloc, ty, &value)?;
    assert_eq!(rt; text.as_slice(), want);
    Ok(())
}

#[test]
fn null_and_numbers_are_shown_as_words_and_in_decimal(rt: HostRuntime) -> Result<(), Fail> {
    let alloc = rt.alloc();
    assert_shown(&rt, alloc, ColType::BigUint, Value::Null, b"NULL")?;
    assert_shown(&rt, alloc, ColType::VarChar(4), Value::Null, b"NULL")?;
    assert_shown(&rt, alloc, ColType::BigInt, Value::Int(-1), b"-1")?;
    assert_shown(&rt, alloc, ColType::Int, Value::Int(0), b"0")?;
    assert_shown(
        &rt,
        alloc,
        ColType::BigInt,
        Value::Int(i64::MIN),
        b"-9223372036854775808",
    )?;
    assert_shown(&rt, alloc, ColType::Uint32, Value::Uint(7), b"7")?;
    assert_shown(
        &rt,
        alloc,
        ColType::BigUint,
        Value::Uint(u64::MAX),
        b"18446744073709551615",
    )
}

#[test]
fn binary_strings_are_shown_in_hexadecimal(rt: HostRuntime) -> Result<(), Fail> {
    let alloc = rt.alloc();
    let ty = ColType::VarBinary(16);
    assert_shown(
        &rt,
        alloc,
        ty,
        bytes(alloc, &[0; 8])?,
        b"x'0000000000000000'",
    )?;
    assert_shown(&rt, alloc, ty, bytes(alloc, b"\x7f\xff\x0a")?, b"x'7fff0a'")?;
    assert_shown(&rt, alloc, ty, bytes(alloc, b"abc")?, b"x'616263'")?;
    assert_shown(&rt, alloc, ty, bytes(alloc, b"")?, b"x''")
}

#[test]
fn texts_are_shown_in_quotes_where_each_byte_stands_for_itself(
    rt: HostRuntime,
) -> Result<(), Fail> {
    let alloc = rt.alloc();
    let table: [(&[u8], &[u8]); 9] = [
        (b"", b"''"),
        (b"abc", b"'abc'"),
        (b" ~\"`", b"' ~\"`'"),
        (b"it's", b"x'69742773'"),
        (b"a\\b", b"x'615c62'"),
        (b"\x1f", b"x'1f'"),
        (b"\x7f", b"x'7f'"),
        (b"a\nb", b"x'610a62'"),
        (b"\xc3\xa9", b"x'c3a9'"),
    ];
    for (text, want) in table {
        assert_shown(&rt, alloc, ColType::VarChar(32), bytes(alloc, text)?, want)?;
    }
    Ok(())
}

fn assert_key(
    rt: &impl Abort,
    alloc: Global,
    table: u32,
    pk: Vec<Value>,
    want: &[u8],
) -> Result<(), Fail> {
    let catalog = Catalog::a(alloc)?;
    let key = Key {
        table,
        pk: Row::from_vec(pk),
    };
    let text = key_text(alloc, &catalog, &key)?;
    assert_eq!(rt; text.as_slice(), want);
    Ok(())
}

#[test]
fn keys_are_shown_by_the_types_of_their_columns(rt: HostRuntime) -> Result<(), Fail> {
    let alloc = rt.alloc();
    assert_key(&rt, alloc, 0, vec![in alloc; Value::Uint(1)]?, b"1")?;
    let abc = bytes(alloc, b"abc")?;
    assert_key(
        &rt,
        alloc,
        4,
        vec![in alloc; abc, Value::Uint(1)]?,
        b"'abc', 1",
    )?;
    let quote = bytes(alloc, b"'")?;
    assert_key(
        &rt,
        alloc,
        4,
        vec![in alloc; quote, Value::Uint(2)]?,
        b"x'27', 2",
    )
}

#[test]
fn values_without_a_column_are_shown_as_binary_strings(rt: HostRuntime) -> Result<(), Fail> {
    let alloc = rt.alloc();
    assert_key(&rt, alloc, 0, Vec::new(alloc), b"")?;
    let pk = vec![in alloc; bytes(alloc, b"a")?, Value::Uint(1), bytes(alloc, b"b")?]?;
    assert_key(&rt, alloc, 4, pk, b"'a', 1, x'62'")?;
    assert_key(
        &rt,
        alloc,
        5,
        vec![in alloc; bytes(alloc, b"a")?]?,
        b"x'61'",
    )
}

fn assert_joined(
    rt: &impl Abort,
    alloc: Global,
    values: &[Value],
    want: &[u8],
) -> Result<(), Fail> {
    let text = joined_text(alloc, values)?;
    assert_eq!(rt; text.as_slice(), want);
    Ok(())
}

#[test]
fn values_that_clash_are_joined_by_hyphens(rt: HostRuntime) -> Result<(), Fail> {
    let alloc = rt.alloc();
    let abc = bytes(alloc, b"abc")?;
    let quote = bytes(alloc, b"it's \\")?;
    let line = bytes(alloc, b"a\nb")?;
    let values = vec![in alloc;
        Value::Uint(5),
        Value::Int(-6),
        abc,
        quote,
        line,
        Value::Null,
        Value::Uint(7),
    ]?;
    assert_joined(&rt, alloc, &values, b"5--6-abc-it's \\-x'610a62'--7")?;
    assert_joined(&rt, alloc, &values[..1], b"5")?;
    assert_joined(&rt, alloc, &[], b"")
}

fn ring(alloc: Global, texts: &[&str]) -> Result<Ring, Fail> {
    let mut ranges = Vec::new(alloc);
    for text in texts {
        ranges.push(KeyRange::read(text.as_bytes()).ok().ok_or("a range")?)?;
    }
    match Ring::new(ranges) {
        Ok(ring) => Ok(ring),
        Err(_) => Err("a ring".into()),
    }
}

fn keyspace(alloc: Global, name: &[u8], sharded: bool) -> Result<Keyspace, AllocError> {
    Ok(Keyspace {
        name: Bytes::from_slice(alloc, name)?,
        sharded,
    })
}

fn keyspaces(alloc: Global) -> Result<Items<Keyspace>, AllocError> {
    let keyspaces = vec![in alloc;
        keyspace(alloc, b"commerce", true)?,
        keyspace(alloc, b"product", false)?,
        keyspace(alloc, &[b'k'; 64], true)?,
    ]?;
    Ok(Items::from_vec(keyspaces))
}

// The rings of these keyspaces. A side of the last has 32 digits.
fn rings(alloc: Global) -> Result<Items<Ring>, Fail> {
    let low = "-00112233445566778899aabbccddeeff";
    let middle = "00112233445566778899AABBCCDDEEFF-ffeeddccbbaa99887766554433221100";
    let high = "ffeeddccbbaa99887766554433221100-";
    let rings = vec![in alloc;
        ring(alloc, &["-40", "40-80", "80-c0", "c0-"])?,
        ring(alloc, &["-"])?,
        ring(alloc, &[low, middle, high])?,
    ]?;
    Ok(Items::from_vec(rings))
}

fn assert_name(rt: &impl Abort, catalog: &Catalog, shard: u32, want: &[u8]) -> Result<(), Fail>
    requires { Checked catalog.now }
{
    let name = shard_name(catalog, shard);
    assert_eq!(rt; name.as_slice(), want);
    Ok(())
}

fn checked(alloc: Global, catalog: Catalog) -> Result<Catalog, Fail>
    ensures { IfOk result Checked }
{
    match catalog.check(alloc) {
        Ok(()) => Ok(catalog),
        Err(_) => Err("a catalog that keeps its rules".into()),
    }
}

#[test]
fn shards_of_the_built_in_catalog_have_their_names(rt: HostRuntime) -> Result<(), Fail> {
    let alloc = rt.alloc();
    let catalog = checked(alloc, Catalog::a(alloc)?)?;
    assert_name(&rt, &catalog, 0, b"commerce/-80")?;
    assert_name(&rt, &catalog, 1, b"commerce/80-")?;
    assert_name(&rt, &catalog, 2, b"")
}

fn three_keyspaces(alloc: Global) -> Result<Catalog, Fail>
    ensures { IfOk result Checked }
{
    let catalog = Catalog {
        keyspaces: keyspaces(alloc)?,
        tables: Items::new(alloc),
        lookups: Items::new(alloc),
        rings: rings(alloc)?,
    };
    checked(alloc, catalog)
}

#[test]
fn shards_count_over_the_keyspaces(rt: HostRuntime) -> Result<(), Fail> {
    let alloc = rt.alloc();
    let catalog = three_keyspaces(alloc)?;
    assert_name(&rt, &catalog, 0, b"commerce/-40")?;
    assert_name(&rt, &catalog, 1, b"commerce/40-80")?;
    assert_name(&rt, &catalog, 3, b"commerce/c0-")?;
    assert_name(&rt, &catalog, 4, b"product/-")?;
    assert_name(&rt, &catalog, 8, b"")
}

// A keyspace's name of 64 bytes, and a range whose sides have 32 digits each: 130 bytes in all.
#[test]
fn the_longest_name_is_whole(rt: HostRuntime) -> Result<(), Fail> {
    let alloc = rt.alloc();
    let catalog = three_keyspaces(alloc)?;
    let mut want = Vec::from_slice(alloc, &[b'k'; 64])?;
    want.extend_from_slice(b"/00112233445566778899aabbccddeeff-ffeeddccbbaa99887766554433221100")?;
    assert_eq!(rt; want.len(), 130);
    assert_name(&rt, &catalog, 6, &want)
}
