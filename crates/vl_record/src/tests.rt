ghost use Rattle.std.specs.Prelude.{◌≡◌, ◌∷◌, [], IfOk};
ghost use Rattle.vl_values.specs.declared.value.Value.TheVariants.{Uint};

use crate::{FileSide, ReadError, Rec, epoch_of, pick, read};
use std::alloc::Global;
use std::test::Fail;
use vl_catalog::Catalog;
use vl_values::group::Group;
use vl_values::key::Key;
use vl_values::row::Row;
use vl_values::value::Value;

// Side a of shard 0 of the built-in catalog: two records of one part each, a closed gate, and bytes behind it that look
// like open gates. The first gives row 1 of table 0 the value 7, the second removes the row.
static FILE: [u8; 133] = [
    0xa7, b'V', b'L', b'S', b'H', b'A', b'R', b'D', b'1', 0, 0, 0, 0, 1, 0, 0, 0, 0, 0, 0, 0, 0, 0,
    0, 0, 0, 0, 0, 0, 0, 0, 0, 0, 0, 0, 0, 0, 0xa7, 51, 0, 0, 0, 1, 0, 5, 0, 0, 0, 0, 0, 0, 0, 1,
    1, 0, 0, 0, 0, 0, 0, 0, 1, 0, 2, 1, 0, 0, 0, 0, 0, 0, 0, 1, 2, 0, 2, 1, 0, 0, 0, 0, 0, 0, 0, 2,
    7, 0, 0, 0, 0, 0, 0, 0, 0xa7, 31, 0, 0, 0, 1, 0, 6, 0, 0, 0, 0, 0, 0, 0, 1, 1, 0, 0, 0, 0, 0,
    0, 0, 1, 0, 2, 1, 0, 0, 0, 0, 0, 0, 0, 0, 0, 0xa7, 0xa7, 0xa7,
];

// The first and the last of bytes that are changed one at a time, all bits of each turned over, and the offset of the
// fault; 0 where the file is read.
static CHANGED: [(usize, usize, usize); 28] = [
    // the mark, each byte by itself
    (1, 1, 1),
    (4, 4, 4),
    (8, 8, 8),
    // the shard, the epoch, the last transaction: these three past their bounds, and within them
    (9, 12, 9),
    (13, 19, 0),
    (20, 20, 13),
    (21, 27, 0),
    (28, 28, 21),
    // more rows are due, and a key's table doesn't exist
    (29, 36, 37),
    // the gate is closed, and nothing behind it is read
    (37, 37, 0),
    // the body ends past the file, and its parts end before it
    (38, 41, 93),
    // more parts are due where the body ends
    (42, 43, 93),
    (44, 50, 0),
    (51, 51, 44),
    // the group
    (52, 52, 52),
    // more changes are due
    (53, 56, 93),
    // the key's table, its number of values, the leading byte of its value
    (57, 60, 57),
    (61, 62, 61),
    (63, 63, 63),
    // the row hasn't its key's values
    (64, 70, 73),
    // the key isn't on this shard
    (71, 71, 57),
    (72, 72, 72),
    (73, 74, 73),
    (75, 75, 75),
    (76, 83, 73),
    (84, 84, 84),
    (85, 92, 0),
    // the closed gate, and what follows it
    (129, 132, 0),
];

// The offset of the fault; 0 where the file is read.
fn told(alloc: Global, catalog: &Catalog, file: &[u8]) -> Result<usize, Fail> {
    let Some(_) = catalog.shard_count() else {
        return Err("shards that can be counted".into());
    };
    if file.is_empty() {
        return Err("a file with a gate".into());
    }
    match read(alloc, catalog, 0, file) {
        Ok(_) => Ok(0),
        Err(ReadError::NotOurs(offset)) => Ok(offset),
        Err(ReadError::Memory) => Err("memory".into()),
    }
}

#[test]
fn the_file_is_read_up_to_its_closed_gate(rt: HostRuntime) -> Result<(), Fail> {
    let catalog = Catalog::a(rt.alloc())?;
    let Some(_) = catalog.shard_count() else {
        return Err("shards that can be counted".into());
    };
    let Ok(held) = read(rt.alloc(), &catalog, 0, &FILE) else {
        return Err("a file of the format".into());
    };
    assert_eq!(rt; (held.epoch, held.last_tx), (1, 0));
    assert_eq!(rt; (held.first, held.end), (37, 129));
    assert_eq!(rt; (held.rows.len(), held.parts.len()), (0, 2));
    Ok(())
}

#[test]
fn each_changed_byte_is_told(rt: HostRuntime) -> Result<(), Fail> {
    let catalog = Catalog::a(rt.alloc())?;
    for (first, last, want) in CHANGED {
        for offset in first..=last {
            let mut file = FILE.to_vec(rt.alloc())?;
            if let Some(byte) = file.get_mut(offset) {
                *byte ^= 0xff;
            }
            assert_eq!(rt; told(rt.alloc(), &catalog, &file)?, want);
        }
    }
    Ok(())
}

// A file that ends too early is named by its length.
#[test]
fn each_prefix_is_told(rt: HostRuntime) -> Result<(), Fail> {
    let catalog = Catalog::a(rt.alloc())?;
    for len in 1..130 {
        assert_eq!(rt; told(rt.alloc(), &catalog, &FILE[..len])?, len);
    }
    Ok(())
}

// A record of transaction 5 and a closed gate: key 1 of table 0 has the row (1, 7), and key 2 is removed.
static COLLECTED: [u8; 72] = [
    67, 0, 0, 0, 1, 0, 5, 0, 0, 0, 0, 0, 0, 0, 1, 2, 0, 0, 0, 0, 0, 0, 0, 1, 0, 2, 1, 0, 0, 0, 0,
    0, 0, 0, 1, 2, 0, 2, 1, 0, 0, 0, 0, 0, 0, 0, 2, 7, 0, 0, 0, 0, 0, 0, 0, 0, 0, 0, 0, 1, 0, 2, 2,
    0, 0, 0, 0, 0, 0, 0, 0, 0,
];

fn key_of(alloc: Global, id: u64) -> Result<Key, Fail>
    ensures { IfOk result (λ key. key.pk ≡ Uint id ∷ []) }
{
    Ok(Key {
        table: 0,
        pk: Row::from_vec(vec![in alloc; Value::Uint(id)]?),
    })
}

fn put_row(alloc: Global, rec: &mut Rec, id: u64, u: u64) -> Result<(), Fail> {
    let key = key_of(alloc, id)?;
    let row = Row::from_vec(vec![in alloc; Value::Uint(id), Value::Uint(u)]?);
    rec.push(&key, Some(&row))?;
    Ok(())
}

fn remove_row(alloc: Global, rec: &mut Rec, id: u64) -> Result<(), Fail> {
    let key = key_of(alloc, id)?;
    rec.push(&key, None)?;
    Ok(())
}

// The changes stand in the order of their keys, each key with its last change, whatever order they came in.
#[test]
fn changes_stand_in_the_order_of_keys(rt: HostRuntime) -> Result<(), Fail> {
    let alloc = rt.alloc();
    let mut rec = Rec::new(alloc, 5, Group::Main);
    put_row(alloc, &mut rec, 2, 9)?;
    put_row(alloc, &mut rec, 1, 7)?;
    remove_row(alloc, &mut rec, 2)?;
    let mut bytes = Vec::new(alloc);
    rec.put_into(&mut bytes)?;
    assert_eq!(rt; bytes.as_slice(), &COLLECTED[..]);
    assert_eq!(rt; rec.len(), 72);
    Ok(())
}

// The epochs of side a and of side b, none where the file gate is closed, and the side in use.
static PICKED: [(Option<u64>, Option<u64>, FileSide); 6] = [
    (None, None, FileSide::A),
    (Some(1), None, FileSide::A),
    (None, Some(2), FileSide::B),
    (Some(1), Some(2), FileSide::B),
    (Some(3), Some(2), FileSide::A),
    (Some(2), Some(2), FileSide::A),
];

#[test]
fn the_greater_epoch_is_picked(rt: HostRuntime) -> Result<(), Fail> {
    for (a, b, want) in PICKED {
        assert_eq!(rt; pick(a, b), want);
    }
    assert_eq!(rt; epoch_of(0, &FILE).ok(), Some(Some(1)));
    assert_eq!(rt; epoch_of(0, &FILE[..29]).ok(), Some(Some(1)));
    assert_eq!(rt;
        epoch_of(0, &FILE[..28]).err(),
        Some(ReadError::NotOurs(28))
    );
    assert_eq!(rt; epoch_of(1, &FILE).err(), Some(ReadError::NotOurs(9)));
    assert_eq!(rt; epoch_of(0, &[0, 0xa7]).ok(), Some(None));
    Ok(())
}
