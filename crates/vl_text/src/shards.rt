ghost use Rattle.std.specs.Prelude.{◌≡◌, ◌+◌, ◌*◌, ◌≤◌, ◌++◌, [], false, length, slice_index_or};
ghost use Rattle.std.specs.List.{list_any};
ghost use Rattle.arrayvec.specs.ArrayVec.{array_vec_len};
ghost use Rattle.hex.specs.Hex.{encode_lower};
ghost use Rattle.vl_rules.specs.Limits.{is_long};
ghost use Rattle.vl_rules.specs.Order.{Checked};
ghost use Rattle.vl_text.specs.ShardText.{names_in, range_name, shard_text};

use arrayvec::ArrayVec;
use vl_catalog::{Catalog, Keyspace, ShardNo};
use vl_values::shard_name::ShardName;
use vl_vindex::{KeyRange, Ring};

// Adds two lower case digits for each byte of a side.
fn push_side(name: &mut ArrayVec<u8, 130>, side: &[u8])
    requires within { length side.now ≤ 16 }
    requires room { array_vec_len name.old + 2 * length side.now ≤ 130 }
    ensures digits { name.new.items ≡ name.old.items ++ encode_lower side.now }
    ensures len { array_vec_len name.new ≡ array_vec_len name.old + 2 * length side.now }
{
    let mut digits = [0; 32];
    let text = &mut digits[..2 * side.len()];
    let _ = hex::encode_to_slice(side, text);
    name.try_extend_from_slice(text).unwrap();
}

// The name of the shard of this range in a keyspace.
fn range_name(keyspace: &[u8], range: &KeyRange) -> ShardName
    requires { length keyspace.now ≤ 64 }
    ensures { result ≡ range_name keyspace.now range.now }
{
    let mut name = ArrayVec::<u8, 130>::new();
    name.try_extend_from_slice(keyspace).unwrap();
    name.push(b'/');
    push_side(&mut name, range.start().as_slice());
    name.push(b'-');
    push_side(&mut name, range.end().as_slice());
    ShardName::new(name.as_slice())
}

// The name of shard n of these keyspaces, each of which has a ring.
fn name_in(keyspaces: &[Keyspace], rings: &[Ring], n: usize) -> ShardName
    requires { list_any (λ keyspace. is_long keyspace.name) keyspaces.now ≡ false }
    ensures { result ≡ slice_index_or (names_in keyspaces.now rings.now) n [] }
{
    let [keyspace, others @ ..] = keyspaces else {
        return ShardName::new(b"");
    };
    let [ring, rest @ ..] = rings else {
        return ShardName::new(b"");
    };
    let ranges = ring.ranges();
    if n < ranges.len() {
        return range_name(keyspace.name.as_slice(), &ranges[n]);
    }
    name_in(others, rest, n - ranges.len())
}

/// The name of a shard: its keyspace and its range, as `commerce/-80`; no bytes where the catalog has
/// no such shard. It takes no memory.
pub fn shard_name(catalog: &Catalog, shard: ShardNo) -> ShardName
    requires checked { Checked catalog.now }
    ensures { result ≡ shard_text catalog.now shard }
{
    name_in(
        catalog.keyspaces.as_slice(),
        catalog.rings.as_slice(),
        shard as usize,
    )
}
