ghost use Rattle.std.specs.Prelude.{◌≡◌, ◌<◌, ◌^◌, [], ◌∷◌, IfOk, OnOk, length};
ghost use Rattle.std.specs.BTreeMap.{get};
ghost use Rattle.std.specs.List.{cons_option, filter_map};
ghost use Rattle.std.specs.Option.{option_or};
ghost use Rattle.vl_audit.specs.Gathering.{first_given, given_from};

use crate::gives::Gives;
use std::alloc::{AllocError, Global};
use std::collections::BTreeMap;
use vl_values::ShardNo;
use vl_values::items::Items;
use vl_values::key::Key;
use vl_values::row::Row;

// Adds a key with its value, unless it is there.
fn add<K: Ord + Drop, V: Drop>(map: &mut BTreeMap<K, V>, key: K, value: V) -> Result<(), AllocError>
    ensures { OnOk result ((q : K) → get K.cmp map.new q ≡ option_or (get K.cmp map.old q) (first_given K.cmp ((key, value) ∷ []) q)) }
{
    if map.contains_key(&key) {
        return Ok(());
    }
    map.insert(key, value)?;
    Ok(())
}

// Adds what is given, if anything is.
#[tactic(auto, using(crate::proofs::Given::or_none))]
fn add_given<K: Ord + Drop, V: Drop>(
    map: &mut BTreeMap<K, V>,
    given: Option<(K, V)>,
) -> Result<(), AllocError>
    ensures { OnOk result ((q : K) → get K.cmp map.new q ≡ option_or (get K.cmp map.old q) (first_given K.cmp (cons_option given []) q)) }
{
    match given {
        None => Ok(()),
        Some((key, value)) => add(map, key, value),
    }
}

// Adds what the rows of one shard give.
#[tactic(auto, using(crate::proofs::Given::or_none))]
fn gather_on<K: Ord + Drop, V: Drop, G: Gives<K, V>>(
    alloc: Global,
    giver: &G,
    shard: ShardNo,
    pairs: &[(Key, Row)],
    map: &mut BTreeMap<K, V>,
) -> Result<(), AllocError>
    ensures { OnOk result ((q : K) → get K.cmp map.new q ≡ option_or (get K.cmp map.old q) (first_given K.cmp (filter_map (G.gives giver.now shard) pairs.now) q)) }
{
    for pair in pairs {
        let given = giver.given(alloc, shard, pair)?;
        add_given(map, given)?;
    }
    Ok(())
}

/// Adds what the rows of all shards give, unless a key is there.
#[tactic(auto, using(crate::proofs::Given::or_none))]
pub(crate) fn gather<K: Ord + Drop, V: Drop, G: Gives<K, V>>(
    alloc: Global,
    giver: &G,
    tables: &[Items<(Key, Row)>],
    map: &mut BTreeMap<K, V>,
) -> Result<(), AllocError>
    requires { length tables.now < 2 ^ 32 }
    ensures { OnOk result ((q : K) → get K.cmp map.new q ≡ option_or (get K.cmp map.old q) (first_given K.cmp (given_from (G.gives giver.now) 0 tables.now) q)) }
{
    for (shard, pairs) in tables.iter().enumerate() {
        gather_on(alloc, giver, shard as ShardNo, pairs.as_slice(), map)?;
    }
    Ok(())
}

/// What the rows of all shards give.
pub(crate) fn gathered<K: Ord + Drop, V: Drop, G: Gives<K, V>>(
    alloc: Global,
    giver: &G,
    tables: &[Items<(Key, Row)>],
) -> Result<BTreeMap<K, V>, AllocError>
    requires { length tables.now < 2 ^ 32 }
    ensures { IfOk result (λ map. (q : K) → get K.cmp map q ≡ first_given K.cmp (given_from (G.gives giver.now) 0 tables.now) q) }
{
    let mut map = BTreeMap::new(alloc);
    gather(alloc, giver, tables, &mut map)?;
    Ok(map)
}
