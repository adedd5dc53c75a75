ghost use Rattle.std.specs.Prelude.{◌≡◌, ◌<◌, [], IfOk, OnErr, map, vec_capacity, vec_len};
ghost use Rattle.vl_lookup.specs.Answering.{passed_at, with_claim, with_passed};
ghost use Rattle.vl_lookup.specs.Stepping.{with_claimed};

use std::alloc::{AllocError, Global};
use vl_port::claimed::Claimed;
use vl_port::tx_state::TxState;
use vl_values::items::Items;
use vl_values::key::Key;

/// Takes the list of claimed keys out of the transaction, with room for one more.
pub(crate) fn take_claims(alloc: Global, tx: &mut TxState) -> Result<Vec<Claimed>, AllocError>
    ensures list { IfOk result (λ list. list.items ≡ tx.old.claimed) }
    ensures room { IfOk result (λ list. vec_len list < vec_capacity list) }
    ensures taken { IfOk result (λ list. tx.new ≡ with_claimed [] tx.old) }
    ensures err { OnErr result (tx.new ≡ tx.old) }
{
    let claimed = std::mem::replace(&mut tx.claimed, Items::new(alloc));
    let mut list = claimed.into_vec();
    match list.reserve(1) {
        Ok(()) => Ok(list),
        Err(full) => {
            tx.claimed = Items::from_vec(list);
            Err(full)
        }
    }
}

/// Gives the transaction its list of claimed keys.
pub(crate) fn give_claims(tx: &mut TxState, list: Vec<Claimed>)
    ensures { tx.new ≡ with_claimed list.items tx.old }
{
    tx.claimed = Items::from_vec(list);
}

/// Gives the transaction its list of claimed keys with one more behind the others. There is room for it.
pub(crate) fn add_claim(tx: &mut TxState, list: Vec<Claimed>, key: Key, passed: bool)
    requires { vec_len list < vec_capacity list }
    ensures { tx.new ≡ with_claimed (with_claim key passed list.items) tx.old }
{
    let mut list = list;
    let Ok(()) = list.push(Claimed { key, passed }) else {
        unreachable!()
    };
    give_claims(tx, list);
}

fn flag(claimed: &mut Claimed, key: &Key)
    ensures { claimed.new ≡ passed_at key.now claimed.old }
{
    if claimed.key == *key {
        claimed.passed = true;
    }
}

fn flag_all(list: &mut [Claimed], key: &Key)
    ensures { list.new ≡ map (passed_at key.now) list.old }
{
    for claimed in list.iter_mut() {
        flag(claimed, key);
    }
}

/// The claim of the key has passed. It takes no memory.
pub(crate) fn pass_claim(alloc: Global, tx: &mut TxState, key: &Key)
    ensures { tx.new ≡ with_claimed (with_passed key.now tx.old.claimed) tx.old }
{
    let claimed = std::mem::replace(&mut tx.claimed, Items::new(alloc));
    let mut list = claimed.into_vec();
    flag_all(list.as_mut_slice(), key);
    tx.claimed = Items::from_vec(list);
}
