ghost use Rattle.std.specs.Prelude.{◌≡◌, length, slice_get};
ghost use Rattle.vl_commit.specs.Sessions.{sessions, start_of};

use vl_port::tx_state::TxState;
use vl_values::ShardNo;
use vl_values::group::Group;

/// How many sessions the transaction has.
pub(crate) fn session_count(tx: &TxState) -> usize
    ensures { result ≡ length (sessions tx.now) }
{
    tx.pre.as_slice().len() + tx.main.as_slice().len() + tx.post.as_slice().len()
}

/// The place of the group's first session.
pub(crate) fn first_place(tx: &TxState, group: Group) -> usize
    ensures { result ≡ start_of tx.now group }
{
    match group {
        Group::Pre => 0,
        Group::Main => tx.pre.as_slice().len(),
        Group::Post => tx.pre.as_slice().len() + tx.main.as_slice().len(),
    }
}

/// The session at this place, in the order in which they are committed.
pub(crate) fn session_at(tx: &TxState, at: usize) -> Option<(Group, ShardNo)>
    ensures { result ≡ slice_get (sessions tx.now) at }
{
    let pre = tx.pre.as_slice();
    if at < pre.len() {
        return Some((Group::Pre, pre[at]));
    }
    let at = at - pre.len();
    let main = tx.main.as_slice();
    if at < main.len() {
        return Some((Group::Main, main[at]));
    }
    let at = at - main.len();
    let post = tx.post.as_slice();
    if at < post.len() {
        return Some((Group::Post, post[at]));
    }
    None
}
