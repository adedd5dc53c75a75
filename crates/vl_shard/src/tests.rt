ghost use Rattle.std.specs.Prelude.{◌≡◌, ◌<◌, ◌∷◌, ℕ, [], false, IfOk};
ghost use Rattle.vl_values.specs.declared.value.Value.TheVariants as values;
ghost use Rattle.vl_catalog.specs.CatalogA.{catalog_a};
ghost use Rattle.vl_catalog.specs.Fitting.{FitsPred, IsPlacedRow};
ghost use Rattle.vl_port.specs.Placing.{IsActOn, IsValueIn};
ghost use Rattle.vl_port.specs.Taking.{takes_keys};

use crate::bank::Bank;
use std::alloc::{AllocError, Global};
use std::process::Abort;
use std::test::Fail;
use vl_catalog::Catalog;
use vl_port::act::Act;
use vl_port::answer::Answer;
use vl_port::carried::Carried::{self, LostAfter, LostBefore, Passed};
use vl_port::committed::Committed;
use vl_port::loss::Loss;
use vl_port::port::ShardPort;
use vl_port::script_link::ScriptLink;
use vl_port::who::Who;
use vl_values::SessionNo;
use vl_values::group::Group::{self, Main, Post, Pre};
use vl_values::key::Key;
use vl_values::lost_why::LostWhy;
use vl_values::pred::Pred;
use vl_values::row::Row;
use vl_values::test::Test;
use vl_values::tests::Tests;
use vl_values::value::Value;

// The table t1 of the built-in catalog: a number that is the key, and one more.
const TABLE: u32 = 0;

#[derive(Clone, Copy, Debug)]
enum Call {
    Insert(u64, u64),
    Put(u64, u64),
    Remove(u64),
    RemoveIf(u64, u64),
    /// A read of the rows with this number.
    Find(u64),
    /// The same, locking.
    Lock(u64),
    /// A locking read of the row with this key.
    LockKey(u64),
    /// A read of the rows with this number, without a shard session.
    Look(u64),
    Commit,
    Close,
    /// Kills a session.
    Kill,
    /// The link is to lose the next message, or its answer.
    Lose(bool),
}

#[derive(Clone, Copy, Debug, PartialEq, Eq)]
enum Told {
    Done,
    Unchanged,
    /// The keys of the rows, as digits.
    Keys(u64),
    /// The number of the row that was met.
    Found(u64),
    /// The session in the way, and the key.
    Held(SessionNo, u64),
    Lost(LostWhy),
    /// There was no session to be killed.
    Nobody,
    Other,
}

const CUT: Told = Told::Lost(LostWhy::Link);

const DROPPED: Told = Told::Lost(LostWhy::Dropped);

// A client session and the group of its shard session, its call, what it is told, and the way that
// the last message took.
type Step = (SessionNo, Group, Call, Told, Carried);

fn values(alloc: Global, number: u64) -> Result<Row, AllocError>
    ensures { IfOk result (λ row. row ≡ values.Uint number ∷ []) }
{
    let mut row = Vec::new(alloc);
    row.push(Value::Uint(number))?;
    Ok(Row::from_vec(row))
}

fn row(alloc: Global, number: u64, value: u64) -> Result<Row, AllocError>
    ensures { IfOk result (λ row. row ≡ values.Uint number ∷ values.Uint value ∷ []) }
{
    let mut row = Vec::new(alloc);
    row.push(Value::Uint(number))?;
    row.push(Value::Uint(value))?;
    Ok(Row::from_vec(row))
}

// A value of the second column.
fn value(number: u64) -> Value
    ensures { IsValueIn catalog_a 0 1 result }
{
    Value::Uint(number)
}

// A row on the first shard, with its key.
fn entry(alloc: Global, catalog: &Catalog, number: u64, value: u64) -> Result<(Key, Row), Fail>
    requires { catalog.now ≡ catalog_a }
    ensures table { IfOk result (λ entry. entry.0.table ≡ 0) }
    ensures placed { IfOk result (λ entry. IsPlacedRow catalog_a 0 entry.0 entry.1) }
{
    let pk = values(alloc, number)?;
    let row = row(alloc, number, value)?;
    if catalog.place_of(TABLE, row.as_slice()) != Some(0) {
        return Err("a row of another shard".into());
    }
    Ok((Key { table: TABLE, pk }, row))
}

fn pred(alloc: Global, column: u16, value: u64) -> Result<Pred, AllocError>
    requires { column < 2 }
    ensures { IfOk result (λ pred. FitsPred catalog_a pred) }
{
    let mut tests = Vec::new(alloc);
    let values = values(alloc, value)?;
    tests.push(Test { column, values })?;
    Ok(Pred {
        table: TABLE,
        tests: Tests::from_vec(tests),
    })
}

fn plain(alloc: Global, value: u64) -> Result<Act, AllocError>
    ensures plain { IfOk result (λ act. takes_keys act ≡ false) }
    ensures fits { IfOk result (λ act. (shard : ℕ) → IsActOn catalog_a shard act) }
{
    let pred = pred(alloc, 1, value)?;
    Ok(Act::Find {
        pred,
        locking: false,
    })
}

fn act_of(alloc: Global, catalog: &Catalog, call: Call) -> Result<Act, Fail>
    requires { catalog.now ≡ catalog_a }
    ensures { IfOk result (λ act. IsActOn catalog_a 0 act) }
{
    match call {
        Call::Insert(number, value) => {
            let (key, row) = entry(alloc, catalog, number, value)?;
            Ok(Act::Insert { key, row })
        }
        Call::Put(number, value) => {
            let (key, row) = entry(alloc, catalog, number, value)?;
            Ok(Act::Put { key, row })
        }
        Call::Remove(number) => {
            let (key, _) = entry(alloc, catalog, number, 0)?;
            Ok(Act::Remove { key })
        }
        Call::RemoveIf(number, other) => {
            let (key, _) = entry(alloc, catalog, number, 0)?;
            let value = value(other);
            Ok(Act::RemoveIf {
                key,
                column: 1,
                value,
            })
        }
        Call::Lock(value) => {
            let pred = pred(alloc, 1, value)?;
            Ok(Act::Find {
                pred,
                locking: true,
            })
        }
        Call::LockKey(number) => {
            let pred = pred(alloc, 0, number)?;
            Ok(Act::Find {
                pred,
                locking: true,
            })
        }
        Call::Find(value) | Call::Look(value) => Ok(plain(alloc, value)?),
        Call::Commit | Call::Close | Call::Kill | Call::Lose(_) => Ok(plain(alloc, 0)?),
    }
}

fn digit(key: &Key) -> u64 {
    match key.pk.as_slice() {
        [Value::Uint(number)] => number % 10,
        _ => 0,
    }
}

fn digits(rows: &[(Key, Row)]) -> u64 {
    let mut digits: u64 = 0;
    for (key, _) in rows {
        digits = digits.wrapping_mul(10).wrapping_add(digit(key));
    }
    digits
}

fn number(row: &Row) -> u64 {
    match row.as_slice() {
        [_, Value::Uint(number)] => *number,
        _ => 0,
    }
}

fn answered(answer: &Answer) -> Told {
    match answer {
        Answer::Done => Told::Done,
        Answer::Unchanged => Told::Unchanged,
        Answer::Rows(rows) => Told::Keys(digits(rows.as_slice())),
        Answer::Found { row, .. } => Told::Found(number(row)),
        Answer::Held { by, key } => Told::Held(*by, digit(key)),
        Answer::Lost(why) => Told::Lost(*why),
        _ => Told::Other,
    }
}

fn committed(outcome: Committed) -> Told {
    match outcome {
        Committed::Done => Told::Done,
        Committed::Lost(why) => Told::Lost(why),
        Committed::Device => Told::Other,
    }
}

fn who(session: SessionNo, group: Option<Group>) -> Who
    ensures { result.group ≡ group }
{
    Who {
        session,
        tx: u64::from(session),
        group,
    }
}

// What the first of the two shards answers.
fn ask(
    alloc: Global,
    bank: &mut Bank<ScriptLink>,
    session: SessionNo,
    group: Group,
    call: Call,
) -> Result<Told, Fail>
    requires { bank.old.catalog ≡ catalog_a }
    ensures { bank.new.catalog ≡ bank.old.catalog }
{
    if bank.len() != 2 {
        return Ok(Told::Other);
    }
    let own = who(session, Some(group));
    match call {
        Call::Lose(after) => {
            bank.link_mut().arm(0, Loss { nth: 1, after });
            Ok(Told::Done)
        }
        Call::Kill => {
            let found = bank.drop_session(session, group, 0);
            Ok(if found { Told::Done } else { Told::Nobody })
        }
        Call::Commit => Ok(committed(bank.commit(own, 0))),
        Call::Close => {
            bank.close(own, 0);
            Ok(Told::Done)
        }
        Call::Look(value) => {
            let act = plain(alloc, value)?;
            Ok(answered(&bank.act(who(session, None), 0, &act)))
        }
        _ => {
            let act = act_of(alloc, bank.catalog(), call)?;
            Ok(answered(&bank.act(own, 0, &act)))
        }
    }
}

// What a read of the second shard finds.
fn second(alloc: Global, bank: &mut Bank<ScriptLink>, value: u64) -> Result<Told, AllocError>
    requires { bank.old.catalog ≡ catalog_a }
{
    if bank.len() != 2 {
        return Ok(Told::Other);
    }
    let act = plain(alloc, value)?;
    Ok(answered(&bank.act(who(9, None), 1, &act)))
}

// How many messages were carried to each of the two shards.
fn carried(bank: &Bank<ScriptLink>) -> (u64, u64) {
    if bank.len() != 2 {
        return (0, 0);
    }
    (bank.carried(0), bank.carried(1))
}

// Whether the call is an act or a commit, which the link carries.
fn is_message(call: Call) -> bool {
    !matches!(call, Call::Close | Call::Kill | Call::Lose(_))
}

fn new_bank(alloc: Global) -> Result<Bank<ScriptLink>, AllocError>
    ensures { IfOk result (λ bank. bank.catalog ≡ catalog_a) }
{
    let catalog = Catalog::a(alloc)?;
    let link = ScriptLink::new(alloc, 2)?;
    Bank::new(alloc, &catalog, link)
}

// Each call by its session, with what it is to answer. All are on the first shard, and each act and
// each commit is carried once.
fn play(rt: &impl Abort, alloc: Global, steps: &[Step]) -> Result<(), Fail> {
    let mut bank = new_bank(alloc)?;
    let mut messages: u64 = 0;
    for (session, group, call, expected, way) in steps {
        let told = ask(alloc, &mut bank, *session, *group, *call)?;
        assert_eq!(rt; told, *expected, "{call:?}");
        assert_eq!(rt; bank.way(), *way, "{call:?}");
        messages = messages.wrapping_add(u64::from(is_message(*call)));
        assert_eq!(rt; carried(&bank), (messages, 0), "{call:?}");
    }
    assert_eq!(rt; second(alloc, &mut bank, 7)?, Told::Keys(0));
    Ok(())
}

static DELETE_WAITS: [Step; 8] = [
    (1, Main, Call::Insert(1, 2), Told::Done, Passed),
    (2, Main, Call::LockKey(1), Told::Held(1, 1), Passed),
    (2, Main, Call::LockKey(1), Told::Held(1, 1), Passed),
    (1, Main, Call::Commit, Told::Done, Passed),
    (2, Main, Call::LockKey(1), Told::Keys(1), Passed),
    (2, Main, Call::Remove(1), Told::Done, Passed),
    (2, Main, Call::Commit, Told::Done, Passed),
    (1, Main, Call::Look(2), Told::Keys(0), Passed),
];

static OWN_KEYS: [Step; 23] = [
    (1, Main, Call::Insert(1, 7), Told::Done, Passed),
    (1, Main, Call::Insert(2, 7), Told::Done, Passed),
    (1, Main, Call::Insert(2, 8), Told::Found(7), Passed),
    (2, Main, Call::Find(7), Told::Keys(0), Passed),
    (1, Pre, Call::Find(7), Told::Keys(0), Passed),
    (1, Main, Call::Find(7), Told::Keys(12), Passed),
    (2, Main, Call::Insert(3, 7), Told::Done, Passed),
    (1, Pre, Call::Lock(7), Told::Held(1, 1), Passed),
    (2, Main, Call::Put(2, 9), Told::Held(1, 2), Passed),
    (1, Main, Call::Lock(7), Told::Held(2, 3), Passed),
    (1, Main, Call::Commit, Told::Done, Passed),
    (9, Main, Call::Look(7), Told::Keys(12), Passed),
    (2, Main, Call::Lock(7), Told::Keys(123), Passed),
    (2, Main, Call::RemoveIf(1, 8), Told::Unchanged, Passed),
    (2, Main, Call::RemoveIf(1, 7), Told::Done, Passed),
    (1, Pre, Call::RemoveIf(2, 7), Told::Held(2, 2), Passed),
    (2, Main, Call::Put(2, 9), Told::Done, Passed),
    (2, Main, Call::Find(9), Told::Keys(2), Passed),
    (2, Main, Call::Close, Told::Done, Passed),
    (1, Pre, Call::Lock(7), Told::Keys(12), Passed),
    (1, Pre, Call::Close, Told::Done, Passed),
    (2, Main, Call::Insert(1, 8), Told::Found(7), Passed),
    (1, Pre, Call::Remove(1), Told::Held(2, 1), Passed),
];

static LOST_BEFORE: [Step; 33] = [
    (1, Main, Call::Insert(1, 7), Told::Done, Passed),
    (1, Main, Call::Commit, Told::Done, Passed),
    (1, Main, Call::Lose(false), Told::Done, Passed),
    (1, Main, Call::Insert(2, 7), CUT, LostBefore),
    (2, Main, Call::Insert(2, 8), Told::Done, Passed),
    // It stays lost until it ends, and is then opened anew.
    (1, Main, Call::Find(7), CUT, Passed),
    (1, Main, Call::Commit, CUT, Passed),
    (1, Main, Call::Find(7), Told::Keys(1), Passed),
    (1, Main, Call::Lose(false), Told::Done, Passed),
    (1, Main, Call::Put(1, 9), CUT, LostBefore),
    (2, Main, Call::Put(1, 6), Told::Done, Passed),
    (1, Main, Call::Close, Told::Done, Passed),
    (1, Main, Call::Lose(false), Told::Done, Passed),
    (1, Main, Call::Remove(3), CUT, LostBefore),
    (2, Main, Call::Insert(3, 8), Told::Done, Passed),
    (1, Main, Call::Close, Told::Done, Passed),
    (1, Main, Call::Lose(false), Told::Done, Passed),
    (1, Main, Call::RemoveIf(4, 7), CUT, LostBefore),
    (2, Main, Call::RemoveIf(4, 7), Told::Unchanged, Passed),
    (1, Main, Call::Close, Told::Done, Passed),
    (1, Main, Call::Lose(false), Told::Done, Passed),
    (1, Main, Call::Lock(7), CUT, LostBefore),
    (1, Main, Call::Close, Told::Done, LostBefore),
    (1, Main, Call::Lose(false), Told::Done, LostBefore),
    (1, Main, Call::Find(7), CUT, LostBefore),
    (1, Main, Call::Close, Told::Done, LostBefore),
    // A read without a shard session has nothing to lose.
    (1, Main, Call::Lose(false), Told::Done, LostBefore),
    (1, Main, Call::Look(7), CUT, LostBefore),
    (1, Main, Call::Look(7), Told::Keys(1), Passed),
    // The commit isn't done, and its locks are free.
    (2, Main, Call::Lose(false), Told::Done, Passed),
    (2, Main, Call::Commit, CUT, LostBefore),
    (2, Main, Call::Find(8), Told::Keys(0), Passed),
    (1, Main, Call::Put(1, 9), Told::Done, Passed),
];

static LOST_AFTER: [Step; 31] = [
    (1, Main, Call::Insert(1, 7), Told::Done, Passed),
    (1, Main, Call::Commit, Told::Done, Passed),
    (1, Main, Call::Lose(true), Told::Done, Passed),
    (1, Main, Call::Insert(2, 7), CUT, LostAfter),
    (2, Main, Call::Insert(2, 8), Told::Done, Passed),
    (1, Main, Call::Commit, CUT, Passed),
    (1, Main, Call::Lose(true), Told::Done, Passed),
    (1, Main, Call::Put(1, 9), CUT, LostAfter),
    (2, Main, Call::Put(1, 6), Told::Done, Passed),
    (1, Main, Call::Close, Told::Done, Passed),
    // The keys of the other session stay its own.
    (1, Main, Call::Lose(true), Told::Done, Passed),
    (1, Main, Call::Remove(2), CUT, LostAfter),
    (1, Pre, Call::Remove(2), Told::Held(2, 2), Passed),
    (1, Main, Call::Close, Told::Done, Passed),
    (1, Main, Call::Lose(true), Told::Done, Passed),
    (1, Pre, Call::RemoveIf(4, 7), CUT, LostAfter),
    (2, Main, Call::RemoveIf(4, 7), Told::Unchanged, Passed),
    (1, Main, Call::Lose(true), Told::Done, Passed),
    (1, Pre, Call::Find(7), CUT, LostAfter),
    (1, Pre, Call::Close, Told::Done, LostAfter),
    (1, Main, Call::Lose(true), Told::Done, LostAfter),
    (1, Post, Call::Lock(7), CUT, LostAfter),
    (1, Post, Call::Close, Told::Done, LostAfter),
    (1, Main, Call::Lose(true), Told::Done, LostAfter),
    (1, Main, Call::Look(7), CUT, LostAfter),
    (1, Main, Call::Look(7), Told::Keys(1), Passed),
    // The commit is done, and its locks are free.
    (2, Main, Call::Lose(true), Told::Done, Passed),
    (2, Main, Call::Commit, CUT, LostAfter),
    (9, Main, Call::Look(8), Told::Keys(2), Passed),
    (9, Main, Call::Look(6), Told::Keys(1), Passed),
    (1, Main, Call::Put(1, 9), Told::Done, Passed),
];

static KILLED: [Step; 22] = [
    (1, Main, Call::Kill, Told::Nobody, Passed),
    (1, Pre, Call::Insert(1, 7), Told::Done, Passed),
    (1, Main, Call::Insert(2, 7), Told::Done, Passed),
    (1, Post, Call::Insert(3, 7), Told::Done, Passed),
    (2, Main, Call::Insert(4, 7), Told::Done, Passed),
    (2, Pre, Call::Kill, Told::Nobody, Passed),
    // The other shard sessions keep their locks.
    (1, Pre, Call::Kill, Told::Done, Passed),
    (2, Main, Call::Put(1, 8), Told::Done, Passed),
    (2, Main, Call::Put(2, 8), Told::Held(1, 2), Passed),
    // A lost session can't be killed again, nor one that has ended.
    (1, Pre, Call::Find(7), DROPPED, Passed),
    (1, Pre, Call::Kill, Told::Nobody, Passed),
    (1, Pre, Call::Commit, DROPPED, Passed),
    (1, Pre, Call::Kill, Told::Nobody, Passed),
    (1, Main, Call::Kill, Told::Done, Passed),
    (1, Main, Call::Lock(7), DROPPED, Passed),
    (1, Post, Call::Kill, Told::Done, Passed),
    (1, Post, Call::Remove(3), DROPPED, Passed),
    (2, Main, Call::Lock(7), Told::Keys(4), Passed),
    (1, Main, Call::Close, Told::Done, Passed),
    (1, Main, Call::Insert(2, 9), Told::Done, Passed),
    (2, Main, Call::Commit, Told::Done, Passed),
    (9, Main, Call::Look(7), Told::Keys(4), Passed),
];

#[test]
fn a_delete_waits_for_the_insert_of_its_row(rt: HostRuntime) -> Result<(), Fail> {
    play(&rt, rt.alloc(), &DELETE_WAITS)
}

#[test]
fn three_sessions_keep_to_their_own_keys(rt: HostRuntime) -> Result<(), Fail> {
    play(&rt, rt.alloc(), &OWN_KEYS)
}

#[test]
fn what_is_lost_before_the_shard_is_not_done(rt: HostRuntime) -> Result<(), Fail> {
    play(&rt, rt.alloc(), &LOST_BEFORE)
}

#[test]
fn what_is_lost_behind_the_shard_is_done(rt: HostRuntime) -> Result<(), Fail> {
    play(&rt, rt.alloc(), &LOST_AFTER)
}

#[test]
fn a_drop_kills_one_session(rt: HostRuntime) -> Result<(), Fail> {
    play(&rt, rt.alloc(), &KILLED)
}
