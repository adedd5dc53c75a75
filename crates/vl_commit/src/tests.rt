ghost use Rattle.std.specs.Prelude.{◌≡◌, ◌<◌, ◌≤◌, ℕ, false, IfOk, IfNone};
ghost use Rattle.vl_catalog.specs.CatalogA.{catalog_a};
ghost use Rattle.vl_port.specs.Others.{LeavesOthers};
ghost use Rattle.vl_port.specs.Placing.{IsActOn};
ghost use Rattle.vl_port.specs.Taking.{takes_keys};
ghost use Rattle.vl_port.specs.Transaction.{IsIn, last_tx};
ghost use Rattle.vl_commit.specs.declared.commit_told.CommitTold.TheVariants.{More};
ghost use Rattle.vl_shard.specs.Banks.{IsServing, count_of, seen_of};

use crate::closing::roll_back;
use crate::commit::Commit;
use crate::commit_told::CommitTold;
use crate::failure::Failure;
use crate::warning::Warning;
use std::alloc::Global;
use std::process::Abort;
use std::test::Fail;
use vl_catalog::Catalog;
use vl_port::act::Act;
use vl_port::answer::Answer;
use vl_port::asked::Asked;
use vl_port::asking::ask;
use vl_port::limits::Limits;
use vl_port::loss::Loss;
use vl_port::port::ShardPort;
use vl_port::script_link::ScriptLink;
use vl_port::tx_state::TxState;
use vl_port::who::Who;
use vl_shard::bank::Bank;
use vl_values::ShardNo;
use vl_values::group::Group;
use vl_values::key::Key;
use vl_values::lost_why::LostWhy;
use vl_values::pred::Pred;
use vl_values::row::Row;
use vl_values::tests::Tests;
use vl_values::value::Value;

// The table t1 of the built-in catalog: a number that is the key, and one more. Rows with a key below
// HIGH stand on shard 0, the others on shard 1.
const TABLE: u32 = 0;

const HIGH: u64 = 9_223_372_036_854_775_808;

const LIMITS: Limits = Limits {
    tries: 100,
    changes: 10_000,
    result_rows: 100_000,
    result_bytes: 16_777_216,
    tail: 16_777_216,
    trace: false,
};

const NOBODY: Who = Who {
    session: 9,
    tx: 9,
    group: None,
};

// How a commit ended: with the first commit of post that failed, or with the group of the one that ended
// it, how many of it were done, of how many, and its shard.
#[derive(Clone, Copy, Debug, PartialEq, Eq)]
enum End {
    Ok(Option<(ShardNo, Failure)>),
    Failed(Group, u32, u32, ShardNo, Failure),
}

const LINK: Failure = Failure::Lost(LostWhy::Link);

// The message to a shard that is lost, or whose answer is; how the commit ends, and then how many rows
// there are on each of the two shards, and how many messages were carried there.
#[derive(Clone, Copy, Debug)]
struct Case {
    loss: Option<(ShardNo, u64, bool)>,
    end: End,
    rows: (usize, usize),
    carried: (u64, u64),
}

// The transaction has a row of pre, one of main and one of post on shard 0, and one of main on shard 1.
// Their inserts are three messages to shard 0 and one to shard 1, and the commits come behind them.
static COMMITS: [Case; 9] = [
    Case {
        loss: None,
        end: End::Ok(None),
        rows: (3, 1),
        carried: (6, 2),
    },
    Case {
        loss: Some((0, 4, false)),
        end: End::Failed(Group::Pre, 0, 1, 0, LINK),
        rows: (0, 0),
        carried: (4, 1),
    },
    Case {
        loss: Some((0, 4, true)),
        end: End::Failed(Group::Pre, 0, 1, 0, LINK),
        rows: (1, 0),
        carried: (4, 1),
    },
    Case {
        loss: Some((0, 5, false)),
        end: End::Failed(Group::Main, 0, 2, 0, LINK),
        rows: (1, 0),
        carried: (5, 1),
    },
    Case {
        loss: Some((0, 5, true)),
        end: End::Failed(Group::Main, 0, 2, 0, LINK),
        rows: (2, 0),
        carried: (5, 1),
    },
    Case {
        loss: Some((1, 2, false)),
        end: End::Failed(Group::Main, 1, 2, 1, LINK),
        rows: (2, 0),
        carried: (5, 2),
    },
    Case {
        loss: Some((1, 2, true)),
        end: End::Failed(Group::Main, 1, 2, 1, LINK),
        rows: (2, 1),
        carried: (5, 2),
    },
    Case {
        loss: Some((0, 6, false)),
        end: End::Ok(Some((0, LINK))),
        rows: (2, 1),
        carried: (6, 2),
    },
    Case {
        loss: Some((0, 6, true)),
        end: End::Ok(Some((0, LINK))),
        rows: (3, 1),
        carried: (6, 2),
    },
];

// A row is inserted.
fn insert(alloc: Global, catalog: &Catalog, shard: ShardNo, number: u64) -> Result<Act, Fail>
    requires { catalog.now ≡ catalog_a }
    ensures { IfOk result (λ act. IsActOn catalog_a shard act) }
{
    let mut pk = Vec::new(alloc);
    pk.push(Value::Uint(number))?;
    let mut row = Vec::new(alloc);
    row.push(Value::Uint(number))?;
    row.push(Value::Uint(number))?;
    if catalog.place_of(TABLE, &row) != Some(shard) {
        return Err("a row of another shard".into());
    }
    let key = Key {
        table: TABLE,
        pk: Row::from_vec(pk),
    };
    Ok(Act::Insert {
        key,
        row: Row::from_vec(row),
    })
}

// All rows of a shard are read, without a shard session.
fn look(alloc: Global) -> Act
    ensures plain { takes_keys result ≡ false }
    ensures fits { (shard : ℕ) → IsActOn catalog_a shard result }
{
    let pred = Pred {
        table: TABLE,
        tests: Tests::from_vec(Vec::new(alloc)),
    };
    Act::Find {
        pred,
        locking: false,
    }
}

// How many rows a shard has.
fn row_count(alloc: Global, bank: &mut Bank<ScriptLink>, shard: ShardNo) -> usize
    requires catalog { bank.old.catalog ≡ catalog_a }
    requires shard { shard < count_of bank.old }
    ensures catalog { bank.new.catalog ≡ catalog_a }
    ensures count { count_of bank.new ≡ count_of bank.old }
{
    match bank.act(NOBODY, shard, &look(alloc)) {
        Answer::Rows(rows) => rows.as_slice().len(),
        _ => 0,
    }
}

// What is on the two shards, and what was carried to them before.
fn shows(
    rt: &impl Abort,
    alloc: Global,
    bank: &mut Bank<ScriptLink>,
    rows: (usize, usize),
    carried: (u64, u64),
)
    requires catalog { bank.old.catalog ≡ catalog_a }
    requires count { count_of bank.old ≡ 2 }
{
    assert_eq!(rt; (bank.carried(0), bank.carried(1)), carried);
    let first = row_count(alloc, bank, 0);
    let second = row_count(alloc, bank, 1);
    assert_eq!(rt; (first, second), rows);
}

fn link_of(alloc: Global, loss: Option<(ShardNo, u64, bool)>) -> Result<ScriptLink, Fail> {
    let mut link = ScriptLink::new(alloc, 2)?;
    if let Some((shard, nth, after)) = loss {
        if shard < 2 {
            link.arm(shard, Loss { nth, after });
        }
    }
    Ok(link)
}

// Two empty shards behind a link that is to lose this message, and two transactions without sessions.
fn open(
    alloc: Global,
    catalog: &Catalog,
    loss: Option<(ShardNo, u64, bool)>,
) -> Result<(Bank<ScriptLink>, TxState, TxState), Fail>
    requires { catalog.now ≡ catalog_a }
    ensures catalog { IfOk result (λ opened. opened.0.catalog ≡ catalog_a) }
    ensures count { IfOk result (λ opened. count_of opened.0 ≡ 2) }
    ensures first { IfOk result (λ opened. (shard : ℕ) → (seen_of opened.0 shard).incarnation ≤ 1) }
    ensures serves { IfOk result (λ opened. IsServing opened.0) }
    ensures numbers { IfOk result (λ opened. (opened.1.number ≡ 1) × (opened.2.number ≡ 2)) }
    ensures one { IfOk result (λ opened. IsIn opened.1 (count_of opened.0) (seen_of opened.0)) }
    ensures two { IfOk result (λ opened. IsIn opened.2 (count_of opened.0) (seen_of opened.0)) }
{
    let link = link_of(alloc, loss)?;
    let bank = Bank::new(alloc, catalog, link)?;
    if bank.len() != 2 {
        return Err("two shards".into());
    }
    let one = TxState::new(alloc, 1, 1, LIMITS, false, false);
    let two = TxState::new(alloc, 2, 2, LIMITS, false, false);
    Ok((bank, one, two))
}

// A row is inserted by the transaction's session of this group, where its key is free.
fn insert_by(
    alloc: Global,
    catalog: &Catalog,
    bank: &mut Bank<ScriptLink>,
    tx: &mut TxState,
    group: Group,
    shard: ShardNo,
    number: u64,
) -> Result<bool, Fail>
    requires built_in { catalog.now ≡ catalog_a }
    requires catalog { bank.old.catalog ≡ catalog_a }
    requires shard { shard < count_of bank.old }
    requires number { tx.old.number ≤ last_tx }
    requires serves { IsServing bank.old }
    requires sessions { IsIn tx.old (count_of bank.old) (seen_of bank.old) }
    ensures catalog { bank.new.catalog ≡ catalog_a }
    ensures count { count_of bank.new ≡ count_of bank.old }
    ensures incarnations { (s : ℕ) → (seen_of bank.new s).incarnation ≡ (seen_of bank.old s).incarnation }
    ensures number { tx.new.number ≡ tx.old.number }
    ensures serves { IsServing bank.new }
    ensures sessions { IsIn tx.new (count_of bank.new) (seen_of bank.new) }
    ensures others { LeavesOthers tx.old.number (seen_of bank.old) (seen_of bank.new) }
{
    let act = insert(alloc, catalog, shard, number)?;
    match ask(bank, tx, group, shard, &act) {
        Asked::Answered(Answer::Done) => Ok(true),
        _ => Ok(false),
    }
}

// A row of post, then two of main and one of pre are inserted.
fn four_rows(
    alloc: Global,
    catalog: &Catalog,
    bank: &mut Bank<ScriptLink>,
    tx: &mut TxState,
) -> Result<(), Fail>
    requires built_in { catalog.now ≡ catalog_a }
    requires catalog { bank.old.catalog ≡ catalog_a }
    requires count { count_of bank.old ≡ 2 }
    requires number { tx.old.number ≤ last_tx }
    requires serves { IsServing bank.old }
    requires sessions { IsIn tx.old (count_of bank.old) (seen_of bank.old) }
    ensures catalog { bank.new.catalog ≡ catalog_a }
    ensures count { count_of bank.new ≡ 2 }
    ensures incarnations { (s : ℕ) → (seen_of bank.new s).incarnation ≡ (seen_of bank.old s).incarnation }
    ensures number { tx.new.number ≡ tx.old.number }
    ensures serves { IsServing bank.new }
    ensures sessions { IsIn tx.new (count_of bank.new) (seen_of bank.new) }
    ensures others { LeavesOthers tx.old.number (seen_of bank.old) (seen_of bank.new) }
{
    let post = insert_by(alloc, catalog, bank, tx, Group::Post, 0, 3)?;
    let low = insert_by(alloc, catalog, bank, tx, Group::Main, 0, 2)?;
    let high = insert_by(alloc, catalog, bank, tx, Group::Main, 1, HIGH)?;
    let pre = insert_by(alloc, catalog, bank, tx, Group::Pre, 0, 1)?;
    if post && low && high && pre {
        return Ok(());
    }
    Err("free keys".into())
}

fn first_of(warnings: &[Warning]) -> Option<(ShardNo, Failure)> {
    match warnings {
        [] => None,
        [first, ..] => Some((first.shard, first.why)),
    }
}

fn end_of(told: &CommitTold) -> Option<End>
    ensures { IfNone result (told.now ≡ More) }
{
    match told {
        CommitTold::More => None,
        CommitTold::Ok { warnings } => Some(End::Ok(first_of(warnings.as_slice()))),
        CommitTold::Failed {
            group,
            done,
            of,
            shard,
            why,
        } => Some(End::Failed(*group, *done, *of, *shard, *why)),
    }
}

// The steps of a commit to its end.
fn commit_all(alloc: Global, bank: &mut Bank<ScriptLink>, tx: TxState) -> Result<End, Fail>
    requires first { (shard : ℕ) → (seen_of bank.old shard).incarnation ≤ 1 }
    requires number { tx.number ≤ last_tx }
    requires serves { IsServing bank.old }
    requires sessions { IsIn tx (count_of bank.old) (seen_of bank.old) }
    ensures catalog { bank.new.catalog ≡ bank.old.catalog }
    ensures count { count_of bank.new ≡ count_of bank.old }
{
    let Ok(mut commit) = Commit::start(alloc, tx) else {
        return Err("memory for a commit".into());
    };
    for _ in 0..8u64 {
        let told = commit.step(bank);
        if let Some(end) = end_of(&told) {
            return Ok(end);
        }
    }
    Err("a commit that ends".into())
}

fn play(rt: &impl Abort, alloc: Global, catalog: &Catalog, case: Case) -> Result<(), Fail>
    requires { catalog.now ≡ catalog_a }
{
    let (mut bank, mut tx, _) = open(alloc, catalog, case.loss)?;
    four_rows(alloc, catalog, &mut bank, &mut tx)?;
    let end = commit_all(alloc, &mut bank, tx)?;
    assert_eq!(rt; end, case.end);
    shows(rt, alloc, &mut bank, case.rows, case.carried);
    Ok(())
}

#[test]
fn a_commit_that_is_lost_ends_the_transaction_and_in_post_is_a_warning(
    rt: HostRuntime,
) -> Result<(), Fail> {
    let alloc = rt.alloc();
    let catalog = Catalog::a(alloc)?;
    for case in &COMMITS {
        play(&rt, alloc, &catalog, *case)?;
    }
    Ok(())
}

// A transaction waits for a row of another, which is then rolled back.
fn goes_on(rt: &impl Abort, alloc: Global, catalog: &Catalog) -> Result<(), Fail>
    requires { catalog.now ≡ catalog_a }
{
    let (mut bank, mut one, mut two) = open(alloc, catalog, None)?;
    four_rows(alloc, catalog, &mut bank, &mut one)?;
    let locked = insert_by(alloc, catalog, &mut bank, &mut two, Group::Pre, 0, 1)?;
    roll_back(&mut bank, one);
    let free = insert_by(alloc, catalog, &mut bank, &mut two, Group::Pre, 0, 1)?;
    assert_eq!(rt; (locked, free), (false, true));
    let end = commit_all(alloc, &mut bank, two)?;
    assert_eq!(rt; end, End::Ok(None));
    shows(rt, alloc, &mut bank, (1, 0), (6, 1));
    Ok(())
}

#[test]
fn nothing_stays_of_what_is_rolled_back_and_others_go_on(rt: HostRuntime) -> Result<(), Fail> {
    let alloc = rt.alloc();
    let catalog = Catalog::a(alloc)?;
    goes_on(&rt, alloc, &catalog)
}
