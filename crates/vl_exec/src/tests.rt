use crate::test_catalogs::catalog_n;
use crate::test_player::{Call, play_over};
use std::alloc::Global;
use std::process::Abort;
use std::test::Fail;
use vl_port::loss::Loss;

// The one table, n: a number that is the key, and one more. Rows with a key below 9223372036854775808
// stand on shard 0, the others on shard 1.

fn play(rt: &impl Abort, alloc: Global, calls: &[Call]) -> Result<(), Fail> {
    play_over(rt, alloc, catalog_n(alloc)?, None, None, calls)
}

static WAITS: [Call; 14] = [
    Call::Join(1, 100, true, false),
    Call::Join(2, 100, true, false),
    Call::Join(3, 2, true, false),
    Call::Say(0, "INSERT INTO n(id,v) VALUES(1,2)"),
    Call::Reply(0, "OK 1 of 1, warnings 0, open true, autocommit true"),
    Call::Say(1, "DELETE FROM n WHERE id=1"),
    Call::Held(1, 1, 1),
    // A second try is the last. It has written nothing, so its transaction stays open.
    Call::Say(2, "DELETE FROM n WHERE id=1"),
    Call::Held(2, 1, 1),
    Call::Reply(
        2,
        "ERR 1205 Lock wait limit 2 reached on n (1), held by session 1, open true",
    ),
    // The action that was due is due again: the row is found now, and then removed.
    Call::Commit(0, 0),
    Call::More(1),
    Call::Reply(1, "OK 1 of 1, warnings 0, open true, autocommit true"),
    // An insert, two tries of each delete, a commit and a removal.
    Call::Carried(0, 7),
];

static SEVERAL_VALUES: [Call; 13] = [
    Call::Join(1, 100, true, false),
    Call::Say(0, "INSERT INTO n(id,v) VALUES(1,5),(2,5)"),
    Call::More(0),
    Call::Reply(0, "OK 2 of 2, warnings 0, open true, autocommit true"),
    Call::Say(0, "DELETE FROM n WHERE id=1"),
    Call::More(0),
    Call::Reply(0, "OK 1 of 1, warnings 0, open true, autocommit true"),
    Call::Listed(0, &[0]),
    // Both rows would stand on shard 0, and one is left.
    Call::Say(0, "DELETE FROM n WHERE id IN (1,2)"),
    Call::More(0),
    Call::Reply(0, "OK 1 of 1, warnings 0, open true, autocommit true"),
    Call::Carried(0, 6),
    Call::Carried(1, 0),
];

static UPDATES: [Call; 24] = [
    Call::Join(1, 100, true, false),
    Call::Join(2, 100, true, false),
    Call::Join(3, 100, true, false),
    // The rows are written in the order of the statement, so shard 1 is used first.
    Call::Say(
        0,
        "INSERT INTO n(id,v) VALUES(9223372036854775808,5),(2,5),(1,5),(9223372036854775809,9)",
    ),
    Call::More(0),
    Call::More(0),
    Call::More(0),
    Call::Reply(0, "OK 4 of 4, warnings 0, open true, autocommit true"),
    Call::Listed(0, &[1, 0]),
    Call::Commit(0, 0),
    Call::Commit(0, 1),
    // One read for each shard, in the order of their numbers, and then the first row.
    Call::Say(1, "UPDATE n SET v=9"),
    Call::More(1),
    Call::Listed(1, &[0]),
    Call::More(1),
    Call::Listed(1, &[0, 1]),
    Call::More(1),
    // The row that was written first has the least key of the first shard: no other one there has the
    // new value yet.
    Call::Say(2, "DELETE FROM n WHERE v=9"),
    Call::Held(2, 2, 1),
    // Three of the four rows that were found have changed, and were written.
    Call::More(1),
    Call::Reply(1, "OK 3 of 4, warnings 0, open true, autocommit true"),
    // All rows have the new value now, so there is nothing to write after the reads.
    Call::Say(1, "UPDATE n SET v=9"),
    Call::More(1),
    Call::Reply(1, "OK 0 of 4, warnings 0, open true, autocommit true"),
];

static DUPLICATES: [Call; 8] = [
    Call::Join(1, 100, false, false),
    Call::Say(0, "INSERT INTO n(id,v) VALUES(9223372036854775808,2)"),
    Call::Reply(0, "OK 1 of 1, warnings 0, open true, autocommit false"),
    // The first row is met; the statement before has written, but this one hasn't.
    Call::Say(0, "INSERT INTO n(id,v) VALUES(9223372036854775808,3),(1,4)"),
    Call::Reply(
        0,
        "ERR 1062 Duplicate entry '9223372036854775808' for key 'PRIMARY': row (9223372036854775808) on commerce/80-, open true",
    ),
    // The same row comes second here. The first one is free, so the refusal before wrote nothing.
    Call::Say(0, "INSERT INTO n(id,v) VALUES(1,4),(9223372036854775808,3)"),
    Call::More(0),
    Call::Reply(
        0,
        "ERR 1062 Duplicate entry '9223372036854775808' for key 'PRIMARY': row (9223372036854775808) on commerce/80-, open false",
    ),
];

static SINGLE: [Call; 11] = [
    Call::Join(1, 100, true, true),
    Call::Join(1, 100, true, true),
    Call::Join(1, 100, true, true),
    Call::Say(0, "INSERT INTO n(id,v) VALUES(1,2)"),
    Call::Reply(0, "OK 1 of 1, warnings 0, open false, autocommit true"),
    Call::Commit(0, 0),
    // It is refused before its first write, and yet nothing stays open.
    Call::Say(1, "INSERT INTO n(id,v) VALUES(1,3)"),
    Call::Reply(
        1,
        "ERR 1062 Duplicate entry '1' for key 'PRIMARY': row (1) on commerce/-80, open false",
    ),
    // No shard has an action of this one.
    Call::Say(2, "DELETE FROM n WHERE id=NULL"),
    Call::Reply(2, "OK 0 of 0, warnings 0, open false, autocommit true"),
    Call::Listed(2, &[]),
];

// The second message to the first shard is lost on its way.
static LOST_BEFORE: [Call; 11] = [
    Call::Join(1, 100, true, false),
    Call::Join(2, 100, true, false),
    Call::Say(0, "INSERT INTO n(id,v) VALUES(1,5),(2,5)"),
    Call::More(0),
    Call::Reply(
        0,
        "ERR 1105 Lost commerce/-80 main session (link), open false",
    ),
    // The first row fell away and its lock with it, before the session was ended.
    Call::Say(1, "INSERT INTO n(id,v) VALUES(1,5)"),
    Call::Reply(1, "OK 1 of 1, warnings 0, open true, autocommit true"),
    Call::Listed(0, &[0]),
    Call::Close(0, 0),
    Call::Carried(0, 3),
    Call::Lost(1),
];

// The answer to the third message to the first shard is lost, and that to the first to the second shard.
static LOST_AFTER: [Call; 26] = [
    Call::Join(1, 100, true, false),
    Call::Join(2, 100, true, false),
    Call::Join(3, 100, true, false),
    Call::Say(0, "INSERT INTO n(id,v) VALUES(1,5)"),
    Call::Reply(0, "OK 1 of 1, warnings 0, open true, autocommit true"),
    Call::Commit(0, 0),
    // The locking read was done, but the row that it took isn't held.
    Call::Say(1, "UPDATE n SET v=6 WHERE id=1"),
    Call::Reply(
        1,
        "ERR 1105 Lost commerce/-80 main session (link), open false",
    ),
    Call::Close(1, 0),
    Call::Say(2, "UPDATE n SET v=7 WHERE id=1"),
    Call::More(2),
    Call::Reply(2, "OK 1 of 1, warnings 0, open true, autocommit true"),
    // The second row was written, and fell away; the first one has to be rolled back.
    Call::Join(4, 100, true, false),
    Call::Join(5, 100, true, false),
    Call::Say(3, "INSERT INTO n(id,v) VALUES(2,5),(9223372036854775808,5)"),
    Call::More(3),
    Call::Reply(
        3,
        "ERR 1105 Lost commerce/80- main session (link), open false",
    ),
    Call::Listed(3, &[0, 1]),
    Call::Say(4, "INSERT INTO n(id,v) VALUES(9223372036854775808,6),(2,6)"),
    Call::More(4),
    Call::Held(4, 4, 2),
    Call::Close(3, 1),
    Call::Close(3, 0),
    Call::Reply(4, "OK 2 of 2, warnings 0, open true, autocommit true"),
    Call::Carried(0, 8),
    Call::Lost(2),
];

static DROPPED: [Call; 10] = [
    Call::Join(1, 100, true, false),
    Call::Join(2, 100, true, false),
    Call::Say(0, "INSERT INTO n(id,v) VALUES(1,5)"),
    Call::Reply(0, "OK 1 of 1, warnings 0, open true, autocommit true"),
    Call::Drop(1, 0),
    Call::Say(1, "DELETE FROM n WHERE id=1"),
    Call::Reply(1, "OK 0 of 0, warnings 0, open true, autocommit true"),
    // This statement has written nothing, and yet nothing stays open.
    Call::Say(0, "DELETE FROM n WHERE id=2"),
    Call::Reply(
        0,
        "ERR 1105 Lost commerce/-80 main session (dropped), open false",
    ),
    Call::Close(0, 0),
];

static CHANGES: [Call; 16] = [
    Call::JoinFew(1, 2),
    Call::JoinFew(2, 1),
    Call::Say(0, "INSERT INTO n(id,v) VALUES(1,5),(2,5)"),
    Call::More(0),
    Call::Reply(0, "OK 2 of 2, warnings 0, open true, autocommit true"),
    Call::Say(0, "INSERT INTO n(id,v) VALUES(3,5)"),
    Call::Reply(0, "ERR 1105 Limit of changes reached: 2, open true"),
    // No shard was asked.
    Call::Carried(0, 2),
    // A read is no change, and a row that stays equal isn't written.
    Call::Say(0, "UPDATE n SET v=5 WHERE id=1"),
    Call::Reply(0, "OK 0 of 1, warnings 0, open true, autocommit true"),
    // The second row is one too many, so the first one is to be rolled back.
    Call::Say(1, "INSERT INTO n(id,v) VALUES(3,5),(4,5)"),
    Call::More(1),
    Call::Reply(1, "ERR 1105 Limit of changes reached: 1, open false"),
    Call::Listed(1, &[0]),
    Call::Close(1, 0),
    Call::Carried(0, 4),
];

// Rows that a change reads are counted before any is written.
static RESULTS: [Call; 23] = [
    Call::JoinShort(1, 2, 100),
    Call::JoinShort(2, 100, 5),
    Call::Say(0, "INSERT INTO n(id,v) VALUES(1,5),(2,5),(3,5)"),
    Call::More(0),
    Call::More(0),
    Call::Reply(0, "OK 3 of 3, warnings 0, open true, autocommit true"),
    // The third row is one too many.
    Call::Say(0, "UPDATE n SET v=6"),
    Call::Reply(0, "ERR 1105 Limit of result rows reached: 2, open true"),
    Call::Carried(0, 4),
    Call::Say(0, "DELETE FROM n WHERE id IN (1,2)"),
    Call::More(0),
    Call::More(0),
    Call::Reply(0, "OK 2 of 2, warnings 0, open true, autocommit true"),
    Call::Commit(0, 0),
    // The rows 3,5 and 4,10 have five bytes together.
    Call::Say(1, "INSERT INTO n(id,v) VALUES(4,10)"),
    Call::Reply(1, "OK 1 of 1, warnings 0, open true, autocommit true"),
    Call::Say(1, "UPDATE n SET v=5 WHERE id IN (3,4)"),
    Call::More(1),
    Call::Reply(1, "OK 1 of 2, warnings 0, open true, autocommit true"),
    Call::Say(1, "INSERT INTO n(id,v) VALUES(6,10)"),
    Call::Reply(1, "OK 1 of 1, warnings 0, open true, autocommit true"),
    Call::Say(1, "DELETE FROM n"),
    Call::Reply(1, "ERR 1105 Limit of result bytes reached: 5, open true"),
];

#[test]
fn a_delete_waits_for_the_insert_of_its_row_until_its_limit(rt: HostRuntime) -> Result<(), Fail> {
    play(&rt, rt.alloc(), &WAITS)
}

#[test]
fn a_delete_reads_the_shards_of_its_values_and_no_others(rt: HostRuntime) -> Result<(), Fail> {
    play(&rt, rt.alloc(), &SEVERAL_VALUES)
}

#[test]
fn an_update_reads_each_shard_and_writes_what_changes(rt: HostRuntime) -> Result<(), Fail> {
    play(&rt, rt.alloc(), &UPDATES)
}

#[test]
fn a_duplicate_ends_the_transaction_after_a_write(rt: HostRuntime) -> Result<(), Fail> {
    play(&rt, rt.alloc(), &DUPLICATES)
}

#[test]
fn a_transaction_of_one_statement_is_never_left_open(rt: HostRuntime) -> Result<(), Fail> {
    play(&rt, rt.alloc(), &SINGLE)
}

#[test]
fn a_write_that_is_lost_rolls_its_transaction_back(rt: HostRuntime) -> Result<(), Fail> {
    let second = Loss {
        nth: 2,
        after: false,
    };
    play_over(
        &rt,
        rt.alloc(),
        catalog_n(rt.alloc())?,
        Some(second),
        None,
        &LOST_BEFORE,
    )
}

#[test]
fn an_action_whose_answer_is_lost_rolls_its_transaction_back(rt: HostRuntime) -> Result<(), Fail> {
    let third = Loss {
        nth: 3,
        after: true,
    };
    let first = Loss {
        nth: 1,
        after: true,
    };
    play_over(
        &rt,
        rt.alloc(),
        catalog_n(rt.alloc())?,
        Some(third),
        Some(first),
        &LOST_AFTER,
    )
}

#[test]
fn a_dropped_session_is_told_at_its_next_use(rt: HostRuntime) -> Result<(), Fail> {
    play(&rt, rt.alloc(), &DROPPED)
}

#[test]
fn a_write_past_the_limit_of_changes_is_refused(rt: HostRuntime) -> Result<(), Fail> {
    play(&rt, rt.alloc(), &CHANGES)
}

#[test]
fn a_change_that_finds_too_many_rows_writes_none(rt: HostRuntime) -> Result<(), Fail> {
    play(&rt, rt.alloc(), &RESULTS)
}
