use crate::test_catalogs::catalog_a;
use crate::test_player::{Call, play_over};
use std::test::Fail;
use vl_port::loss::Loss;

// The built-in catalog: t1(id, u) with a unique lookup on u, and t2(id, a, b) with one on each of a and b. Rows and
// entries with a number below 9223372036854775808 stand on shard 0, the others on shard 1.

static CLAIMED_TWICE: [Call; 14] = [
    Call::Join(1, 100, true, false),
    Call::Join(2, 2, true, false),
    // The entry first, and then the row.
    Call::Say(0, "INSERT INTO t1(id,u) VALUES(1,5)"),
    Call::More(0),
    Call::Reply(0, "OK 1 of 1, warnings 0, open true, autocommit true"),
    Call::ListedEntries(0, &[0]),
    Call::Say(1, "INSERT INTO t1(id,u) VALUES(2,5)"),
    Call::HeldEntry(1, 1, 5),
    Call::Reply(
        1,
        "ERR 1205 Lock wait limit 2 reached on t1_u_idx (5), held by session 1, open true",
    ),
    Call::CommitEntries(0, 0),
    Call::Commit(0, 0),
    Call::Say(1, "INSERT INTO t1(id,u) VALUES(2,5)"),
    // The entry is met, and the row that has it is read.
    Call::More(1),
    Call::Reply(
        1,
        "ERR 1062 Duplicate entry '5' for key 't1_u': row (1) on commerce/-80, open true",
    ),
];

static ORPHANS: [Call; 26] = [
    Call::Join(1, 100, true, false),
    Call::Say(0, "INSERT INTO t1(id,u) VALUES(1,5)"),
    Call::More(0),
    Call::Reply(0, "OK 1 of 1, warnings 0, open true, autocommit true"),
    // The entry stays, and its row doesn't.
    Call::CommitEntries(0, 0),
    Call::Close(0, 0),
    // It is met, no row has it, and it is redirected.
    Call::Join(2, 100, true, false),
    Call::Say(1, "INSERT INTO t1(id,u) VALUES(9223372036854775808,5)"),
    Call::More(1),
    Call::More(1),
    Call::More(1),
    Call::Reply(1, "OK 1 of 1, warnings 0, open true, autocommit true"),
    Call::Listed(1, &[0, 1]),
    Call::CommitEntries(1, 0),
    Call::Close(1, 1),
    Call::Close(1, 0),
    // NULL has no entry.
    Call::Join(3, 100, true, false),
    Call::Say(2, "INSERT INTO t1(id,u) VALUES(9223372036854775808,NULL)"),
    Call::Reply(2, "OK 1 of 1, warnings 0, open true, autocommit true"),
    Call::ListedEntries(2, &[]),
    Call::Commit(2, 1),
    // The entry names this row's keyspace id, and is kept: that is no write, so the transaction stays open.
    Call::Join(4, 100, true, false),
    Call::Say(3, "INSERT INTO t1(id,u) VALUES(9223372036854775808,5)"),
    Call::More(3),
    Call::More(3),
    Call::Reply(
        3,
        "ERR 1062 Duplicate entry '9223372036854775808' for key 'PRIMARY': row (9223372036854775808) on commerce/80-, open true",
    ),
];

static SAME_TRANSACTION: [Call; 6] = [
    Call::Join(1, 100, true, false),
    Call::Say(0, "INSERT INTO t1(id,u) VALUES(1,5),(2,5)"),
    Call::More(0),
    Call::More(0),
    // The transaction meets its own entry, and its own row.
    Call::More(0),
    Call::Reply(
        0,
        "ERR 1062 Duplicate entry '5' for key 't1_u': row (1) on commerce/-80, open false",
    ),
];

static MANY_ROWS: [Call; 41] = [
    Call::Join(1, 100, true, false),
    Call::Join(2, 100, true, false),
    // Each row has an entry in both lookups, and one value of the second has many rows. The entries of a text
    // stand by its digest: those of 'x' and 'z' on shard 1, those of 'y' on shard 0.
    Call::Say(
        0,
        "INSERT INTO t2(id,a,b) VALUES(1,1,'x'),(2,2,'x'),(9223372036854775808,3,'x'),(3,4,'y')",
    ),
    Call::More(0),
    Call::More(0),
    Call::More(0),
    Call::More(0),
    Call::More(0),
    Call::More(0),
    Call::More(0),
    Call::More(0),
    Call::More(0),
    Call::More(0),
    Call::More(0),
    Call::Reply(0, "OK 4 of 4, warnings 0, open true, autocommit true"),
    Call::Listed(0, &[0, 1]),
    Call::ListedEntries(0, &[0, 1]),
    // Another's row has an entry of its own for the value, and waits for none.
    Call::Say(1, "INSERT INTO t2(id,a,b) VALUES(4,5,'x')"),
    Call::More(1),
    Call::More(1),
    Call::Reply(1, "OK 1 of 1, warnings 0, open true, autocommit true"),
    // The entries of the value, and then each shard that they name, once.
    Call::Say(0, "SELECT id,b FROM t2 WHERE b='x'"),
    Call::More(0),
    Call::More(0),
    Call::Reply(
        0,
        "id b (1-x)(2-x)(9223372036854775808-x), open true, autocommit true",
    ),
    // The entries of each value, without NULL.
    Call::Say(0, "SELECT id FROM t2 WHERE b IN ('z',NULL,'y')"),
    Call::More(0),
    Call::More(0),
    Call::Reply(0, "id (3), open true, autocommit true"),
    Call::Say(0, "SELECT b FROM t2 WHERE b IN (NULL)"),
    Call::Reply(0, "b , open true, autocommit true"),
    // By the key, and by the unique lookup, which comes before the other one: the text is tested on the row.
    Call::Say(0, "SELECT a FROM t2 WHERE id=1 AND b='x'"),
    Call::Reply(0, "a (1), open true, autocommit true"),
    Call::Say(0, "SELECT a FROM t2 WHERE b='y' AND a=1"),
    Call::More(0),
    Call::Reply(0, "a , open true, autocommit true"),
    Call::Say(0, "SELECT id FROM t2 ORDER BY b DESC, a"),
    Call::More(0),
    Call::Reply(
        0,
        "id (3)(1)(2)(9223372036854775808), open true, autocommit true",
    ),
    Call::Say(0, "SELECT id FROM t2_b_idx WHERE b='x'"),
    Call::Reply(
        0,
        "id (1)(2)(9223372036854775808), open true, autocommit true",
    ),
];

// An entry that no row has, and that names no keyspace id.
static NO_KEYSPACE_ID: [Call; 12] = [
    Call::Join(1, 100, true, false),
    Call::Join(2, 100, true, false),
    Call::Entry(0, 7),
    Call::CommitEntries(0, 0),
    Call::Say(1, "SELECT id FROM t1 WHERE u=7"),
    Call::Reply(1, "id , open true, autocommit true"),
    // It is met, no row is looked for, and it is redirected.
    Call::Say(1, "INSERT INTO t1(id,u) VALUES(2,7)"),
    Call::More(1),
    Call::More(1),
    Call::Reply(1, "OK 1 of 1, warnings 0, open true, autocommit true"),
    // The entry and its commit, the read of it, and three acts of the row.
    Call::Carried(0, 6),
    Call::Lost(0),
];

// What has a plan and no program is refused after all else.
static REFUSED: [Call; 7] = [
    Call::Refused(
        "UPDATE t1 SET u=1 WHERE id=1",
        "ERR 1235 Not supported: lookups",
    ),
    Call::Refused("DELETE FROM t2", "ERR 1235 Not supported: lookups"),
    Call::Refused("DELETE FROM t2 WHERE c=1", "ERR 1054 Unknown column 'c'"),
    Call::Refused(
        "UPDATE t1 SET u='x'",
        "ERR 1366 Value of 'u' is not a number",
    ),
    Call::Refused(
        "DELETE FROM t1_u_idx",
        "ERR 1235 Not supported: write to a lookup table",
    ),
    Call::Refused(
        "UPDATE t1 SET id=1",
        "ERR 1235 Not supported: change of a key column",
    ),
    Call::Carried(0, 0),
];

static CHANGES: [Call; 8] = [
    Call::JoinFew(1, 1),
    Call::JoinFew(2, 0),
    // The row is one change too many, and its entry is to be rolled back.
    Call::Say(0, "INSERT INTO t1(id,u) VALUES(1,5)"),
    Call::More(0),
    Call::Reply(0, "ERR 1105 Limit of changes reached: 1, open false"),
    Call::Say(1, "INSERT INTO t1(id,u) VALUES(2,6)"),
    Call::Reply(1, "ERR 1105 Limit of changes reached: 0, open true"),
    Call::Carried(0, 1),
];

// The second message to the first shard is lost on its way.
static LOST: [Call; 7] = [
    Call::Join(1, 100, true, false),
    Call::Say(0, "INSERT INTO t1(id,u) VALUES(1,5),(2,6)"),
    Call::More(0),
    Call::Reply(
        0,
        "ERR 1105 Lost commerce/-80 main session (link), open false",
    ),
    Call::Join(2, 100, true, false),
    Call::Say(1, "INSERT INTO t1(id,u) VALUES(1,NULL)"),
    Call::Reply(1, "OK 1 of 1, warnings 0, open true, autocommit true"),
];

static SELECTS: [Call; 32] = [
    Call::Join(1, 100, true, false),
    Call::Join(2, 100, true, true),
    Call::Say(
        0,
        "INSERT INTO t1(id,u) VALUES(1,5),(9223372036854775808,6),(2,NULL)",
    ),
    Call::More(0),
    Call::More(0),
    Call::More(0),
    Call::More(0),
    Call::Reply(0, "OK 3 of 3, warnings 0, open true, autocommit true"),
    // By the key: one shard. Own rows that aren't committed are seen by their transaction alone.
    Call::Say(0, "SELECT id,u FROM t1 WHERE id=1"),
    Call::Reply(0, "id u (1-5), open true, autocommit true"),
    Call::Say(1, "SELECT id,u FROM t1 WHERE id=1"),
    Call::Reply(1, "id u , open false, autocommit true"),
    // By the lookup: the entry, and then the shard that it names.
    Call::Say(0, "SELECT id FROM t1 WHERE u=6"),
    Call::More(0),
    Call::Reply(0, "id (9223372036854775808), open true, autocommit true"),
    // NULL is no value to look for, and no shard is visited.
    Call::Say(0, "SELECT id FROM t1 WHERE u=NULL"),
    Call::Reply(0, "id , open true, autocommit true"),
    Call::Say(0, "SELECT id FROM t1 WHERE id IN (NULL)"),
    Call::Reply(0, "id , open true, autocommit true"),
    // All shards: rows by shard and key, NULL first when ascending, ties by the key.
    Call::Say(0, "SELECT id FROM t1"),
    Call::More(0),
    Call::Reply(
        0,
        "id (1)(2)(9223372036854775808), open true, autocommit true",
    ),
    Call::Say(0, "SELECT id FROM t1 ORDER BY u DESC, id LIMIT 2"),
    Call::More(0),
    Call::Reply(0, "id (9223372036854775808)(1), open true, autocommit true"),
    Call::Say(0, "SELECT id FROM t1 LIMIT 0"),
    Call::More(0),
    Call::Reply(0, "id , open true, autocommit true"),
    // A lookup table is read in pre, and a locking read of rows takes their locks.
    Call::Say(0, "SELECT u FROM t1_u_idx WHERE u IN (5,6)"),
    Call::Reply(0, "u (5)(6), open true, autocommit true"),
    Call::Say(1, "SELECT id FROM t1 WHERE id=1 FOR UPDATE"),
    Call::Held(1, 1, 1),
];

#[test]
fn entries_are_claimed_and_rows_are_read(rt: HostRuntime) -> Result<(), Fail> {
    let alloc = rt.alloc();
    play_over(&rt, alloc, catalog_a(alloc)?, None, None, &CLAIMED_TWICE)?;
    play_over(&rt, alloc, catalog_a(alloc)?, None, None, &ORPHANS)?;
    play_over(&rt, alloc, catalog_a(alloc)?, None, None, &SAME_TRANSACTION)?;
    play_over(&rt, alloc, catalog_a(alloc)?, None, None, &MANY_ROWS)?;
    play_over(&rt, alloc, catalog_a(alloc)?, None, None, &NO_KEYSPACE_ID)?;
    play_over(&rt, alloc, catalog_a(alloc)?, None, None, &REFUSED)?;
    play_over(&rt, alloc, catalog_a(alloc)?, None, None, &CHANGES)?;
    play_over(&rt, alloc, catalog_a(alloc)?, None, None, &SELECTS)
}

#[test]
fn a_row_that_is_lost_rolls_its_transaction_back(rt: HostRuntime) -> Result<(), Fail> {
    let alloc = rt.alloc();
    let second = Loss {
        nth: 2,
        after: false,
    };
    play_over(&rt, alloc, catalog_a(alloc)?, Some(second), None, &LOST)
}
