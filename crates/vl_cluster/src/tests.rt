ghost use Rattle.vl_cluster.specs.View.{stmt_of};
ghost use Rattle.vl_model.specs.Taken.{IsTaken};

use crate::ask::Ask;
use crate::cluster::Cluster;
use crate::pass::Pass;
use crate::taken::insert_of;
use crate::told::Told;
use crate::what::What;
use std::process::Abort;
use vl_sql::parse;
use vl_values::reply::Reply;

/// An INSERT of these values, as it is written.
fn insert(rt: &(impl Abort + AllocGlobal), id: u64, u: u64) -> Ask
    ensures { IsTaken (stmt_of result) }
{
    let text = format!(in rt.alloc(); "insert into t1 (id, u) values ({id}, {u});").expect(
        rt,
        "memory for the text",
    );
    let stmt = parse(rt.alloc(), text.as_bytes()).expect(rt, "a statement");
    let taken = insert_of(&stmt);
    assert_eq!(rt; taken, Some((id, u)));
    Ask::Say(stmt)
}

/// What was told is that one row was written, outside a transaction.
fn assert_done(rt: &impl Abort, told: &Told, at: u64) {
    assert_eq!(rt; told.at(), at);
    match told.what() {
        What::Reply(
            Reply::Ok {
                affected,
                found,
                warnings,
                tx,
                auto,
            },
        ) => {
            assert_eq!(rt; (*affected, *found, *warnings), (1, 1, 0));
            assert_eq!(rt; (*tx, *auto), (false, true));
        }
        What::Reply(Reply::Rows { .. }) => assert!(rt; false, "an INSERT has no rows"),
        What::Reply(Reply::Err { why, .. }) => assert_eq!(rt;
            why.text().as_slice(),
            b"".as_slice()
        ),
        What::Stray => assert!(rt; false, "the session is joined"),
    }
}

fn assert_refused(rt: &impl Abort, told: &Told, code: u16, text: &[u8]) {
    match told.what() {
        What::Reply(Reply::Err { code: got, why, tx }) => {
            assert_eq!(rt; *got, code);
            assert_eq!(rt; why.state(), b"23000".as_slice());
            assert_eq!(rt; why.text().as_slice(), text);
            assert!(rt; !*tx);
        }
        What::Reply(Reply::Ok { .. } | Reply::Rows { .. }) => assert!(rt; false, "a value clashes"),
        What::Stray => assert!(rt; false, "the session is joined"),
    }
}

/// The pass of a session that joined.
fn joined(rt: &impl Abort, cluster: &mut Cluster) -> Pass {
    cluster.join().expect(rt, "memory for a session")
}

#[test]
fn a_row_is_written_once(rt: HostRuntime) {
    let mut cluster = Cluster::open(rt.alloc()).expect(&rt, "memory for the shards");
    let pass = joined(&rt, &mut cluster);
    assert_eq!(rt; (pass.session(), pass.at()), (1, 1));
    let (pass, told) = cluster.act(pass, insert(&rt, 1, 7));
    assert_done(&rt, &told, 2);
    let (pass, told) = cluster.act(pass, insert(&rt, 1, 7));
    assert_refused(
        &rt,
        &told,
        1062,
        b"Duplicate entry '7' for key 't1_u': row (1) on commerce/-80",
    );
    let (pass, told) = cluster.act(pass, insert(&rt, 1, 8));
    assert_refused(
        &rt,
        &told,
        1062,
        b"Duplicate entry '1' for key 'PRIMARY': row (1) on commerce/-80",
    );
    let (pass, told) = cluster.act(pass, insert(&rt, 2, 8));
    assert_done(&rt, &told, 5);
    assert_eq!(rt; pass.at(), 5);
    cluster.leave(pass);
}

#[test]
fn a_value_of_the_other_shard_clashes(rt: HostRuntime) {
    let mut cluster = Cluster::open(rt.alloc()).expect(&rt, "memory for the shards");
    let first = joined(&rt, &mut cluster);
    let second = joined(&rt, &mut cluster);
    let (first, told) = cluster.act(first, insert(&rt, 1, 7));
    assert_done(&rt, &told, 3);
    let (second, told) = cluster.act(second, insert(&rt, 9223372036854775808, 7));
    assert_eq!(rt; (told.session(), told.at()), (2, 4));
    assert_refused(
        &rt,
        &told,
        1062,
        b"Duplicate entry '7' for key 't1_u': row (1) on commerce/-80",
    );
    let (second, told) = cluster.act(second, insert(&rt, 9223372036854775808, 3));
    assert_done(&rt, &told, 5);
    let (first, told) = cluster.act(first, insert(&rt, 9223372036854775807, 3));
    assert_refused(
        &rt,
        &told,
        1062,
        b"Duplicate entry '3' for key 't1_u': row (9223372036854775808) on commerce/80-",
    );
    cluster.leave(first);
    cluster.leave(second);
}

fn is_stray(told: &Told) -> bool {
    matches!(told.what(), What::Stray)
}

#[test]
fn a_pass_of_a_session_that_left_is_stray(rt: HostRuntime) {
    let mut cluster = Cluster::open(rt.alloc()).expect(&rt, "memory for the shards");
    let mut other = Cluster::open(rt.alloc()).expect(&rt, "memory for the shards");
    let left = joined(&rt, &mut cluster);
    let kept = joined(&rt, &mut other);
    cluster.leave(left);
    let (kept, told) = cluster.act(kept, insert(&rt, 1, 7));
    assert!(rt; is_stray(&told));
    assert_eq!(rt; (told.session(), told.at()), (1, 1));
    cluster.leave(kept);
    let pass = joined(&rt, &mut cluster);
    assert_eq!(rt; (pass.session(), pass.at()), (2, 3));
    let (pass, told) = cluster.act(pass, insert(&rt, 1, 7));
    assert_done(&rt, &told, 4);
    cluster.leave(pass);
}

#[test]
fn statements_that_are_not_taken(rt: HostRuntime) {
    for text in [
        b"INSERT INTO commerce.t1 (id, u) VALUES (1, 7)".as_slice(),
        b"INSERT INTO t2 (id, u) VALUES (1, 7)",
        b"INSERT INTO t1 (u, id) VALUES (7, 1)",
        b"INSERT INTO t1 (id) VALUES (1)",
        b"INSERT INTO t1 (id, u) VALUES (1, -7)",
        b"INSERT INTO t1 (id, u) VALUES (1, 7), (2, 8)",
        b"DELETE FROM t1",
        b"COMMIT",
    ] {
        let stmt = parse(rt.alloc(), text).expect(&rt, "a statement");
        assert_eq!(rt; insert_of(&stmt), None);
    }
}
