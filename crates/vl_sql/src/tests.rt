use crate::{ParseError, one_statement, parse, print};
use std::alloc::{AllocError, Global};
use std::process::Abort;
use std::test::Fail;

const LEFT_OUT: usize = 1_000_000_000;

// Where a text has its first fault; LEFT_OUT where it is a statement.
fn place(alloc: Global, text: &[u8]) -> Result<usize, ParseError> {
    match parse(alloc, text) {
        Ok(_) => Ok(LEFT_OUT),
        Err(ParseError::Syntax { at }) => Ok(at),
        Err(ParseError::Memory) => Err(ParseError::Memory),
    }
}

// `front`, then `item` so many times with `between`, then `end`.
fn repeated(
    alloc: Global,
    front: &[u8],
    item: &[u8],
    between: &[u8],
    count: u32,
    end: &[u8],
) -> Result<Vec<u8>, AllocError> {
    let mut text = Vec::from_slice(alloc, front)?;
    for i in 0..count {
        if i > 0 {
            text.extend_from_slice(between)?;
        }
        text.extend_from_slice(item)?;
    }
    text.extend_from_slice(end)?;
    Ok(text)
}

fn check_places(rt: &(impl Abort + AllocGlobal), cases: &[(&[u8], usize)]) -> Result<(), Fail> {
    for (text, at) in cases {
        assert_eq!(rt; place(rt.alloc(), text)?, *at);
    }
    Ok(())
}

// Cuts a text behind each byte, and compares with the mark under that byte:
//   `.`  a statement
//   `+`  it ends too early: the place is the length
//   `<`  the last token was cut, and no statement goes on with what is left of it: the place is its
//        first byte, where this run of marks begins
//   `^`  the same of a token that was whole at a shorter cut, as 'it' in 'it''s': its first byte is
//        where the run before began
fn check_prefix_marks(
    rt: &(impl Abort + AllocGlobal),
    text: &[u8],
    marks: &[u8],
) -> Result<(), Fail> {
    assert_eq!(rt; marks.len(), text.len());
    let mut run = 0;
    let mut within = false;
    for i in 0..text.len() {
        let mark = marks.get(i);
        let cut = matches!(mark, Some(b'<'));
        if cut && !within {
            run = i;
        }
        within = cut;
        let at = match mark {
            Some(b'.') => LEFT_OUT,
            Some(b'+') => i + 1,
            _ => run,
        };
        assert_eq!(rt; place(rt.alloc(), &text[..i + 1])?, at, "behind byte {i}");
    }
    Ok(())
}

fn check_prefixes(rt: &(impl Abort + AllocGlobal), cases: &[(&[u8], &[u8])]) -> Result<(), Fail> {
    for (text, marks) in cases {
        check_prefix_marks(rt, text, marks)?;
    }
    Ok(())
}

fn check_prints(rt: &(impl Abort + AllocGlobal), cases: &[(&[u8], &[u8])]) -> Result<(), Fail> {
    for (text, printed) in cases {
        let stmt = parse(rt.alloc(), text)?;
        let once = print(rt.alloc(), &stmt)?;
        assert_eq!(rt; once.as_slice(), *printed);
        let again = print(rt.alloc(), &parse(rt.alloc(), once.as_slice())?)?;
        assert_eq!(rt; again.as_slice(), *printed);
    }
    Ok(())
}

#[test]
fn places_of_faults_in_statements_and_their_ends(rt: HostRuntime) -> Result<(), Fail> {
    check_places(
        &rt,
        &[
            (b"SELEC", 0),
            (b"SELECT u FROM", 13),
            (b"INSERT INTO t1(id) VALUES(18446744073709551616)", 26),
            (b"", 0),
            (b"  ", 2),
            (b"-- a", 4),
            (b"BEGIN;;", 6),
            (b"BEGIN COMMIT", 6),
            (b"; BEGIN", 0),
            (b"`BEGIN`", 0),
            (b"DELETE t1", 7),
            (b"SHOW COLUMNS", 5),
            (b"SHOW TABLES /* open", 12),
            (b"SELECT `` FROM `a``", 18),
        ],
    )
}

#[test]
fn places_of_faults_in_rows_and_literals(rt: HostRuntime) -> Result<(), Fail> {
    check_places(
        &rt,
        &[
            (b"INSERT INTO t1(id,ID,id) VALUES(1,2,3)", 21),
            (b"INSERT INTO t1() VALUES(1)", 15),
            (b"INSERT INTO t1(id) VALUES()", 26),
            (b"INSERT INTO t1(id) VALUES(-9223372036854775809)", 26),
            (b"INSERT INTO t1(id) VALUES(- 5)", 26),
            (b"INSERT INTO t1(id) VALUES('a)", 26),
            (b"INSERT INTO t1(id) VALUES('a\\')", 26),
            (b"INSERT INTO t1(id) VALUES(x'0')", 26),
            (b"INSERT INTO t1(id) VALUES(x'0g')", 26),
            (b"INSERT INTO t1(id) VALUES(x '00')", 26),
            (b"INSERT INTO t1(id) VALUES(1.5)", 27),
            (b"INSERT INTO t1(id) VALUES(1),", 29),
            (b"INSERT INTO t1(id) VALUES(1) (2)", 29),
            (b"INSERT INTO a.b.c(id) VALUES(1)", 15),
        ],
    )
}

#[test]
fn places_of_faults_in_what_a_select_gives(rt: HostRuntime) -> Result<(), Fail> {
    check_places(
        &rt,
        &[
            (b"SELECT FROM t1", 12),
            (b"SELECT foo(*) FROM t1", 10),
            (b"SELECT `COUNT`(*) FROM t1", 14),
            (b"SELECT COUNT(id) FROM t1", 13),
            (b"SELECT DATABASE(1)", 16),
            (b"SELECT DATABASE() FROM t1", 18),
            (b"SELECT * , id FROM t1", 9),
            (b"SELECT @@version LIMIT 1", 7),
            (b"SELECT @@version_comment", 24),
            (b"SELECT @@version_comment LIMIT 01", 31),
        ],
    )
}

#[test]
fn places_of_faults_in_conditions_and_what_stands_behind_them(rt: HostRuntime) -> Result<(), Fail> {
    check_places(
        &rt,
        &[
            (b"SELECT id FROM t1 WHERE", 23),
            (b"SELECT id FROM t1 WHERE id > 1", 27),
            (b"SELECT id FROM t1 WHERE id = 1 AND", 34),
            (b"SELECT id FROM t1 WHERE id = 1 OR id = 2", 31),
            (b"SELECT id FROM t1 WHERE id IN ()", 31),
            (b"SELECT id FROM t1 WHERE id = u", 29),
            (b"SELECT id FROM t1 ORDER id", 24),
            (b"SELECT id FROM t1 LIMIT -1", 24),
            (b"SELECT id FROM t1 LIMIT 18446744073709551616", 24),
            (b"SELECT id FROM t1 LIMIT 1 ORDER BY id", 26),
            (b"SELECT id FROM t1 FOR SHARE", 22),
        ],
    )
}

#[test]
fn places_of_faults_in_other_statements(rt: HostRuntime) -> Result<(), Fail> {
    check_places(
        &rt,
        &[
            (b"UPDATE t1 SET u=1,u=2", 18),
            (b"UPDATE t1 SET u=1 WHERE", 23),
            (b"SET autocommit = 2", 17),
            (b"SET autocommit = 01", 17),
            (b"SET NAMES x'41'", 10),
        ],
    )
}

#[test]
fn inserts_are_read_and_printed(rt: HostRuntime) -> Result<(), Fail> {
    check_prints(
        &rt,
        &[
            (
                b"insert into t1(id,u) values(1,7)",
                b"INSERT INTO t1 (id, u) VALUES (1, 7)",
            ),
            (
                b"INSERT INTO `a b`.t1(`id`)VALUES(-5),(NULL),(-0),(007);",
                b"INSERT INTO `a b` . t1 (id) VALUES (-5), (NULL), (0), (7)",
            ),
            (
                b"INSERT INTO t(a) VALUES(-9223372036854775808),(18446744073709551615)",
                b"INSERT INTO t (a) VALUES (-9223372036854775808), (18446744073709551615)",
            ),
            (
                b"INSERT INTO t(a) VALUES('it''s \\\" \\% \\_ \\x \\\\'),(\"q\"\"'\"),(x'4a4B'),(X'')",
                b"INSERT INTO t (a) VALUES ('it\\'s \\\" \\\\% \\\\_ x \\\\'), ('q\\\"\\''), ('JK'), ('')",
            ),
            (
                b"INSERT INTO t(a) VALUES('\\0\\b\\n\\r\\t\\Z')",
                b"INSERT INTO t (a) VALUES ('\\0\\b\\n\\r\\t\\Z')",
            ),
        ],
    )
}

#[test]
fn selects_are_read_and_printed(rt: HostRuntime) -> Result<(), Fail> {
    check_prints(
        &rt,
        &[
            (b"SELECT*FROM t1", b"SELECT * FROM t1"),
            (
                b"SELECT COUNT ( * ) FROM t1 WHERE u=7",
                b"SELECT COUNT (*) FROM t1 WHERE u = 7",
            ),
            (b"SELECT count FROM t1", b"SELECT count FROM t1"),
            (
                b"SELECT count,database FROM a.b",
                b"SELECT count, database FROM a . b",
            ),
            (b"SELECT DATABASE()", b"SELECT DATABASE ()"),
            (
                b"SELECT @@VERSION_comment limit 1",
                b"SELECT @@version_comment LIMIT 1",
            ),
            (
                b"SELECT id,id FROM t1 WHERE u IN(1,'a')AND id=NULL ORDER BY id DESC,u asc,v LIMIT 10FOR UPDATE",
                b"SELECT id, id FROM t1 WHERE u IN (1, 'a') AND id = NULL ORDER BY id DESC, u ASC, v LIMIT 10 FOR UPDATE",
            ),
            (
                b"SELECT id FROM t1 LIMIT 18446744073709551615",
                b"SELECT id FROM t1 LIMIT 18446744073709551615",
            ),
        ],
    )
}

#[test]
fn updates_and_deletes_are_read_and_printed(rt: HostRuntime) -> Result<(), Fail> {
    check_prints(
        &rt,
        &[
            (
                b"UPDATE t1 SET u=1,id='x' WHERE u=2",
                b"UPDATE t1 SET u = 1, id = 'x' WHERE u = 2",
            ),
            (b"DELETE FROM t1", b"DELETE FROM t1"),
        ],
    )
}

#[test]
fn keywords_as_names_are_read_and_printed(rt: HostRuntime) -> Result<(), Fail> {
    check_prints(
        &rt,
        &[
            (
                b"delete from from where where=-5",
                b"DELETE FROM from WHERE where = -5",
            ),
            (
                b"UPDATE set SET set=1 WHERE in IN(2)AND and=3",
                b"UPDATE set SET set = 1 WHERE in IN (2) AND and = 3",
            ),
            (
                b"SELECT order FROM order ORDER BY desc desc,by",
                b"SELECT order FROM order ORDER BY desc DESC, by",
            ),
            (
                b"INSERT INTO into(values)VALUES(null)",
                b"INSERT INTO into (values) VALUES (NULL)",
            ),
            (b"SELECT `` FROM `1a`", b"SELECT `` FROM `1a`"),
        ],
    )
}

#[test]
fn other_statements_are_read_and_printed(rt: HostRuntime) -> Result<(), Fail> {
    check_prints(
        &rt,
        &[
            (b"BEGIN", b"BEGIN"),
            (b"begin ; ", b"BEGIN"),
            (b"START TRANSACTION", b"START TRANSACTION"),
            (b"commit", b"COMMIT"),
            (b"Rollback", b"ROLLBACK"),
            (b"SET autocommit = 0", b"SET AUTOCOMMIT = 0"),
            (b"SET NAMES utf8mb4", b"SET NAMES 'utf8mb4'"),
            (b"USE `use`", b"USE use"),
            (b"SHOW TABLES", b"SHOW TABLES"),
            (b"/* a */SHOW-- b\nDATABASES", b"SHOW DATABASES"),
            (b"SHOW WARNINGS -- c", b"SHOW WARNINGS"),
        ],
    )
}

#[test]
fn a_text_is_one_statement_at_most() {
    one_statement();
}

#[test]
fn lists_end_at_their_limits(rt: HostRuntime) -> Result<(), Fail> {
    let alloc = rt.alloc();
    // front, item, what stands between, the limit, end
    let cases: [(&[u8], &[u8], &[u8], u32, &[u8]); 4] = [
        (b"INSERT INTO t(a) VALUES", b"(1)", b",", 1_000, b""),
        (b"DELETE FROM t WHERE a IN (", b"1", b",", 1_000, b")"),
        (b"SELECT ", b"a", b",", 1_000, b" FROM t"),
        (b"SELECT * FROM t ORDER BY ", b"a", b",", 8, b""),
    ];
    for (front, item, between, most, end) in cases {
        let fits = repeated(alloc, front, item, between, most, end)?;
        assert_eq!(rt; place(alloc, fits.as_slice())?, LEFT_OUT);
        let over = repeated(alloc, front, item, between, most + 1, end)?;
        let before = repeated(alloc, front, item, between, most, between)?;
        assert_eq!(rt; place(alloc, over.as_slice())?, before.len());
    }
    let tests = repeated(alloc, b"DELETE FROM t WHERE ", b"a=1", b" AND ", 1_001, b"")?;
    assert_eq!(rt; place(alloc, tests.as_slice())?, LEFT_OUT);
    Ok(())
}

#[test]
fn each_prefix_of_an_insert_update_and_delete(rt: HostRuntime) -> Result<(), Fail> {
    check_prefixes(
        &rt,
        &[
            (
                b"INSERT INTO `a b`.t1 (id, u, `v w`) VALUES (-5, 'it''s', NULL), (007, 'a b', x'4a4B');",
                b"<<<<<++<<<++<<<<+++++++++++++<<<<+++<<<<<+++<+++<<<+^^+++<<<+.++++++++<<<<+++<<<<<<+..",
            ),
            (
                b"INSERT/*rows*/INTO t1(id)VALUES(18446744073709551615),(-9223372036854775808) -- both ends",
                b"<<<<<+<<<<<<<+<<<++++++++<<<<<++++++++++++++++++++++.++<+++++++++++++++++++..<<..........",
            ),
            (
                b"UPDATE set SET set=1, id = 'x y', v = x'' WHERE in IN (-2)",
                b"<<<<<++++++<<++++++.+++++++<<<<.++++++<<..<<<<+++++<+++<+.",
            ),
            (
                b"DELETE FROM from WHERE where = -5 AND and = \"it's\"",
                b"<<<<<++<<<++.....<<<<++++++++++<..<<++++++++<<<<<.",
            ),
        ],
    )
}

#[test]
fn each_prefix_of_a_select(rt: HostRuntime) -> Result<(), Fail> {
    check_prefixes(
        &rt,
        &[
            (
                b"SELECT id, u, count FROM db.t1 WHERE u IN (1, 'a') AND id = NULL",
                b"<<<<<+++++++++++++++<<<++..+...<<<<++++<++++++<<+..<<+++++++<<<.",
            ),
            (
                b"SELECT * FROM t1 ORDER BY id DESC, u ASC, v LIMIT 10 FOR UPDATE -- c\n;",
                b"<<<<<++++<<<++...<<<<++<++...<<<.++..<<.++..<<<<++...<<++<<<<<..<<....",
            ),
            (
                b"SELECT COUNT ( * ) FROM `t 1` WHERE u = 'a b' FOR UPDATE",
                b"<<<<<++++++++++++++<<<++<<<<..<<<<++++++<<<<..<<++<<<<<.",
            ),
            (
                b"SELECT @@version_comment LIMIT 1 /* asked first by many clients */ ;",
                b"<<<<<++<<<<<<<<<<<<<<<<++<<<<++..<<<<<<<<<<<<<<<<<<<<<<<<<<<<<<<<...",
            ),
            (
                b"SELECT DATABASE/* of the session */( ) -- none is NULL",
                b"<<<<<++++++++++<<<<<<<<<<<<<<<<<<<+++..<<.............",
            ),
        ],
    )
}

#[test]
fn each_prefix_of_other_statements(rt: HostRuntime) -> Result<(), Fail> {
    check_prefixes(
        &rt,
        &[
            (
                b"SET /* each statement by itself */ autocommit = 1 ; /* from now on */",
                b"<<++<<<<<<<<<<<<<<<<<<<<<<<<<<<<<++<<<<<<<<<++++....<<<<<<<<<<<<<<<<.",
            ),
            (b"BEGIN;", b"<<<<.."),
            (b"START TRANSACTION ", b"<<<<++<<<<<<<<<<.."),
            (b"COMMIT ;", b"<<<<<..."),
            (b"/**/ROLLBACK", b"<<<+<<<<<<<."),
            (b"SET NAMES utf8mb4", b"<<++<<<<++......."),
            (b"SET NAMES 'utf8'", b"<<++<<<<++<<<<<."),
            (b"USE `a b`", b"<<++<<<<."),
            (b"SHOW TABLES", b"<<<++<<<<<."),
            (b"SHOW DATABASES", b"<<<++<<<<<<<<."),
            (b"SHOW WARNINGS;", b"<<<++<<<<<<<.."),
        ],
    )
}
