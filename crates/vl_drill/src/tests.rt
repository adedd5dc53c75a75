use crate::drill::Drill;
use crate::seen::Seen;
use crate::turn::Turn;
use std::test::Fail;

// What is seen of session k stands at bit k: the sessions with a statement in progress, then those with an open
// transaction. A turn is its session with the statement that it asks, no bytes where it makes a step, and none at the
// end. Seed 1, 18 statements; worked out by a program of its own.
static TURNS: [(u8, u8, Option<(u8, &[u8])>); 33] = [
    (
        0b00000000,
        0b00000000,
        Some((6, b"INSERT INTO t1 (id, u) VALUES (870, 34)")),
    ),
    (
        0b00000000,
        0b00000000,
        Some((3, b"INSERT INTO t1 (id, u) VALUES (89, 746)")),
    ),
    (
        0b00000000,
        0b00000000,
        Some((3, b"INSERT INTO t1 (id, u) VALUES (400, 34)")),
    ),
    (
        0b00000000,
        0b00000000,
        Some((
            4,
            b"INSERT INTO t1 (id, u) VALUES (9223372036854776140, 365)",
        )),
    ),
    (
        0b00000000,
        0b00000000,
        Some((3, b"UPDATE t1 SET u = 669 WHERE id = 410")),
    ),
    (
        0b00000000,
        0b00000000,
        Some((0, b"INSERT INTO t1 (id, u) VALUES (121, 968)")),
    ),
    (
        0b00000000,
        0b00000000,
        Some((7, b"SELECT COUNT (*) FROM t1 WHERE u = 708")),
    ),
    (
        0b00000000,
        0b00000000,
        Some((5, b"INSERT INTO t1 (id, u) VALUES (786, 858)")),
    ),
    (0b00000000, 0b00000000, Some((4, b"BEGIN"))),
    (
        0b01001001,
        0b01010101,
        Some((7, b"INSERT INTO t1 (id, u) VALUES (80, 861)")),
    ),
    (0b01001001, 0b01010101, Some((6, b""))),
    (
        0b01001001,
        0b01010101,
        Some((
            4,
            b"INSERT INTO t1 (id, u) VALUES (9223372036854776202, 522)",
        )),
    ),
    (0b01001001, 0b01010101, Some((0, b""))),
    (
        0b01001001,
        0b01010101,
        Some((
            4,
            b"INSERT INTO t1 (id, u) VALUES (9223372036854775808, 718)",
        )),
    ),
    (0b01001001, 0b01010101, Some((3, b""))),
    (
        0b01001001,
        0b01010101,
        Some((
            7,
            b"INSERT INTO t1 (id, u) VALUES (9223372036854776270, 748)",
        )),
    ),
    (
        0b01001001,
        0b01010101,
        Some((
            5,
            b"INSERT INTO t1 (id, u) VALUES (9223372036854775891, 856)",
        )),
    ),
    (0b01001001, 0b01010101, Some((2, b"COMMIT"))),
    (
        0b01001001,
        0b01010101,
        Some((
            2,
            b"INSERT INTO t1 (id, u) VALUES (9223372036854775916, 975)",
        )),
    ),
    (0b01001001, 0b01010101, Some((4, b"COMMIT"))),
    (0b01001001, 0b01010101, Some((6, b""))),
    (
        0b01001001,
        0b01010101,
        Some((7, b"DELETE FROM t1 WHERE id = 9223372036854776755")),
    ),
    (0b01010010, 0b00000000, Some((1, b""))),
    (0b01010010, 0b00000000, Some((4, b""))),
    (0b01010010, 0b00000000, Some((6, b""))),
    (0b01010010, 0b00000000, Some((1, b""))),
    (0b00010000, 0b00100100, Some((4, b""))),
    (0b00000100, 0b00100100, Some((2, b""))),
    (0b00000000, 0b00100100, Some((2, b"COMMIT"))),
    (0b00000100, 0b00100000, Some((2, b""))),
    (0b00000000, 0b00100000, Some((5, b"COMMIT"))),
    (0b00000000, 0b00100010, None),
    (0b00000000, 0b00000000, None),
];

fn seen_at(busy: u8, tx: u8) -> [Seen; 8] {
    [1, 2, 4, 8, 16, 32, 64, 128].map(|bit: u8| Seen {
        busy: busy & bit != 0,
        tx: tx & bit != 0,
    })
}

#[test]
fn turns_of_seed_1(rt: HostRuntime) -> Result<(), Fail> {
    let alloc = rt.alloc();
    let mut drill = Drill::new(18, 1);
    for (busy, tx, want) in &TURNS {
        let turn = drill.next(alloc, &seen_at(*busy, *tx))?;
        match (turn, want) {
            (Turn::Step(session), Some((by, b""))) => assert!(rt; session == *by),
            (Turn::Ask(session, stmt), Some((by, text))) => {
                assert!(rt; session == *by);
                let print = vl_sql::print(alloc, &stmt)?;
                assert!(rt; print.as_slice() == *text);
            }
            (Turn::End, None) => {}
            (turn, _) => assert!(rt; false, "{turn:?}"),
        }
    }
    Ok(())
}
