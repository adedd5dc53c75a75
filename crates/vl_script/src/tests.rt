use crate::bad_line::BadLine;
use crate::line::Line;
use crate::pick::Pick;
use crate::read_line::read_line;
use crate::side::Side;
use vl_values::group::Group;

#[test]
fn each_form_at_its_limits(rt: HostRuntime) {
    for (text, said) in [
        (b"".as_slice(), Line::Skipped),
        (b"#", Line::Skipped),
        (b"# run s1 SELECT", Line::Skipped),
        (
            b"run s1 BEGIN",
            Line::Run {
                session: 1,
                sql: b"BEGIN",
            },
        ),
        (
            b"run s9999 a  b ",
            Line::Run {
                session: 9_999,
                sql: b"a  b ",
            },
        ),
        (
            b"run s1 ",
            Line::Run {
                session: 1,
                sql: b"",
            },
        ),
        (
            b"run s10  a",
            Line::Run {
                session: 10,
                sql: b" a",
            },
        ),
        (
            b"run s1 a\rb",
            Line::Run {
                session: 1,
                sql: b"a\rb",
            },
        ),
        (
            b"run s1 \x80\xff\x00",
            Line::Run {
                session: 1,
                sql: b"\x80\xff\x00",
            },
        ),
        (
            b"ask s2 COMMIT",
            Line::Ask {
                session: 2,
                sql: b"COMMIT",
            },
        ),
        (
            b"ask s2 ",
            Line::Ask {
                session: 2,
                sql: b"",
            },
        ),
        (b"step s3", Line::Step { session: 3 }),
        (b"go s9999", Line::Go { session: 9_999 }),
        (b"close s1", Line::Close { session: 1 }),
        (b"visited s1", Line::Visited { session: 1 }),
        (b"dump", Line::Dump),
        (b"audit", Line::Audit),
    ] {
        assert!(rt; read_line(text) == Ok(said));
    }
}

#[test]
fn faults_and_crashes(rt: HostRuntime) {
    for (text, said) in [
        (
            b"lose ks/-80 before 1".as_slice(),
            Line::Lose {
                shard: b"ks/-80",
                side: Side::Before,
                carry: 1,
            },
        ),
        (
            b"lose \xff after 1000000",
            Line::Lose {
                shard: b"\xff",
                side: Side::After,
                carry: 1_000_000,
            },
        ),
        (
            b"drop s1 pre ks/80-",
            Line::DropSession {
                session: 1,
                group: Group::Pre,
                shard: b"ks/80-",
            },
        ),
        (
            b"drop s9999 main a",
            Line::DropSession {
                session: 9_999,
                group: Group::Main,
                shard: b"a",
            },
        ),
        (
            b"drop s5 post post",
            Line::DropSession {
                session: 5,
                group: Group::Post,
                shard: b"post",
            },
        ),
        (b"restart a\r", Line::Restart { shard: b"a\r" }),
        (b"restart \t", Line::Restart { shard: b"\t" }),
        (
            b"fail a 1000000",
            Line::Fail {
                shard: b"a",
                call: 1_000_000,
            },
        ),
        (
            b"crash none 1 none",
            Line::CrashAt {
                shard: b"none",
                call: 1,
                pick: Pick::None_,
            },
        ),
        (
            b"crash a 10 all",
            Line::CrashAt {
                shard: b"a",
                call: 10,
                pick: Pick::All,
            },
        ),
        (
            b"crash a 999999 half",
            Line::CrashAt {
                shard: b"a",
                call: 999_999,
                pick: Pick::Half,
            },
        ),
        (
            b"crash a 1 gates",
            Line::CrashAt {
                shard: b"a",
                call: 1,
                pick: Pick::Gates,
            },
        ),
        (b"crash none", Line::CrashNow { pick: Pick::None_ }),
        (b"crash all", Line::CrashNow { pick: Pick::All }),
        (b"crash half", Line::CrashNow { pick: Pick::Half }),
        (b"crash gates", Line::CrashNow { pick: Pick::Gates }),
        (b"checkpoint a", Line::Checkpoint { shard: b"a" }),
    ] {
        assert!(rt; read_line(text) == Ok(said));
    }
}

#[test]
fn near_misses(rt: HostRuntime) {
    for text in [
        b" ".as_slice(),
        b" #",
        b"\r",
        b"run",
        b"run ",
        b"run s1",
        b"run  s1 BEGIN",
        b" run s1 BEGIN",
        b"run\ts1 BEGIN",
        b"run s1\tBEGIN",
        b"Run s1 BEGIN",
        b"run S1 BEGIN",
        b"run s0 BEGIN",
        b"run s01 BEGIN",
        b"run s10000 BEGIN",
        b"run s BEGIN",
        b"run s+1 BEGIN",
        b"run s-1 BEGIN",
        b"run s1x BEGIN",
        b"run 1 BEGIN",
        b"run s\xb1 BEGIN",
        b"ask s1",
        b"step s1 ",
        b"step  s1",
        b"step s1\r",
        b"go",
        b"close s1 now",
        b"visited s00001",
        b"lose a before 0",
        b"lose a before 01",
        b"lose a before 1000001",
        b"lose a before 4294967297",
        b"lose a before 18446744073709551617",
        b"lose a before  1",
        b"lose a Before 1",
        b"lose a 1 before",
        b"lose a before",
        b"lose  before 1",
        b"drop s1 pre",
        b"drop s1 pre ",
        b"drop s1 Pre a",
        b"drop s1 pre a b",
        b"drop a pre s1",
        b"restart",
        b"restart ",
        b"restart a b",
        b"fail a",
        b"fail a 0",
        b"fail a +1",
        b"fail a 1 ",
        b"crash",
        b"crash ",
        b"crash a",
        b"crash a 1",
        b"crash a 1 None",
        b"crash a 1 quarter",
        b"crash none 1",
        b"crash  1 all",
        b"crash all ",
        b"checkpoint ",
        b"dump ",
        b"dumps",
        b"DUMP",
        b"audit\r",
        b"commit",
        b"\xff",
    ] {
        assert!(rt; read_line(text) == Err(BadLine));
    }
}
