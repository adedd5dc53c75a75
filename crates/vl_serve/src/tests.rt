ghost use Rattle.std.specs.Prelude.{◌<◌};

use super::*;
use std::alloc::Global;
use std::process::Abort;
use std::test::Fail;
use vl_base::{MemorySink, MemorySource};
use vl_cluster::cluster::Cluster;
use vl_sql::parse;
use vl_sql::stmt::Stmt;

const INSERT: &[u8] = b"\x21\x00\x00\x00\x03INSERT INTO t1(id,u) VALUES(1,7)";

const INSERTED: &[u8] = b"\x07\x00\x00\x01\x00\x01\x00\x02\x00\x00\x00";

const UNKNOWN: &[u8] = b"\x01\x00\x00\x00\x63";

const NOT_SERVED: &[u8] = b"\x18\x00\x00\x01\xff\x17\x04#08S01Unknown command";

const QUIT: &[u8] = b"\x01\x00\x00\x00\x01";

/// What a connection wrote, and how it ended.
#[derive(Drop)]
struct Talk {
    out: MemorySink,
    end: ConnEnd,
}

/// A connection over an empty core, with reads of at most `piece` bytes.
fn serve(
    alloc: Global,
    input: &[&[u8]],
    piece: usize,
    failing: (&[u64], &[u64]),
    rounds: Vec<Vec<Stmt>>,
) -> Result<Talk, Fail>
    requires { 0 < piece }
{
    let mut bytes = Vec::new(alloc);
    for part in input {
        bytes.extend_from_slice(part)?;
    }
    let mut src = MemorySource::new(bytes, piece, failing.0.to_vec(alloc)?);
    let mut out = MemorySink::new(alloc, 4096, 5, failing.1.to_vec(alloc)?)?;
    let mut cluster = Cluster::open(alloc)?;
    let mut gate = OwnGate::new(&mut cluster, rounds);
    let end = serve_conn(alloc, &mut gate, &mut src, &mut out);
    Ok(Talk { out, end })
}

#[test]
fn packets_and_their_replies_wherever_the_input_is_cut(rt: HostRuntime) -> Result<(), Fail> {
    let alloc = rt.alloc();
    for piece in 1..40 {
        let Talk { out, end } = serve(
            alloc,
            &[INSERT, UNKNOWN, QUIT],
            piece,
            (&[], &[]),
            Vec::new(alloc),
        )?;
        assert_eq!(rt; end, ConnEnd::Quit);
        let (first, second) = out.bytes().split_at(out.bytes().len().min(INSERTED.len()));
        assert_eq!(rt; first, INSERTED);
        assert_eq!(rt; second, NOT_SERVED);
    }
    Ok(())
}

#[test]
fn inputs_and_their_ends(rt: HostRuntime) -> Result<(), Fail> {
    let alloc = rt.alloc();
    for (input, written, end) in [
        (b"\x21\x00\x00".as_slice(), b"".as_slice(), ConnEnd::Ended),
        (b"\x02\x00\x00\x00\x01", b"", ConnEnd::Ended),
        (b"\x02\x00\x00\x00\x01\x09", b"", ConnEnd::Quit),
        (
            b"\x00\x00\x00\x00",
            b"\x18\x00\x00\x01\xff\x17\x04#08S01Unknown command",
            ConnEnd::Ended,
        ),
        (
            b"\x07\x00\x00\x00\x03SELECT",
            b"\x1f\x00\x00\x01\xff\x28\x04#42000Syntax error at byte 0",
            ConnEnd::Ended,
        ),
        (
            b"\x01\x00\x10\x00",
            b"\x37\x00\x00\x01\xff\x81\x04#08S01Packet of 1048577 bytes is larger than 1048576",
            ConnEnd::Refused { code: 1153 },
        ),
        (
            b"\x01\x00\x00\x05\x01",
            b"\x2d\x00\x00\x01\xff\x84\x04#08S01Packet number 5 came where 0 was due",
            ConnEnd::Refused { code: 1156 },
        ),
    ] {
        let talk = serve(alloc, &[input], 64, (&[], &[]), Vec::new(alloc))?;
        assert_eq!(rt; talk.end, end);
        assert_eq!(rt; talk.out.bytes(), written);
    }
    Ok(())
}

#[test]
fn faults_end_a_connection_behind_a_front_of_its_replies(rt: HostRuntime) -> Result<(), Fail> {
    let alloc = rt.alloc();
    let input = &[INSERT, UNKNOWN, QUIT];
    let read = serve(alloc, input, 64, (&[4], &[]), Vec::new(alloc))?;
    assert_eq!(rt; read.end, ConnEnd::ReadFault);
    assert_eq!(rt; read.out.bytes(), INSERTED);
    let write = serve(alloc, input, 64, (&[], &[3]), Vec::new(alloc))?;
    assert_eq!(rt; write.end, ConnEnd::WriteFault);
    assert_eq!(rt; write.out.bytes(), &INSERTED[..10]);
    Ok(())
}

#[test]
fn other_sessions_act_before_each_call(rt: HostRuntime) -> Result<(), Fail> {
    let alloc = rt.alloc();
    let before_join = vec![in alloc; parse(alloc, b"INSERT INTO t1 (id, u) VALUES (9, 8)")?]?;
    let first = parse(alloc, b"INSERT INTO t1 (id, u) VALUES (2, 6)")?;
    let second = parse(alloc, b"INSERT INTO t1 (id, u) VALUES (3, 7)")?;
    let before_insert = vec![in alloc; first, second]?;
    let rounds = vec![in alloc; before_join, before_insert]?;
    let Talk { out, end } = serve(alloc, &[INSERT, QUIT], 64, (&[], &[]), rounds)?;
    assert_eq!(rt; end, ConnEnd::Quit);
    assert_eq!(rt;
        out.bytes(),
        b"\x44\x00\x00\x01\xff\x26\x04#23000Duplicate entry '7' for key 't1_u': row (3) on commerce/-80".as_slice()
    );
    Ok(())
}
