ghost use Rattle.std.specs.Prelude.{◌<◌};

use crate::batch::batch;
use std::alloc::{AllocError, Global};
use std::test::Fail;
use vl_base::{MemoryFiles, MemorySink, MemorySource, SteadySink, SteadySource};

fn one_word(alloc: Global, word: &str) -> Result<Vec<String>, AllocError> {
    let mut words = Vec::new(alloc);
    words.push(String::from_str(alloc, word)?)?;
    Ok(words)
}

fn no_files(alloc: Global) -> MemoryFiles {
    MemoryFiles::new(alloc, Vec::new(alloc), Vec::new(alloc))
}

// The exit status of a script and what it prints, where a read gives at most `piece` bytes and a write takes
// at most `piece`.
fn played(alloc: Global, script: &[u8], piece: usize) -> Result<(u8, Vec<u8>), AllocError>
    requires { 0 < piece }
{
    let mut src = MemorySource::new(script.to_vec(alloc)?, piece, Vec::new(alloc));
    let mut out = MemorySink::new(alloc, 1000, piece, Vec::new(alloc))?;
    let status = batch(
        alloc,
        one_word(alloc, "script")?.as_slice(),
        &mut no_files(alloc),
        &mut src,
        &mut out,
    );
    Ok((status.number(), out.bytes().to_vec(alloc)?))
}

#[test]
fn scripts_are_answered_line_by_line(rt: HostRuntime) -> Result<(), Fail> {
    let alloc = rt.alloc();
    let twice =
        "s1: OK 1\ns1: ERR 1062 23000 Duplicate entry '7' for key 't1_u': row (1) on commerce/-80\n";
    for (script, status, printed) in [
        ("run s1 INSERT INTO t1(id,u) VALUES(1,7)\n", 0, "s1: OK 1\n"),
        ("", 0, ""),
        (
            "run s1 INSERT INTO t1(id,u) VALUES(1,7)\nrun s1 INSERT INTO t1(id,u) VALUES(1,7)\nrun s1 INSERT INTO t1(id,u) VALUES(1,8)\n",
            0,
            "s1: OK 1\ns1: ERR 1062 23000 Duplicate entry '7' for key 't1_u': row (1) on commerce/-80\ns1: ERR 1062 23000 Duplicate entry '1' for key 'PRIMARY': row (1) on commerce/-80\n",
        ),
        ("run s1 SELECT", 2, "line 1 is not a script line\n"),
        // The last LF may be missing, and a CR before an LF is dropped, but no other.
        (
            "run s1 INSERT INTO t1(id,u) VALUES(1,7)\r\nrun s1 INSERT INTO t1(id,u) VALUES(1,7)",
            0,
            twice,
        ),
        (
            "run s1 INSERT INTO t1(id,u) VALUES(1,7)\r",
            2,
            "line 1 is not a script line\n",
        ),
        ("\r\n\r", 2, "line 2 is not a script line\n"),
        // Lines that say nothing are counted.
        (
            "\n# 1, 7\n\r\nrun s1 INSERT INTO t1(id,u) VALUES(1,7)\n #\nrun s1 INSERT INTO t1(id,u) VALUES(2,8)\n",
            2,
            "s1: OK 1\nline 5 is not a script line\n",
        ),
        // Numbers are 1 to 20 digits of at most 64 bits.
        (
            "run s1 INSERT INTO t1(id,u) VALUES(00000000000000000001,18446744073709551615)\nrun s1 INSERT INTO t1(id,u) VALUES(1,18446744073709551616)\n",
            2,
            "s1: OK 1\nline 2 is not a script line\n",
        ),
        (
            "run s1 INSERT INTO t1(id,u) VALUES(000000000000000000001,7)\n",
            2,
            "line 1 is not a script line\n",
        ),
        (
            "run s1 INSERT INTO t1(id,u) VALUES(123456789012345678901234567890123456789012345678901234567890,7)\n",
            2,
            "line 1 is not a script line\n",
        ),
        (
            "run s1 INSERT INTO t1(id,u) VALUES(,7)\n",
            2,
            "line 1 is not a script line\n",
        ),
        (
            "#\0\nrun s1 INSERT INTO t1(id,u) VALUES(1,7\0)\n",
            2,
            "line 2 is not a script line\n",
        ),
        (
            "run s2 INSERT INTO t1(id,u) VALUES(1,7)\n",
            2,
            "line 1 is not a script line\n",
        ),
    ] {
        for piece in [1, 2, 7, 64, 5000] {
            let (got, text) = played(alloc, script.as_bytes(), piece)?;
            assert_eq!(rt; got, status, "{script} in pieces of {piece}");
            assert_eq!(rt;
                text.as_slice(),
                printed.as_bytes(),
                "{script} in pieces of {piece}"
            );
        }
    }
    Ok(())
}

// A comment of this length with its end.
fn comment(alloc: Global, len: usize, end: &[u8]) -> Result<Vec<u8>, AllocError> {
    let mut script = vec![in alloc; b'#'; len]?;
    script.extend_from_slice(end)?;
    Ok(script)
}

#[test]
fn lines_and_their_number_have_limits(rt: HostRuntime) -> Result<(), Fail> {
    let alloc = rt.alloc();
    let fault = b"line 1 is not a script line\n".as_slice();
    for (script, status, printed) in [
        (comment(alloc, 1048576, b"\n")?, 0, b"".as_slice()),
        (comment(alloc, 1048576, b"\r\n")?, 0, b"".as_slice()),
        (comment(alloc, 1048576, b"")?, 0, b"".as_slice()),
        (comment(alloc, 1048576, b"\r")?, 2, fault),
        (comment(alloc, 1048577, b"\n")?, 2, fault),
        (comment(alloc, 1048577, b"")?, 2, fault),
        (comment(alloc, 1048576, b"\r\r\n")?, 2, fault),
        (vec![in alloc; b'\n'; 1000000]?, 0, b"".as_slice()),
        (
            vec![in alloc; b'\n'; 1000001]?,
            2,
            b"line 1000001 is not a script line\n".as_slice(),
        ),
    ] {
        let (got, text) = played(alloc, script.as_slice(), 4096)?;
        assert_eq!(rt; got, status, "{}", script.len());
        assert_eq!(rt; text.as_slice(), printed, "{}", script.len());
    }
    Ok(())
}

#[test]
fn faults_of_the_outside_end_a_script(rt: HostRuntime) -> Result<(), Fail> {
    let alloc = rt.alloc();
    let script =
        b"run s1 INSERT INTO t1(id,u) VALUES(1,7)\nrun s1 INSERT INTO t1(id,u) VALUES(2,8)\n";
    for (failing_read, failing_write, room, status, printed) in [
        (2, 0, 100, 3, "s1: OK 1\n"),
        (1, 0, 100, 3, ""),
        (0, 1, 100, 4, ""),
        (0, 2, 100, 4, "s1: OK 1\n"),
        (0, 0, 4, 4, "s1: "),
        (0, 0, 0, 4, ""),
        (0, 0, 18, 0, "s1: OK 1\ns1: OK 1\n"),
    ] {
        let mut src = MemorySource::new(script.to_vec(alloc)?, 50, [failing_read].to_vec(alloc)?);
        let mut out = MemorySink::new(alloc, room, 20, [failing_write].to_vec(alloc)?)?;
        let words = one_word(alloc, "script")?;
        let got = batch(
            alloc,
            words.as_slice(),
            &mut no_files(alloc),
            &mut src,
            &mut out,
        );
        assert_eq!(rt;
            got.number(),
            status,
            "{failing_read} {failing_write} {room}"
        );
        assert_eq!(rt;
            out.bytes(),
            printed.as_bytes(),
            "{failing_read} {failing_write} {room}"
        );
    }
    Ok(())
}

#[test]
fn other_words_are_refused(rt: HostRuntime) -> Result<(), Fail> {
    let alloc = rt.alloc();
    let mut two = one_word(alloc, "script")?;
    two.push(String::from_str(alloc, "script")?)?;
    for words in [
        Vec::new(alloc),
        one_word(alloc, "Script")?,
        one_word(alloc, "serve")?,
        two,
    ] {
        let mut src = SteadySource::new(b"#".to_vec(alloc)?, 1);
        assert_eq!(rt;
            batch(
                alloc,
                words.as_slice(),
                &mut no_files(alloc),
                &mut src,
                &mut SteadySink
            )
            .number(),
            1
        );
        assert_eq!(rt; src.rest(), b"#".as_slice());
    }
    Ok(())
}
