use crate::{
    Failed, FileFault, Files, FolderFiles, MemoryFile, MemoryFiles, MemorySink, MemorySource, Sink,
    Source, StdSink, StdSource, SteadySink, SteadySource, write_all,
};
use std::alloc::{AllocError, Global};
use std::fs;
use std::test::Fail;

#[test]
fn pieces_come_in_order_and_listed_reads_fail(rt: HostRuntime) -> Result<(), Fail> {
    let alloc = rt.alloc();
    let bytes = b"abcde".to_vec(alloc)?;
    let mut source = MemorySource::new(bytes, 2, [2].to_vec(alloc)?);
    let mut buf = [0; 8];
    for want in [Ok(2), Err(Failed), Ok(2), Ok(1), Ok(0)] {
        assert_eq!(rt; source.read(&mut buf), want);
    }
    assert_eq!(rt; &buf[..2], b"ed".as_slice());
    assert_eq!(rt; source.rest(), b"".as_slice());
    assert_eq!(rt; source.given_count(), 3);
    assert_eq!(rt; source.fault_count(), 1);
    Ok(())
}

#[test]
fn a_sink_takes_what_fits_and_listed_writes_fail(rt: HostRuntime) -> Result<(), Fail> {
    let alloc = rt.alloc();
    let mut sink = MemorySink::new(alloc, 5, 2, [2].to_vec(alloc)?)?;
    for (bytes, want) in [
        (b"abc".as_slice(), Ok(2)),
        (b"c".as_slice(), Err(Failed)),
        (b"cd".as_slice(), Ok(2)),
        (b"ef".as_slice(), Ok(1)),
        (b"f".as_slice(), Err(Failed)),
        (b"".as_slice(), Ok(0)),
    ] {
        assert_eq!(rt; sink.write(bytes), want);
    }
    assert_eq!(rt; sink.bytes(), b"abcde".as_slice());
    assert_eq!(rt; sink.fault_count(), 2);
    Ok(())
}

#[test]
fn all_is_written_in_pieces_or_a_front_of_it(rt: HostRuntime) -> Result<(), Fail> {
    let alloc = rt.alloc();
    let mut sink = MemorySink::new(alloc, 7, 3, Vec::new(alloc))?;
    assert_eq!(rt; write_all(&mut sink, b"abcd"), Ok(()));
    assert_eq!(rt; sink.bytes(), b"abcd".as_slice());
    assert_eq!(rt; write_all(&mut sink, b"efgh"), Err(Failed));
    assert_eq!(rt; sink.bytes(), b"abcdefg".as_slice());
    assert_eq!(rt; write_all(&mut SteadySink, b"abcd"), Ok(()));
    Ok(())
}

#[test]
fn a_steady_source_gives_all(rt: HostRuntime) -> Result<(), Fail> {
    let mut source = SteadySource::new(b"abc".to_vec(rt.alloc())?, 8);
    let mut buf = [0; 2];
    for want in [Ok(2), Ok(1), Ok(0)] {
        assert_eq!(rt; source.read(&mut buf), want);
    }
    assert_eq!(rt; source.rest(), b"".as_slice());
    assert_eq!(rt; source.given_count(), 2);
    Ok(())
}

#[test]
fn the_adapters_carry_the_bytes(rt: HostRuntime) -> Result<(), Fail> {
    let mut source = StdSource::new(b"abc".as_slice());
    let mut buf = [0; 4];
    assert_eq!(rt; source.read(&mut buf), Ok(3));
    assert_eq!(rt; &buf[..3], b"abc".as_slice());
    assert_eq!(rt; source.read(&mut buf), Ok(0));

    let mut written = Vec::new(rt.alloc());
    assert_eq!(rt; write_all(&mut StdSink::new(&mut written), b"abc"), Ok(()));
    assert_eq!(rt; written.as_slice(), b"abc".as_slice());
    Ok(())
}

// What a load gives: the length of the file, or the fault.
fn outcome<F: Files>(files: &mut F, name: &str) -> Result<usize, FileFault> {
    match files.load(name) {
        Ok(bytes) => Ok(bytes.len()),
        Err(fault) => Err(fault),
    }
}

fn zeros(alloc: Global, len: usize) -> Result<Vec<u8>, AllocError> {
    let mut bytes = Vec::with_capacity(alloc, len)?;
    bytes.resize(len, 0)?;
    Ok(bytes)
}

#[test]
fn files_in_memory_are_loaded_by_name(rt: HostRuntime) -> Result<(), Fail> {
    let alloc = rt.alloc();
    let mut list = Vec::new(alloc);
    list.push(MemoryFile::new(b"a".to_vec(alloc)?, zeros(alloc, 3)?))?;
    list.push(MemoryFile::new(b"a".to_vec(alloc)?, zeros(alloc, 4)?))?;
    list.push(MemoryFile::new(b"most".to_vec(alloc)?, zeros(alloc, 1_048_576)?))?;
    list.push(MemoryFile::new(b"more".to_vec(alloc)?, zeros(alloc, 1_048_577)?))?;
    let mut files = MemoryFiles::new(alloc, list, [2].to_vec(alloc)?);
    assert_eq!(rt; outcome(&mut files, "a"), Ok(3));
    assert_eq!(rt; outcome(&mut files, "a"), Err(FileFault::Failed));
    assert_eq!(rt; outcome(&mut files, "most"), Ok(1_048_576));
    assert_eq!(rt; outcome(&mut files, "more"), Err(FileFault::TooLong));
    assert_eq!(rt; outcome(&mut files, "b"), Err(FileFault::Failed));
    assert_eq!(rt; files.fault_count(), 2);
    Ok(())
}

#[test]
fn files_of_the_system_are_loaded_by_path(rt: HostRuntime) -> Result<(), Fail> {
    let alloc = rt.alloc();
    let name = "vl_base_test_file";
    let mut files = FolderFiles::new(&rt, alloc);
    for (len, want) in [
        (0, Ok(0)),
        (10_000, Ok(10_000)),
        (1_048_576, Ok(1_048_576)),
        (1_048_577, Err(FileFault::TooLong)),
    ] {
        let bytes = zeros(alloc, len)?;
        assert!(rt; fs::write(&rt, name, bytes.as_slice()).is_ok());
        assert_eq!(rt; outcome(&mut files, name), want);
    }
    assert!(rt; fs::remove_file(&rt, name).is_ok());
    assert_eq!(rt; outcome(&mut files, name), Err(FileFault::Failed));
    assert_eq!(rt; outcome(&mut files, "/"), Err(FileFault::Failed));
    Ok(())
}
