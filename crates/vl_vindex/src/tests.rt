use crate::{KeyRange, Ring, RingFault, binary_md5, numeric};
use std::alloc::Global;
use std::test::Fail;

// What reading a text gives: the range as it is printed, or the place of the fault.
fn told(alloc: Global, text: &str) -> Result<String, Fail> {
    match KeyRange::read(text.as_bytes()) {
        Ok(range) => Ok(format!(in alloc; "{range}")?),
        Err(bad) => {
            let at = bad.at;
            Ok(format!(in alloc; "wrong at {at}")?)
        }
    }
}

#[test]
fn ranges_are_read_or_refused_at_their_place(rt: HostRuntime) -> Result<(), Fail> {
    let table = [
        ("-", "-"),
        ("0", "-"),
        ("-80", "-80"),
        ("80-", "80-"),
        ("40-80", "40-80"),
        ("AB-cDeF", "ab-cdef"),
        ("00-", "00-"),
        ("80-8000", "80-8000"),
        (
            "-0123456789abcdef0123456789abcdef",
            "-0123456789abcdef0123456789abcdef",
        ),
        ("", "wrong at 0"),
        ("8-", "wrong at 1"),
        ("00", "wrong at 2"),
        ("80", "wrong at 2"),
        ("80-8", "wrong at 4"),
        ("x", "wrong at 0"),
        ("8g-", "wrong at 1"),
        ("0x", "wrong at 1"),
        ("-80-", "wrong at 3"),
        ("80-90 ", "wrong at 5"),
        ("0123456789abcdef0123456789abcdef0-", "wrong at 32"),
        ("-0123456789abcdef0123456789abcdef0", "wrong at 33"),
        ("80-80", "wrong at 3"),
        ("80-40", "wrong at 3"),
        ("8000-80", "wrong at 5"),
    ];
    for (text, want) in table {
        let said = told(rt.alloc(), text)?;
        assert_eq!(rt; said.as_str(), want, "at {text}");
    }
    Ok(())
}

#[test]
fn a_range_holds_its_start_and_not_its_end(rt: HostRuntime) -> Result<(), Fail> {
    let range = KeyRange::read(b"40-80").ok().ok_or("a range")?;
    let whole = KeyRange::read(b"0").ok().ok_or("a range")?;
    let table = [
        ("", false),
        ("3fff", false),
        ("40", true),
        ("4000", true),
        ("7fffff", true),
        ("80", false),
        ("ff", false),
    ];
    for (digits, want) in table {
        let ksid = hex::decode(rt.alloc(), digits).ok().ok_or("digits")?;
        assert_eq!(rt; range.contains(&ksid), want, "at {digits}");
        assert!(rt; whole.contains(&ksid), "at {digits}");
    }
    Ok(())
}

// What a list of ranges gives: the ring's ranges in order, or its first fault.
fn ring_told(alloc: Global, texts: &[&str]) -> Result<String, Fail> {
    let mut ranges = Vec::new(alloc);
    for text in texts {
        ranges.push(KeyRange::read(text.as_bytes()).ok().ok_or("a range")?)?;
    }
    match Ring::new(ranges) {
        Ok(ring) => {
            let mut said = String::new(alloc);
            for range in ring.copy(alloc)?.ranges() {
                let next = format!(in alloc; "{range} ")?;
                said.push_str(next.as_str())?;
            }
            Ok(said)
        }
        Err(RingFault::Gap { after }) => Ok(format!(in alloc; "gap after {after}")?),
        Err(RingFault::Overlap { at }) => Ok(format!(in alloc; "overlap at {at}")?),
        Err(RingFault::Memory) => Err("too many ranges".into()),
    }
}

#[test]
fn rings_are_made_or_refused_at_the_least_place(rt: HostRuntime) -> Result<(), Fail> {
    let table: [(&[&str], &str); 13] = [
        (&["-"], "- "),
        (&["80-", "-80"], "-80 80- "),
        (&["c0-", "-40", "80-c0", "40-80"], "-40 40-80 80-c0 c0- "),
        (&[], "gap after "),
        (&["-40", "80-"], "gap after 40"),
        (&["40-80", "80-"], "gap after "),
        (&["-40", "40-80"], "gap after 80"),
        (&["-80", "8000-"], "gap after 80"),
        (&["-80", "40-"], "overlap at 40"),
        (&["-", "-"], "overlap at "),
        (&["-", "80-"], "overlap at 80"),
        (&["-40", "40-80", "40-60", "80-"], "overlap at 40"),
        (&["-40", "30-60", "80-"], "overlap at 30"),
    ];
    for (texts, want) in table {
        let said = ring_told(rt.alloc(), texts)?;
        assert_eq!(rt; said.as_str(), want);
    }
    Ok(())
}

#[test]
fn numbers_go_to_the_two_shards_of_a_halved_keyspace(rt: HostRuntime) -> Result<(), Fail> {
    let low = KeyRange::read(b"-80").ok().ok_or("a range")?;
    let high = KeyRange::read(b"80-").ok().ok_or("a range")?;
    let ring = match Ring::new(vec![in rt.alloc(); low, high]?) {
        Ok(ring) => ring,
        Err(_) => return Err("a ring".into()),
    };
    let table = [
        (0, [0, 0, 0, 0, 0, 0, 0, 0], 0),
        (0x0102, [0, 0, 0, 0, 0, 0, 1, 2], 0),
        (
            0x7fff_ffff_ffff_ffff,
            [0x7f, 255, 255, 255, 255, 255, 255, 255],
            0,
        ),
        (0x8000_0000_0000_0000, [0x80, 0, 0, 0, 0, 0, 0, 0], 1),
        (u64::MAX, [255, 255, 255, 255, 255, 255, 255, 255], 1),
    ];
    for (number, want, shard) in table {
        let ksid = numeric(number);
        assert_eq!(rt; ksid, want);
        assert_eq!(rt; ring.shard_of(&ksid), shard, "at {number}");
    }
    assert_eq!(rt; ring.shard_of(&binary_md5(b"abc")), 1);
    assert_eq!(rt; ring.shard_of(b""), 0);
    Ok(())
}

// The test suite of RFC 1321, appendix A.5.
#[test]
fn digests_are_those_of_the_standard(rt: HostRuntime) -> Result<(), Fail> {
    let table = [
        ("", "d41d8cd98f00b204e9800998ecf8427e"),
        ("a", "0cc175b9c0f1b6a831c399e269772661"),
        ("abc", "900150983cd24fb0d6963f7d28e17f72"),
        ("message digest", "f96b697d7cb7938d525a2f31aaf161d0"),
        (
            "abcdefghijklmnopqrstuvwxyz",
            "c3fcd3d76192e4007dfb496cca67e13b",
        ),
        (
            "ABCDEFGHIJKLMNOPQRSTUVWXYZabcdefghijklmnopqrstuvwxyz0123456789",
            "d174ab98d277d9f5a5611c2c9f419d9f",
        ),
        (
            "12345678901234567890123456789012345678901234567890123456789012345678901234567890",
            "57edf4a22be3c955ac49da2e2107b67a",
        ),
    ];
    for (text, want) in table {
        let digest = hex::encode(rt.alloc(), binary_md5(text.as_bytes()))?;
        assert_eq!(rt; digest.as_str(), want, "at {text}");
    }
    Ok(())
}
