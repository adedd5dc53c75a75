ghost use Rattle.std.specs.Prelude.{◌≡◌};
ghost use Rattle.vl_vindex.specs.Vindex.{numeric_ksid, md5_ksid};

use md5::{Digest, Md5};

/// The keyspace id of a number under `numeric`: its eight bytes, big-endian.
pub fn numeric(n: u64) -> [u8; 8]
    ensures { result ≡ numeric_ksid n }
{
    n.to_be_bytes()
}

/// The keyspace id of a byte string under `binary_md5`: its MD5 digest (RFC 1321).
pub fn binary_md5(bytes: &[u8]) -> [u8; 16]
    ensures { result ≡ md5_ksid bytes.now }
{
    Md5::digest(bytes)
}
