ghost use Rattle.std.specs.Prelude.{◌≡◌, Option};
ghost use Rattle.vl_catalog.specs.Vindex.{ksid_of_value, numeric_of, unsigned_of};

use crate::ksid::Ksid;
use vl_values::value::Value;
use vl_vindex::{binary_md5, numeric};

/// A primary vindex: how a keyspace id comes from a value.
#[derive(Clone, Copy, Debug, PartialEq, Eq)]
pub enum Vindex {
    /// Of a number that isn't negative, its eight bytes, big-endian.
    Numeric,
    /// Of bytes, or of a number's decimal text, the MD5 digest.
    BinaryMd5,
}

fn unsigned_of(value: &Value) -> Option<u64>
    ensures { result ≡ unsigned_of value.now }
{
    match value {
        Value::Uint(n) => Some(*n),
        Value::Int(n) => match u64::try_from(*n) {
            Ok(n) => Some(n),
            Err(_) => None,
        },
        Value::Null | Value::Bytes(_) => None,
    }
}

fn numeric_of(number: Option<u64>) -> Option<Ksid>
    ensures { result ≡ numeric_of number }
{
    match number {
        Some(n) => Some(Ksid::of_eight(numeric(n))),
        None => None,
    }
}

fn digest_of(value: &Value) -> Option<Ksid>
    ensures { result ≡ ksid_of_value Vindex.BinaryMd5 value.now }
{
    match value {
        Value::Null => None,
        Value::Int(n) => {
            let mut buffer = itoa::Buffer::new();
            let text = buffer.format(*n).as_bytes();
            Some(Ksid::of_sixteen(binary_md5(text)))
        }
        Value::Uint(n) => {
            let mut buffer = itoa::Buffer::new();
            let text = buffer.format(*n).as_bytes();
            Some(Ksid::of_sixteen(binary_md5(text)))
        }
        Value::Bytes(bytes) => Some(Ksid::of_sixteen(binary_md5(bytes.as_slice()))),
    }
}

impl Vindex {
    /// The keyspace id of a value. NULL has none, and under `numeric` neither have negative numbers
    /// and bytes.
    pub fn ksid_of(self, value: &Value) -> Option<Ksid>
        ensures { result ≡ ksid_of_value self value.now }
    {
        match self {
            Vindex::Numeric => numeric_of(unsigned_of(value)),
            Vindex::BinaryMd5 => digest_of(value),
        }
    }
}
