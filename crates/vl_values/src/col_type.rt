/// The type of a column. `VarChar` and `VarBinary` carry the greatest number of bytes of a value.
#[derive(Clone, Copy, Debug, PartialEq, Eq)]
pub enum ColType {
    BigInt,
    BigUint,
    Int,
    Uint32,
    VarChar(u16),
    VarBinary(u16),
}
