/// A row of t1_u_idx: a value of u and the keyspace id of the row that has it.
#[derive(Clone, Copy, Debug, PartialEq, Eq)]
pub struct Entry {
    pub u: u64,
    pub ksid: [u8; 8],
}
