/// A row of t1.
#[derive(Clone, Copy, Debug, PartialEq, Eq)]
pub struct Line {
    pub id: u64,
    pub u: u64,
}
