/// Where a write begins and how many bytes it has.
#[derive(Clone, Copy, Debug)]
pub(crate) struct Piece {
    pub offset: usize,
    pub len: usize,
}
