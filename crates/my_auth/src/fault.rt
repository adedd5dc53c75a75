/// How many bytes are left at the first byte that is wrong.
#[derive(Clone, Copy, Debug)]
pub struct Fault {
    pub left: usize,
}
