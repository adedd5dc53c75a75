// Why a file wasn't opened.
#[derive(Clone, Copy, Debug, PartialEq, Eq)]
pub(crate) enum LoadError {
    Memory,
    Device,
    NotOurs(usize),
}
