/// Why a text is no key range: what is wrong stands at byte `at`, counted from 0.
#[derive(Clone, Copy, Debug, PartialEq, Eq)]
pub struct BadRange {
    pub at: usize,
}
