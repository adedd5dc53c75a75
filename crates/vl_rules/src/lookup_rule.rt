/// A rule that speaks of a lookup.
#[derive(Clone, Copy)]
pub(crate) enum LookupRule {
    C6,
    C7,
    C8,
    C9,
    C10,
    C13,
    C14,
}
