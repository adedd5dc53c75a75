/// The disk failed in an append. What is stored then is what the next opening finds.
#[derive(Clone, Copy, Debug, PartialEq, Eq)]
pub struct Device;
