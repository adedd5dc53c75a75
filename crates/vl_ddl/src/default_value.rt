/// What stands behind DEFAULT.
#[derive(Clone, Copy, Debug)]
pub enum DefaultValue {
    Null,
    /// Another token, which is a default in the wider language alone.
    Other,
}
