use vl_values::key::Key;

/// A key of a lookup's table that the transaction claims.
#[derive(Debug, Drop)]
pub struct Claimed {
    pub key: Key,
    /// Whether the claim has passed.
    pub passed: bool,
}
