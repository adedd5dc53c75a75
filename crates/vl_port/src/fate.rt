/// What has become of a shard session that was opened.
#[derive(Clone, Copy, Debug, PartialEq, Eq)]
pub enum Fate {
    /// Nothing yet.
    Live,
    /// A Drop killed it.
    Dropped,
    /// The link lost its action, or its shard couldn't be opened for it.
    Cut,
}
