/// The two disks of one shard. Side b is first used by checkpoints.
#[derive(Debug, Drop)]
pub struct Sides<D> {
    /// The file `shard-N.a`.
    pub a: D,
    /// The file `shard-N.b`.
    pub b: D,
}
