use crate::Sides;

/// Where the sides of a shard are kept: none while they are handed out.
#[derive(Debug, Drop)]
pub(crate) struct Slot<D> {
    pub shard: u32,
    pub sides: Option<Sides<D>>,
}
