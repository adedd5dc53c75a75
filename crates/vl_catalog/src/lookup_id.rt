/// Which vindex of a keyspace's VSchema a lookup is: the places of both.
#[derive(Clone, Copy, Debug, PartialEq, Eq)]
pub struct LookupId {
    pub keyspace: usize,
    pub vindex: usize,
}
