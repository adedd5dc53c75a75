use crate::lookup_def::LookupDef;
use crate::vindex::Vindex;
use vl_values::bytes::Bytes;

/// A vindex of a keyspace's VSchema.
#[derive(Drop)]
pub struct VindexDef {
    pub name: Bytes,
    pub kind: VindexKind,
}

/// Which function gives the keyspace id of a value.
#[derive(Drop)]
pub enum VindexKind {
    Primary(Vindex),
    Lookup(LookupDef),
}
