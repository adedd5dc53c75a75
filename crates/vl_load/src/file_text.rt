use vl_values::bytes::Bytes;

/// A file as it was loaded.
#[derive(Drop)]
pub(crate) struct FileText {
    /// The name by which it was loaded, with its folder.
    pub(crate) name: Bytes,
    pub(crate) text: Bytes,
}
