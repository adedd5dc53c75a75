use vl_catalog::Catalog;
use vl_values::bytes::Bytes;
use vl_values::items::Items;

/// A catalog from its files. It keeps the rules.
#[derive(Drop)]
pub struct Loaded {
    pub catalog: Catalog,
    /// The path of each thing that the files have besides, behind its file's name: each once, by bytes.
    pub ignored: Items<Bytes>,
}
