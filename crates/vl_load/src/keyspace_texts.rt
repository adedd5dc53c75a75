use crate::file_text::FileText;
use vl_vschema::KeyspaceFile;

/// A keyspace of the catalog file, with the texts of its two files.
#[derive(Drop)]
pub(crate) struct KeyspaceTexts {
    pub(crate) keyspace: KeyspaceFile,
    pub(crate) vschema: FileText,
    pub(crate) schema: FileText,
}
