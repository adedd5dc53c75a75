ghost use Rattle.std.specs.Prelude.{◌<◌, ◌+◌, ◌^◌, length};

/// Bytes of a file that aren't read yet. They end with a record's body, or with the file.
#[derive(Clone, Copy)]
pub(crate) struct Reader<'a> {
    pub bytes: &'a [u8],
    /// The offset of the first of them in the file.
    pub offset: usize,
    pub is_body: bool,
    ghost fits: { offset + length bytes.now < 2 ^ 63 },
}
