use std::marker::Model;

/// A file in memory: its name, and its bytes.
#[derive(Debug, Drop)]
pub struct MemoryFile {
    name: Vec<u8>,
    bytes: Vec<u8>,
}

impl Model for MemoryFile {
    ghost use Rattle.vl_base.specs.Fakes.{FileState};

    ghost Value = { FileState };

    ghost view = { λ f. record { name = f.name.items; bytes = f.bytes.items } };
}

impl MemoryFile {
    ghost use Rattle.std.specs.Prelude.{◌≡◌};

    /// A file of this name with these bytes.
    pub fn new(name: Vec<u8>, bytes: Vec<u8>) -> MemoryFile
        ensures { result ≡ record { name = name.items; bytes = bytes.items } }
    {
        MemoryFile { name, bytes }
    }

    /// Its name.
    pub fn name(&self) -> &[u8]
        ensures { result.now ≡ self.now.name }
    {
        self.name.as_slice()
    }

    /// Its bytes.
    pub fn bytes(&self) -> &[u8]
        ensures { result.now ≡ self.now.bytes }
    {
        self.bytes.as_slice()
    }
}
