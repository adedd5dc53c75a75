use std::alloc::{AllocError, Global};
use std::marker::Model;

/// The name of a file as another file gives it, which contracts see as its bytes.
#[derive(Debug, Drop)]
pub struct FileName {
    name: String,
}

impl Model for FileName {
    ghost use Rattle.std.specs.Prelude.{ℕ, List};
    ghost use Rattle.std.specs.String.{string_bytes};

    ghost Value = { List ℕ };

    ghost view = { λ f. string_bytes f.name };
}

impl FileName {
    ghost use Rattle.std.specs.Prelude.{◌≡◌, IfOk};

    pub(crate) fn from_str(alloc: Global, name: &str) -> Result<FileName, AllocError>
        ensures { IfOk result (λ f. f ≡ name.now) }
    {
        let name = String::from_str(alloc, name)?;
        Ok(FileName { name })
    }

    /// The name as a text.
    pub fn as_str(&self) -> &str
        ensures { result.now ≡ self.now }
    {
        self.name.as_str()
    }
}
