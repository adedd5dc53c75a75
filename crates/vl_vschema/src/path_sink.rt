ghost use Rattle.std.specs.Prelude.{◌≡◌, ℕ, List, OnOk};

use crate::path::Path;
use std::alloc::{AllocError, Global};

/// What takes the paths that a look finds, one after another.
pub(crate) trait PathSink {
    /// The sink after a path.
    ghost with: { Self → List ℕ → Self };

    fn note(&mut self, alloc: Global, path: &Path) -> Result<(), AllocError>
        ensures { OnOk result (self.new ≡ with self.old path.now) };
}
