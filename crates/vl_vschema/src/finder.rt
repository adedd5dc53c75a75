ghost use Rattle.std.specs.Prelude.{◌≡◌, ℕ, List, OnOk, fold};
ghost use Rattle.serde_json.specs.Data.{Data};
ghost use Rattle.serde_json.specs.View.{view};

use crate::path::Path;
use crate::path_sink::PathSink;
use serde_json::Value;
use std::alloc::{AllocError, Global};

/// A look at a value that finds paths in it, such as those that break a rule.
pub(crate) trait Finder {
    /// The paths that it finds, by the path of a value and the value.
    ghost found: { Self → List ℕ → Data → List (List ℕ) };

    fn find<S: PathSink>(
        &self,
        alloc: Global,
        path: &Path,
        value: &Value,
        sink: &mut S,
    ) -> Result<(), AllocError>
        ensures { OnOk result (sink.new ≡ fold S.with sink.old (found self.now path.now (view value.now))) };
}
