ghost use Rattle.std.specs.Prelude.{◌≡◌, None, OnOk};

use crate::path::Path;
use crate::path_sink::PathSink;
use std::alloc::{AllocError, Global};
use std::cmp::Ordering;
use std::marker::Model;

/// The least of the paths so far, if there is one.
#[derive(Drop)]
pub(crate) struct Least {
    path: Option<Path>,
}

impl Model for Least {
    ghost use Rattle.std.specs.Prelude.{ℕ, List, Option};

    ghost Value = { Option (List ℕ) };

    ghost view = { λ l. l.path };
}

impl Least {
    pub(crate) fn new() -> Least
        ensures { result ≡ None }
    {
        Least { path: None }
    }

    pub(crate) fn into_path(self) -> Option<Path>
        ensures { result ≡ self }
    {
        let Least { path } = self;
        path
    }
}

impl PathSink for Least {
    ghost use Rattle.vl_vschema.specs.Sink.{lesser};

    ghost with = { lesser };

    fn note(&mut self, alloc: Global, path: &Path) -> Result<(), AllocError> {
        if let Some(least) = &self.path {
            if path.cmp(least) != Ordering::Less {
                return Ok(());
            }
        }
        self.path = Some(path.copy(alloc)?);
        Ok(())
    }
}
