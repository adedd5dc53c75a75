ghost use Rattle.std.specs.Prelude.{◌≡◌, map};
ghost use Rattle.std.specs.List.{list_any};
ghost use Rattle.std.specs.Str.{bytes_eq};

use crate::finder::Finder;
use crate::path::Path;
use crate::path_sink::PathSink;
use serde_json::Value;
use std::alloc::{AllocError, Global};

fn is_among(names: &[&str], name: &str) -> bool
    ensures { result ≡ list_any (bytes_eq name.now) (map (λ n. n.now) names.now) }
{
    for known in names {
        if name == *known {
            return true;
        }
    }
    false
}

/// Finds the members of an object that have other names than these.
#[derive(Drop)]
pub(crate) struct Others {
    pub(crate) names: &'static [&'static str],
}

impl Finder for Others {
    ghost use Rattle.vl_vschema.specs.Ignored.{others};

    ghost found = { λ s. others (map (λ n. n.now) s.names.now) };

    fn find<S: PathSink>(
        &self,
        alloc: Global,
        path: &Path,
        value: &Value,
        sink: &mut S,
    ) -> Result<(), AllocError> {
        let Some(members) = value.as_object() else {
            return Ok(());
        };
        for (name, _) in members.iter() {
            if !is_among(self.names, name.as_str()) {
                let path = path.child(alloc, name.as_bytes())?;
                sink.note(alloc, &path)?;
            }
        }
        Ok(())
    }
}
