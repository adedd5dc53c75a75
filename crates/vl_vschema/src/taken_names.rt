ghost use Rattle.std.specs.Prelude.{◌≡◌, ◌||◌, ℕ, List, not, codes, decimal, fold, IfOk, OnOk};
ghost use Rattle.std.specs.BTreeSet.{contains_text};
ghost use Rattle.std.specs.Str.{bytes_eq};
ghost use Rattle.serde_json.specs.View.{view};
ghost use Rattle.vl_vschema.specs.CatalogFile.{is_taken_by};
ghost use Rattle.vl_vschema.specs.Json.{is_this, text_at, unless};
ghost use Rattle.vl_vschema.specs.Path.{child};

use crate::finder::Finder;
use crate::path::Path;
use crate::path_sink::PathSink;
use serde_json::Value;
use std::alloc::{AllocError, Global};
use std::collections::BTreeSet;

// Adds a name, and says whether it is a new one.
fn add_name(alloc: Global, names: &mut BTreeSet<String>, name: &str) -> Result<bool, AllocError>
    ensures new { IfOk result (λ new. new ≡ not (contains_text names.old name.now)) }
    ensures added { OnOk result ((other : List ℕ)
        → contains_text names.new other ≡ (contains_text names.old other || bytes_eq name.now other)) }
{
    let name = String::from_str(alloc, name)?;
    Ok(names.insert(name)?)
}

// Whether the keyspace's name is among the names, where it has one, which is among them from then on.
fn is_taken(
    alloc: Global,
    names: &mut BTreeSet<String>,
    keyspace: &Value,
) -> Result<bool, AllocError>
    ensures taken { IfOk result (λ taken. taken
        ≡ is_taken_by (contains_text names.old) (text_at (codes "name") (view keyspace.now))) }
    ensures added { OnOk result ((other : List ℕ) → contains_text names.new other
        ≡ (contains_text names.old other || is_this other (text_at (codes "name") (view keyspace.now)))) }
{
    let Some(member) = keyspace.get("name") else {
        return Ok(false);
    };
    let Some(name) = member.as_str() else {
        return Ok(false);
    };
    let new = add_name(alloc, names, name)?;
    Ok(!new)
}

// Finds the keyspace's name, where it is among the names, and adds it to them.
fn look_at_name<S: PathSink>(
    alloc: Global,
    path: &Path,
    position: usize,
    keyspace: &Value,
    names: &mut BTreeSet<String>,
    sink: &mut S,
) -> Result<(), AllocError>
    ensures noted { OnOk result (sink.new ≡ fold S.with sink.old
        (unless (not (is_taken_by (contains_text names.old) (text_at (codes "name") (view keyspace.now))))
        (child (child path.now (decimal position)) (codes "name")))) }
    ensures added { OnOk result ((other : List ℕ) → contains_text names.new other
        ≡ (contains_text names.old other || is_this other (text_at (codes "name") (view keyspace.now)))) }
{
    if !is_taken(alloc, names, keyspace)? {
        return Ok(());
    }
    let path = path.item(alloc, position)?.child(alloc, b"name")?;
    sink.note(alloc, &path)
}

/// Finds the names that a keyspace before has.
#[derive(Drop)]
pub(crate) struct TakenNames;

impl Finder for TakenNames {
    ghost use Rattle.vl_vschema.specs.CatalogFile.{taken_names};

    ghost found = { λ _. taken_names };

    fn find<S: PathSink>(
        &self,
        alloc: Global,
        path: &Path,
        value: &Value,
        sink: &mut S,
    ) -> Result<(), AllocError> {
        let Some(keyspaces) = value.as_array() else {
            return Ok(());
        };
        let mut names = BTreeSet::new(alloc);
        for (position, keyspace) in keyspaces.iter().enumerate() {
            look_at_name(alloc, path, position, keyspace, &mut names, sink)?;
        }
        Ok(())
    }
}
