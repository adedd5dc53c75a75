ghost use Rattle.std.specs.Prelude.{◌≡◌, OnOk, fold};
ghost use Rattle.serde_json.specs.View.{view};
ghost use Rattle.vl_vschema.specs.Json.{at_member, each_member, each_item, here};

use crate::finder::Finder;
use crate::path::Path;
use crate::path_sink::PathSink;
use serde_json::Value;
use std::alloc::{AllocError, Global};

/// Looks at the member of this name, where the value has it.
pub(crate) fn look_at<F: Finder, S: PathSink>(
    finder: &F,
    alloc: Global,
    path: &Path,
    value: &Value,
    name: &str,
    sink: &mut S,
) -> Result<(), AllocError>
    ensures { OnOk result (sink.new
        ≡ fold S.with sink.old (at_member name.now (F.found finder.now) path.now (view value.now))) }
{
    let Some(member) = value.get(name) else {
        return Ok(());
    };
    let path = path.child(alloc, name.as_bytes())?;
    finder.find(alloc, &path, member, sink)
}

/// Finds the value's own path.
#[derive(Drop)]
pub(crate) struct Here;

impl Finder for Here {
    ghost found = { λ _. here };

    fn find<S: PathSink>(
        &self,
        alloc: Global,
        path: &Path,
        _value: &Value,
        sink: &mut S,
    ) -> Result<(), AllocError> {
        sink.note(alloc, path)
    }
}

/// Looks at each member of an object.
#[derive(Drop)]
pub(crate) struct EachMember<F>(pub(crate) F);

impl<F: Finder> Finder for EachMember<F> {
    ghost found = { λ s. each_member (F.found s.0) };

    fn find<S: PathSink>(
        &self,
        alloc: Global,
        path: &Path,
        value: &Value,
        sink: &mut S,
    ) -> Result<(), AllocError> {
        let Some(members) = value.as_object() else {
            return Ok(());
        };
        for (name, member) in members.iter() {
            let path = path.child(alloc, name.as_bytes())?;
            self.0.find(alloc, &path, member, sink)?;
        }
        Ok(())
    }
}

/// Looks at each item of a list.
#[derive(Drop)]
pub(crate) struct EachItem<F>(pub(crate) F);

impl<F: Finder> Finder for EachItem<F> {
    ghost found = { λ s. each_item (F.found s.0) };

    fn find<S: PathSink>(
        &self,
        alloc: Global,
        path: &Path,
        value: &Value,
        sink: &mut S,
    ) -> Result<(), AllocError> {
        let Some(items) = value.as_array() else {
            return Ok(());
        };
        for (position, item) in items.iter().enumerate() {
            let path = path.item(alloc, position)?;
            self.0.find(alloc, &path, item, sink)?;
        }
        Ok(())
    }
}

/// Looks at the member of a name, where the value has it.
#[derive(Drop)]
pub(crate) struct At<F> {
    pub(crate) name: &'static str,
    pub(crate) finder: F,
}

impl<F: Finder> Finder for At<F> {
    ghost found = { λ s. at_member s.name.now (F.found s.finder) };

    fn find<S: PathSink>(
        &self,
        alloc: Global,
        path: &Path,
        value: &Value,
        sink: &mut S,
    ) -> Result<(), AllocError> {
        look_at(&self.finder, alloc, path, value, self.name, sink)
    }
}
