ghost use Rattle.std.specs.Prelude.{◌≡◌, [], codes, OnOk, IfOk, MatchOption, fold};
ghost use Rattle.serde_json.specs.View.{view};
ghost use Rattle.vl_vschema.specs.Breaking.{breaks, wrong_column_vindexes};
ghost use Rattle.vl_vschema.specs.Json.{at_member, each_member};
ghost use Rattle.vl_vschema.specs.Document.{IsLeastOf, IsLeast, IsSound};

use crate::finder::Finder;
use crate::kinds::{InObject, VschemaKinds};
use crate::least::Least;
use crate::lookup_flags::LookupFlags;
use crate::lookup_lacks::LookupLacks;
use crate::path::Path;
use crate::path_sink::PathSink;
use crate::special_table::SpecialTable;
use crate::unknown_type::UnknownType;
use crate::vschema_rule::VschemaRule;
use crate::walk::{At, EachItem, EachMember, look_at};
use crate::wrong_column_vindex::WrongColumnVindex;
use serde_json::Value;
use std::alloc::{AllocError, Global};

// In their order.
const RULES: [VschemaRule; 6] = [
    VschemaRule::MemberKind,
    VschemaRule::VindexType,
    VschemaRule::LookupMembers,
    VschemaRule::ColumnVindex,
    VschemaRule::PlainTable,
    VschemaRule::LookupFlag,
];

// Looks in each vindex.
fn find_in_vindexes<F: Finder + Drop, S: PathSink>(
    finder: F,
    alloc: Global,
    file: &Value,
    sink: &mut S,
) -> Result<(), AllocError>
    ensures { OnOk result (sink.new ≡ fold S.with sink.old
        (at_member (codes "vindexes") (each_member (F.found finder)) [] (view file.now))) }
{
    let root = Path::root(alloc);
    look_at(&EachMember(finder), alloc, &root, file, "vindexes", sink)
}

// Looks in each table.
fn find_in_tables<F: Finder + Drop, S: PathSink>(
    finder: F,
    alloc: Global,
    file: &Value,
    sink: &mut S,
) -> Result<(), AllocError>
    ensures { OnOk result (sink.new ≡ fold S.with sink.old
        (at_member (codes "tables") (each_member (F.found finder)) [] (view file.now))) }
{
    let root = Path::root(alloc);
    look_at(&EachMember(finder), alloc, &root, file, "tables", sink)
}

// What breaks V4.
fn find_wrong_column_vindexes<S: PathSink>(
    alloc: Global,
    file: &Value,
    sink: &mut S,
) -> Result<(), AllocError>
    ensures { OnOk result (sink.new
        ≡ fold S.with sink.old (wrong_column_vindexes [] (view file.now))) }
{
    let in_table = At {
        name: "column_vindexes",
        finder: EachItem(WrongColumnVindex {
            vindexes: file.get("vindexes"),
        }),
    };
    find_in_tables(in_table, alloc, file, sink)
}

// What breaks this rule.
fn find_breaking<S: PathSink>(
    rule: VschemaRule,
    alloc: Global,
    file: &Value,
    sink: &mut S,
) -> Result<(), AllocError>
    ensures { OnOk result (sink.new
        ≡ fold S.with sink.old (breaks (view file.now) rule)) }
{
    match rule {
        VschemaRule::MemberKind => InObject(VschemaKinds).find(
            alloc,
            &Path::root(alloc),
            file,
            sink,
        ),
        VschemaRule::VindexType => find_in_vindexes(UnknownType, alloc, file, sink),
        VschemaRule::LookupMembers => find_in_vindexes(LookupLacks, alloc, file, sink),
        VschemaRule::ColumnVindex => find_wrong_column_vindexes(alloc, file, sink),
        VschemaRule::PlainTable => find_in_tables(SpecialTable, alloc, file, sink),
        VschemaRule::LookupFlag => find_in_vindexes(LookupFlags, alloc, file, sink),
    }
}

// The least path that breaks this rule.
fn least_breaking(
    rule: VschemaRule,
    alloc: Global,
    file: &Value,
) -> Result<Option<Path>, AllocError>
    ensures { IfOk result (IsLeastOf (breaks (view file.now) rule)) }
{
    let mut least = Least::new();
    find_breaking(rule, alloc, file, &mut least)?;
    Ok(least.into_path())
}

/// The least rule that is broken, and of it the least path.
pub(crate) fn first_broken(
    alloc: Global,
    file: &Value,
) -> Result<Option<(VschemaRule, Path)>, AllocError>
    ensures { IfOk result (λ fault. MatchOption fault (IsSound (breaks (view file.now)))
        (λ f. IsLeast (breaks (view file.now)) f.0 f.1)) }
{
    for rule in RULES.iter() {
        if let Some(path) = least_breaking(*rule, alloc, file)? {
            return Ok(Some((*rule, path)));
        }
    }
    Ok(None)
}
