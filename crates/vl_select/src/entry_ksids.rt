ghost use Rattle.std.specs.Prelude.{◌≡◌, ◌++◌, [], OnOk};
ghost use Rattle.std.specs.List.{cons_option, filter_map};
ghost use Rattle.vl_select.specs.Progress.{named_on};

use std::alloc::AllocError;
use vl_catalog::Catalog;
use vl_model::route::Route;
use vl_route::visiting::ksid_named;
use vl_values::bytes::Bytes;
use vl_values::key::Key;
use vl_values::row::Row;

// The keyspace id that an entry names by which the route goes.
fn named_on(catalog: &Catalog, route: &Route, entry: (Key, Row)) -> Option<Bytes>
    ensures { result ≡ named_on catalog.now route.now entry }
{
    let (_, row) = entry;
    match route {
        Route::Lookup(number, _) => ksid_named(catalog, *number, row),
        Route::Primary(_) | Route::All => None,
    }
}

fn add(ksids: &mut Vec<Bytes>, ksid: Option<Bytes>) -> Result<(), AllocError>
    ensures { OnOk result (ksids.new.items ≡ ksids.old.items ++ cons_option ksid []) }
{
    if let Some(ksid) = ksid {
        ksids.push(ksid)?;
    }
    Ok(())
}

/// Adds the keyspace ids that these entries name.
pub(crate) fn add_named(
    ksids: &mut Vec<Bytes>,
    catalog: &Catalog,
    route: &Route,
    entries: Vec<(Key, Row)>,
) -> Result<(), AllocError>
    ensures { OnOk result (ksids.new.items ≡ ksids.old.items ++ filter_map (named_on catalog.now route.now) entries.items) }
{
    for entry in entries {
        add(ksids, named_on(catalog, route, entry))?;
    }
    Ok(())
}
