ghost use Rattle.std.specs.Prelude.{◌≡◌, ◌∷◌, [], IfOk, filter, map};
ghost use Rattle.std.specs.Option.{option_copied};
ghost use Rattle.vl_model.specs.Routes.{by_lookup, by_primary, first_route, is_unique_lookup, route_of, values_tested};
ghost use Rattle.vl_plan.specs.Kinds.{is_of_kind};

use std::alloc::{AllocError, Global};
use vl_catalog::{Catalog, LookupNo, Primary, Table};
use vl_model::route::Route;
use vl_values::row::Row;
use vl_values::test::Test;

// The values of the first test of a column.
fn values_tested(tests: &[Test], column: usize) -> Option<&Row>
    ensures { option_copied result ≡ values_tested tests.now column }
{
    match tests.iter().find(|test| usize::from(test.column) == column) {
        Some(test) => Some(&test.values),
        None => None,
    }
}

fn by_primary(
    alloc: Global,
    primary: Option<Primary>,
    tests: &[Test],
) -> Result<Option<Route>, AllocError>
    ensures { IfOk result (λ route. route ≡ by_primary primary tests.now) }
{
    let Some(primary) = primary else {
        return Ok(None);
    };
    let Some(values) = values_tested(tests, primary.column) else {
        return Ok(None);
    };
    match values.copy(alloc) {
        Ok(values) => Ok(Some(Route::Primary(values))),
        Err(error) => Err(error),
    }
}

fn by_lookup(
    alloc: Global,
    catalog: &Catalog,
    tests: &[Test],
    number: LookupNo,
) -> Result<Option<Route>, AllocError>
    ensures { IfOk result (λ route. route ≡ by_lookup catalog.now tests.now number) }
{
    let Some(lookup) = catalog.lookups.as_slice().get(number as usize) else {
        return Ok(None);
    };
    let Some(column) = lookup.column else {
        return Ok(None);
    };
    let Some(values) = values_tested(tests, column) else {
        return Ok(None);
    };
    match values.copy(alloc) {
        Ok(values) => Ok(Some(Route::Lookup(number, values))),
        Err(error) => Err(error),
    }
}

fn is_unique(catalog: &Catalog, number: LookupNo) -> bool
    ensures { result ≡ is_unique_lookup catalog.now number }
{
    match catalog.lookups.as_slice().get(number as usize) {
        Some(lookup) => lookup.unique,
        None => false,
    }
}

// The route by a lookup, if the lookup is of this kind and its column is tested.
fn by_one(
    alloc: Global,
    catalog: &Catalog,
    tests: &[Test],
    unique: bool,
    number: LookupNo,
) -> Result<Option<Route>, AllocError>
    ensures { IfOk result (λ route. route ≡ first_route (map (by_lookup catalog.now tests.now) (filter (is_of_kind catalog.now unique) (number ∷ [])))) }
{
    if is_unique(catalog, number) == unique {
        return by_lookup(alloc, catalog, tests, number);
    }
    Ok(None)
}

// The route by the first lookup of this kind whose column is tested.
fn by_first(
    alloc: Global,
    catalog: &Catalog,
    tests: &[Test],
    unique: bool,
    lookups: &[LookupNo],
) -> Result<Option<Route>, AllocError>
    ensures { IfOk result (λ route. route ≡ first_route (map (by_lookup catalog.now tests.now) (filter (is_of_kind catalog.now unique) lookups.now))) }
{
    for number in lookups {
        match by_one(alloc, catalog, tests, unique, *number) {
            Ok(Some(route)) => return Ok(Some(route)),
            Ok(None) => {}
            Err(error) => return Err(error),
        }
    }
    Ok(None)
}

/// The first route that the tests give.
pub(crate) fn route_of(
    alloc: Global,
    catalog: &Catalog,
    table: &Table,
    tests: &[Test],
) -> Result<Route, AllocError>
    ensures { IfOk result (λ route. route ≡ route_of catalog.now table.now tests.now) }
{
    if let Some(route) = by_primary(alloc, table.primary, tests)? {
        return Ok(route);
    }
    let lookups = table.lookups.as_slice();
    if let Some(route) = by_first(alloc, catalog, tests, true, lookups)? {
        return Ok(route);
    }
    match by_first(alloc, catalog, tests, false, lookups)? {
        Some(route) => Ok(route),
        None => Ok(Route::All),
    }
}
