ghost use Rattle.std.specs.Prelude.{◌≡◌, ◌<◌, ◌≤◌, ℕ, Option, length, slice_get};
ghost use Rattle.std.specs.List.{list_any};
ghost use Rattle.vl_rules.specs.Order.{any_breaks, breaks, breaks_at, broken_rule, fault_told, first_broken, is_first_listing, is_listed, lookup_broken, table_broken, unlisted_rule};

use crate::catalog_rule::CatalogRule;
use crate::from_columns::breaks_c7;
use crate::limits::{breaks_c11, passes_a_limit};
use crate::lookup_rule::LookupRule;
use crate::lookup_rules::{
    any_lists, breaks_c6, breaks_c8, breaks_c9, breaks_c10, breaks_c13, breaks_c14,
};
use crate::table_rules::{breaks_c1, breaks_c2, breaks_c3, breaks_c4, breaks_c5, breaks_c12};
use vl_catalog::{Catalog, Lookup, Table};

// Whether the lookup of this number, which the table at this place lists, breaks the rule.
fn breaks(
    rule: LookupRule,
    catalog: &Catalog,
    place: usize,
    table: &Table,
    number: usize,
    lookup: &Lookup,
) -> bool
    requires { place < length catalog.now.tables }
    ensures { result ≡ breaks rule catalog.now place table.now number lookup.now }
{
    match rule {
        LookupRule::C6 => breaks_c6(catalog, lookup),
        LookupRule::C7 => breaks_c7(catalog, place, table, lookup),
        LookupRule::C8 => breaks_c8(catalog, place, number, lookup),
        LookupRule::C9 => breaks_c9(catalog, lookup),
        LookupRule::C10 => breaks_c10(lookup),
        LookupRule::C13 => breaks_c13(catalog, table, number, lookup),
        LookupRule::C14 => breaks_c14(catalog, lookup),
    }
}

fn breaks_at(
    rule: LookupRule,
    catalog: &Catalog,
    place: usize,
    table: &Table,
    number: usize,
) -> bool
    requires { place < length catalog.now.tables }
    ensures { result ≡ breaks_at rule catalog.now place table.now number }
{
    match catalog.lookups.as_slice().get(number) {
        Some(lookup) => breaks(rule, catalog, place, table, number, lookup),
        None => false,
    }
}

// Whether no table before the one at this place lists the lookup.
fn is_first_listing(catalog: &Catalog, place: usize, number: usize) -> bool
    requires { place < length catalog.now.tables }
    ensures { result ≡ is_first_listing catalog.now place number }
{
    let (before, _) = catalog.tables.as_slice().split_at(place);
    !any_lists(before, number)
}

// Whether a lookup that the table is the first to list breaks the rule.
fn any_breaks(rule: LookupRule, catalog: &Catalog, place: usize, table: &Table) -> bool
    requires { place < length catalog.now.tables }
    ensures { result ≡ any_breaks rule catalog.now place table.now }
{
    table.lookups.as_slice().iter().any(|number| {
        is_first_listing(catalog, place, *number as usize)
            && breaks_at(rule, catalog, place, table, *number as usize)
    })
}

// The first rule that the table at this place breaks.
fn broken_rule(catalog: &Catalog, place: usize, table: &Table) -> Option<CatalogRule>
    requires { place < length catalog.now.tables }
    ensures { result ≡ broken_rule catalog.now place table.now }
{
    if breaks_c1(catalog, place, table) {
        return Some(CatalogRule::UniqueTableName);
    }
    if breaks_c2(catalog, table) {
        return Some(CatalogRule::DefinedTable);
    }
    if breaks_c3(catalog, table) {
        return Some(CatalogRule::PrimaryVindexFirst);
    }
    if breaks_c4(catalog, table) {
        return Some(CatalogRule::PrimaryVindexInKey);
    }
    if breaks_c5(catalog, table) {
        return Some(CatalogRule::NumericOnNumber);
    }
    if any_breaks(LookupRule::C6, catalog, place, table) {
        return Some(CatalogRule::LookupTable);
    }
    if any_breaks(LookupRule::C7, catalog, place, table) {
        return Some(CatalogRule::FromColumns);
    }
    if any_breaks(LookupRule::C8, catalog, place, table) {
        return Some(CatalogRule::OwnerListsLookup);
    }
    if any_breaks(LookupRule::C9, catalog, place, table) {
        return Some(CatalogRule::LookupTablePlacement);
    }
    if any_breaks(LookupRule::C10, catalog, place, table) {
        return Some(CatalogRule::NotWriteOnly);
    }
    if breaks_c11(table) {
        return Some(CatalogRule::WithinLimits);
    }
    if breaks_c12(catalog, table) {
        return Some(CatalogRule::OneColumnVindex);
    }
    if any_breaks(LookupRule::C13, catalog, place, table) {
        return Some(CatalogRule::OneLookupTable);
    }
    if any_breaks(LookupRule::C14, catalog, place, table) {
        return Some(CatalogRule::OwnerPlacement);
    }
    None
}

// The first table that breaks a rule, by its name, with the first rule that it breaks.
fn table_broken(catalog: &Catalog) -> Option<(&[u8], CatalogRule)>
    ensures { fault_told result ≡ table_broken catalog.now 0 catalog.now.tables }
{
    for (place, table) in catalog.tables.as_slice().iter().enumerate() {
        if let Some(rule) = broken_rule(catalog, place, table) {
            return Some((table.name.as_slice(), rule));
        }
    }
    None
}

fn is_listed(catalog: &Catalog, number: usize) -> bool
    ensures { result ≡ is_listed catalog.now number }
{
    any_lists(catalog.tables.as_slice(), number)
}

fn unlisted_rule(catalog: &Catalog, lookup: &Lookup) -> CatalogRule
    ensures { result ≡ unlisted_rule catalog.now lookup.now }
{
    if breaks_c6(catalog, lookup) {
        CatalogRule::LookupTable
    } else {
        CatalogRule::OwnerListsLookup
    }
}

// The first lookup that no table lists, by its owner's name, with the first rule that it breaks.
fn lookup_broken(catalog: &Catalog) -> Option<(&[u8], CatalogRule)>
    ensures { fault_told result ≡ lookup_broken catalog.now 0 catalog.now.lookups }
{
    for (number, lookup) in catalog.lookups.as_slice().iter().enumerate() {
        if !is_listed(catalog, number) {
            let rule = unlisted_rule(catalog, lookup);
            return Some((lookup.owner_name.as_slice(), rule));
        }
    }
    None
}

// The first broken rule, with the name of its table.
pub(crate) fn first_broken(catalog: &Catalog) -> Option<(&[u8], CatalogRule)>
    ensures { fault_told result ≡ first_broken catalog.now }
{
    if passes_a_limit(catalog) {
        return Some((&[], CatalogRule::WithinLimits));
    }
    match table_broken(catalog) {
        Some(fault) => Some(fault),
        None => lookup_broken(catalog),
    }
}
