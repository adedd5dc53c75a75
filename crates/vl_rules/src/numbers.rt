ghost use Rattle.std.specs.Prelude.{◌≡◌, nat_lt};
ghost use Rattle.std.specs.List.{list_all};
ghost use Rattle.vl_rules.specs.Lookups.{is_among, is_at};

use vl_catalog::TableNo;

// Whether this is the number, where there is one.
pub(crate) fn is_at(number: Option<TableNo>, place: usize) -> bool
    ensures { result ≡ is_at place number }
{
    match number {
        Some(number) => number as usize == place,
        None => false,
    }
}

pub(crate) fn is_place(number: Option<usize>, place: usize) -> bool
    ensures { result ≡ is_at place number }
{
    match number {
        Some(number) => number == place,
        None => false,
    }
}

pub(crate) fn is_among(numbers: &[usize], number: usize) -> bool
    ensures { result ≡ is_among numbers.now number }
{
    numbers.iter().any(|other| *other == number)
}

pub(crate) fn are_below(numbers: &[usize], end: usize) -> bool
    ensures { result ≡ list_all (λ n. nat_lt n end) numbers.now }
{
    numbers.iter().all(|number| *number < end)
}
