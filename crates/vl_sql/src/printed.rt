ghost use Rattle.std.specs.Prelude.{◌≡◌, List, [], ◌∷◌, ◌++◌, OnOk};
ghost use Rattle.std.specs.List.{flat_map};
ghost use Rattle.vl_grammar.specs.Item.{Item, joined, in_brackets};
ghost use Rattle.vl_grammar.specs.Layout.{added};
ghost use Rattle.vl_sql.specs.Grammar as grammar;
ghost use Rattle.vl_sql.specs.Separator.{item_between};

use crate::assignment::Assignment;
use crate::order::{Direction, Order};
use crate::test::Test;
use std::alloc::{AllocError, Global};
use vl_grammar::Writer;
use vl_values::bytes::Bytes;
use vl_values::row::Row;
use vl_values::value::Value;

/// What stands between the members of a list.
#[derive(Clone, Copy, Debug)]
pub enum Separator {
    Comma,
    And,
}

/// What lists of a statement are made of, as it is written.
pub trait Printed {
    ghost items: { Self → List Item };

    fn print(&self, alloc: Global, writer: &mut Writer) -> Result<(), AllocError>
        ensures { OnOk result (writer.new ≡ added writer.old (items self.now)) };
}

fn print_separator(separator: Separator, writer: &mut Writer) -> Result<(), AllocError>
    ensures { OnOk result (writer.new ≡ added writer.old (item_between separator ∷ [])) }
{
    match separator {
        Separator::Comma => writer.sign(b','),
        Separator::And => writer.key(b"AND"),
    }
}

#[tactic(auto, using(vl_grammar::proofs::Laying::added_both))]
fn print_next<P: Printed>(
    alloc: Global,
    separator: Separator,
    member: &P,
    writer: &mut Writer,
) -> Result<(), AllocError>
    ensures { OnOk result (writer.new ≡ added writer.old (item_between separator ∷ P.items member.now)) }
{
    print_separator(separator, writer)?;
    member.print(alloc, writer)
}

// The members behind the first.
fn print_rest<P: Printed>(
    alloc: Global,
    separator: Separator,
    rest: &[P],
    writer: &mut Writer,
) -> Result<(), AllocError>
    ensures { OnOk result (writer.new ≡ added writer.old (flat_map (λ m. item_between separator ∷ P.items m) rest.now)) }
{
    for member in rest {
        print_next(alloc, separator, member, writer)?;
    }
    Ok(())
}

/// A list, with its separator between its members.
pub fn print_joined<P: Printed>(
    alloc: Global,
    separator: Separator,
    list: &[P],
    writer: &mut Writer,
) -> Result<(), AllocError>
    ensures { OnOk result (writer.new ≡ added writer.old (joined (item_between separator) P.items list.now)) }
{
    match list {
        [] => Ok(()),
        [first, rest @ ..] => {
            first.print(alloc, writer)?;
            print_rest(alloc, separator, rest, writer)?;
            Ok(())
        }
    }
}

/// A list in brackets, with commas.
#[tactic(auto, using(vl_grammar::proofs::Laying::added_both))]
pub fn print_in_brackets<P: Printed>(
    alloc: Global,
    list: &[P],
    writer: &mut Writer,
) -> Result<(), AllocError>
    ensures { OnOk result (writer.new ≡ added writer.old (in_brackets (joined (Item.Sign 44) P.items list.now))) }
{
    writer.sign(b'(')?;
    print_joined(alloc, Separator::Comma, list, writer)?;
    writer.sign(b')')
}

impl Printed for Bytes {
    ghost items = { grammar.name };

    fn print(&self, _alloc: Global, writer: &mut Writer) -> Result<(), AllocError> {
        writer.name(self.as_slice())
    }
}

impl Printed for Value {
    ghost items = { grammar.literal };

    fn print(&self, alloc: Global, writer: &mut Writer) -> Result<(), AllocError> {
        writer.literal(alloc, self)
    }
}

impl Printed for Row {
    ghost items = { grammar.row };

    fn print(&self, alloc: Global, writer: &mut Writer) -> Result<(), AllocError> {
        print_in_brackets(alloc, self.as_slice(), writer)
    }
}

#[tactic(auto, using(vl_grammar::proofs::Laying::added_both))]
impl Printed for Test {
    ghost items = { grammar.test };

    fn print(&self, alloc: Global, writer: &mut Writer) -> Result<(), AllocError> {
        match self {
            Test::Equals(column, value) => {
                writer.name(column.as_slice())?;
                writer.sign(b'=')?;
                writer.literal(alloc, value)
            }
            Test::Among(column, values) => {
                writer.name(column.as_slice())?;
                writer.key(b"IN")?;
                print_in_brackets(alloc, values.as_slice(), writer)
            }
        }
    }
}

#[tactic(auto, using(vl_grammar::proofs::Laying::added_both))]
impl Printed for Assignment {
    ghost items = { grammar.assignment };

    fn print(&self, alloc: Global, writer: &mut Writer) -> Result<(), AllocError> {
        writer.name(self.column.as_slice())?;
        writer.sign(b'=')?;
        writer.literal(alloc, &self.value)
    }
}

#[tactic(auto, using(vl_grammar::proofs::Laying::added_none))]
fn print_direction(direction: Option<Direction>, writer: &mut Writer) -> Result<(), AllocError>
    ensures { OnOk result (writer.new ≡ added writer.old (grammar.direction direction)) }
{
    match direction {
        None => Ok(()),
        Some(Direction::Ascending) => writer.key(b"ASC"),
        Some(Direction::Descending) => writer.key(b"DESC"),
    }
}

#[tactic(auto, using(vl_grammar::proofs::Laying::added_both))]
impl Printed for Order {
    ghost items = { grammar.order };

    fn print(&self, _alloc: Global, writer: &mut Writer) -> Result<(), AllocError> {
        writer.name(self.column.as_slice())?;
        print_direction(self.direction, writer)
    }
}
