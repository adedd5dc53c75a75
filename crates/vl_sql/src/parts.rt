ghost use Rattle.std.specs.Prelude.{◌≡◌, [], length, codes};
ghost use Rattle.vl_token.specs.View.{tok, tokens_of};
ghost use Rattle.vl_grammar.specs.Terminal.{name_of, literal_of};
ghost use Rattle.vl_grammar.specs.Reading.{Gives, items, one, starts};
ghost use Rattle.vl_sql.specs.Reading as reading;
ghost use Rattle.vl_sql.specs.Reading.{is_comma, is_and};

use crate::assignment::Assignment;
use crate::list::{Member, all_members, members};
use crate::order::{Direction, Order};
use crate::sequence::Sequence;
use crate::table::TableName;
use crate::test::Test;
use std::alloc::Global;
use vl_grammar::{
    ReadError, count, is_key, is_mark, key, literal, mark, name, starts_key, starts_mark,
};
use vl_token::{Token, Tokens};
use vl_values::bytes::Bytes;
use vl_values::row::Row;
use vl_values::value::Value;

/// The greatest number of rows of INSERT, of literals of IN and of names of SELECT.
pub const MOST: usize = 1_000;

/// The greatest number of names of ORDER BY.
const MOST_ORDERS: usize = 8;

impl Member for Bytes {
    ghost is_separator = { is_comma };

    ghost member_at = { λ ts. one name_of ts };

    fn separates(token: &Token) -> bool {
        is_mark(b',', token)
    }

    fn read(alloc: Global, tokens: Tokens<'_>) -> Result<(Bytes, Tokens<'_>), ReadError> {
        name(alloc, tokens)
    }
}

impl Member for Value {
    ghost is_separator = { is_comma };

    ghost member_at = { λ ts. one literal_of ts };

    fn separates(token: &Token) -> bool {
        is_mark(b',', token)
    }

    fn read(alloc: Global, tokens: Tokens<'_>) -> Result<(Value, Tokens<'_>), ReadError> {
        literal(alloc, tokens)
    }
}

impl Member for Row {
    ghost is_separator = { is_comma };

    ghost member_at = { reading.row_at };

    fn separates(token: &Token) -> bool {
        is_mark(b',', token)
    }

    fn read(alloc: Global, tokens: Tokens<'_>) -> Result<(Row, Tokens<'_>), ReadError> {
        row(alloc, tokens)
    }
}

impl Member for Test {
    ghost is_separator = { is_and };

    ghost member_at = { reading.test_at 0 };

    fn separates(token: &Token) -> bool {
        is_key(b"AND", token)
    }

    fn read(alloc: Global, tokens: Tokens<'_>) -> Result<(Test, Tokens<'_>), ReadError> {
        test(alloc, tokens)
    }
}

impl Member for Order {
    ghost is_separator = { is_comma };

    ghost member_at = { reading.order_at };

    fn separates(token: &Token) -> bool {
        is_mark(b',', token)
    }

    fn read(alloc: Global, tokens: Tokens<'_>) -> Result<(Order, Tokens<'_>), ReadError> {
        order(alloc, tokens)
    }
}

/// `[keyspace.] name`
#[tactic(auto, unfolding(crate::specs::Reading::table_at))]
pub fn table(alloc: Global, tokens: Tokens<'_>) -> Result<(TableName, Tokens<'_>), ReadError>
    ensures { Gives (λ x. (x.0, tokens_of x.1.now)) result (reading.table_at (tokens_of tokens.now)) }
{
    let (first, rest) = name(alloc, tokens)?;
    if !starts_mark(b'.', rest) {
        let table = TableName {
            keyspace: None,
            name: first,
        };
        return Ok((table, rest));
    }
    let rest = mark(b'.', rest)?;
    let (second, rest) = name(alloc, rest)?;
    let table = TableName {
        keyspace: Some(first),
        name: second,
    };
    Ok((table, rest))
}

/// `(literal, ..)`
#[tactic(auto, unfolding(crate::specs::Reading::row_at))]
pub fn row(alloc: Global, tokens: Tokens<'_>) -> Result<(Row, Tokens<'_>), ReadError>
    ensures { Gives (λ x. (x.0, tokens_of x.1.now)) result (reading.row_at (tokens_of tokens.now)) }
{
    let rest = mark(b'(', tokens)?;
    let (values, rest) = all_members::<Value>(alloc, rest)?;
    let rest = mark(b')', rest)?;
    Ok((Row::from_vec(values), rest))
}

/// `row, ..`
#[tactic(auto, unfolding(crate::specs::Reading::rows_at))]
pub fn rows(alloc: Global, tokens: Tokens<'_>) -> Result<(Sequence<Row>, Tokens<'_>), ReadError>
    ensures { Gives (λ x. (x.0, tokens_of x.1.now)) result (reading.rows_at 0 (tokens_of tokens.now)) }
{
    let (rows, rest) = members::<Row>(alloc, MOST, tokens)?;
    Ok((Sequence::from_vec(rows), rest))
}

/// `name = literal` or `name IN (literal, ..)`
#[tactic(auto, unfolding(crate::specs::Reading::test_at))]
pub fn test(alloc: Global, tokens: Tokens<'_>) -> Result<(Test, Tokens<'_>), ReadError>
    ensures { Gives (λ x. (x.0, tokens_of x.1.now)) result (reading.test_at 0 (tokens_of tokens.now)) }
{
    let (column, rest) = name(alloc, tokens)?;
    if !starts_key(b"IN", rest) {
        let rest = mark(b'=', rest)?;
        let (value, rest) = literal(alloc, rest)?;
        return Ok((Test::Equals(column, value), rest));
    }
    let rest = key(b"IN", rest)?;
    let rest = mark(b'(', rest)?;
    let (values, rest) = members::<Value>(alloc, MOST, rest)?;
    let rest = mark(b')', rest)?;
    Ok((Test::Among(column, Row::from_vec(values)), rest))
}

/// `[WHERE test AND ..]`
#[tactic(auto, unfolding(crate::specs::Reading::where_at))]
pub fn tests(alloc: Global, tokens: Tokens<'_>) -> Result<(Sequence<Test>, Tokens<'_>), ReadError>
    ensures { Gives (λ x. (x.0, tokens_of x.1.now)) result (reading.where_at 0 (tokens_of tokens.now)) }
{
    if !starts_key(b"WHERE", tokens) {
        return Ok((Sequence::from_vec(Vec::new(alloc)), tokens));
    }
    let rest = key(b"WHERE", tokens)?;
    let (tests, rest) = all_members::<Test>(alloc, rest)?;
    Ok((Sequence::from_vec(tests), rest))
}

// `ASC` or `DESC`
fn direction(token: &Token) -> Option<Direction>
    ensures { result ≡ reading.direction_of (tok token.now) }
{
    if is_key(b"ASC", token) {
        return Some(Direction::Ascending);
    }
    if is_key(b"DESC", token) {
        return Some(Direction::Descending);
    }
    None
}

// `[ASC | DESC]` behind a name
#[tactic(auto, unfolding(crate::specs::Reading::directed_at))]
fn directed(column: Bytes, tokens: Tokens<'_>) -> (Order, Tokens<'_>)
    ensures { reading.directed_at column (tokens_of tokens.now) ≡ Ok (result.0, tokens_of result.1.now) }
{
    match tokens {
        [] => {
            let order = Order {
                column,
                direction: None,
            };
            (order, tokens)
        }
        [token, rest @ ..] => match direction(token) {
            Some(direction) => {
                let order = Order {
                    column,
                    direction: Some(direction),
                };
                (order, rest)
            }
            None => {
                let order = Order {
                    column,
                    direction: None,
                };
                (order, tokens)
            }
        },
    }
}

/// `name [ASC | DESC]`
#[tactic(auto, unfolding(crate::specs::Reading::order_at))]
pub fn order(alloc: Global, tokens: Tokens<'_>) -> Result<(Order, Tokens<'_>), ReadError>
    ensures { Gives (λ x. (x.0, tokens_of x.1.now)) result (reading.order_at (tokens_of tokens.now)) }
{
    let (column, rest) = name(alloc, tokens)?;
    Ok(directed(column, rest))
}

/// `[ORDER BY order, ..]`
#[tactic(auto, unfolding(crate::specs::Reading::order_by_at))]
pub fn orders(alloc: Global, tokens: Tokens<'_>) -> Result<(Sequence<Order>, Tokens<'_>), ReadError>
    ensures { Gives (λ x. (x.0, tokens_of x.1.now)) result (reading.order_by_at 0 (tokens_of tokens.now)) }
{
    if !starts_key(b"ORDER", tokens) {
        return Ok((Sequence::from_vec(Vec::new(alloc)), tokens));
    }
    let rest = key(b"ORDER", tokens)?;
    let rest = key(b"BY", rest)?;
    let (orders, rest) = members::<Order>(alloc, MOST_ORDERS, rest)?;
    Ok((Sequence::from_vec(orders), rest))
}

/// `[LIMIT n]`
#[tactic(auto, unfolding(crate::specs::Reading::limit_at))]
pub fn limit(tokens: Tokens<'_>) -> Result<(Option<u64>, Tokens<'_>), ReadError>
    ensures { Gives (λ x. (x.0, tokens_of x.1.now)) result (reading.limit_at (tokens_of tokens.now)) }
{
    if !starts_key(b"LIMIT", tokens) {
        return Ok((None, tokens));
    }
    let rest = key(b"LIMIT", tokens)?;
    let (n, rest) = count(rest)?;
    Ok((Some(n), rest))
}

/// `[FOR UPDATE]`
#[tactic(auto, unfolding(crate::specs::Reading::for_update_at))]
pub fn for_update(tokens: Tokens<'_>) -> Result<(bool, Tokens<'_>), ReadError>
    ensures { Gives (λ x. (x.0, tokens_of x.1.now)) result (reading.for_update_at (tokens_of tokens.now)) }
{
    if !starts_key(b"FOR", tokens) {
        return Ok((false, tokens));
    }
    let rest = key(b"FOR", tokens)?;
    let rest = key(b"UPDATE", rest)?;
    Ok((true, rest))
}
