ghost use Rattle.std.specs.Prelude.{◌≡◌, ◌++◌, ℕ, List, [], ◌∷◌, true, OnOk, IfOk, codes};
ghost use Rattle.vl_token.specs.Lexical.{tokens_in};
ghost use Rattle.vl_grammar.specs.Item.{Item, joined};
ghost use Rattle.vl_grammar.specs.Layout.{added, laid};
ghost use Rattle.vl_sql.specs.Grammar as grammar;
ghost use Rattle.vl_sql.specs.Grammar.{IsStatement};

use crate::assignment::Assignment;
use crate::order::Order;
use crate::printed::{Separator, print_in_brackets, print_joined};
use crate::stmt::Stmt;
use crate::table::TableName;
use crate::test::Test;
use crate::what::What;
use std::alloc::{AllocError, Global};
use vl_grammar::Writer;
use vl_values::bytes::Bytes;
use vl_values::row::Row;

#[tactic(auto, using(vl_grammar::proofs::Laying::added_both))]
fn print_table(table: &TableName, writer: &mut Writer) -> Result<(), AllocError>
    ensures { OnOk result (writer.new ≡ added writer.old (grammar.table table.now)) }
{
    match &table.keyspace {
        None => writer.name(table.name.as_slice()),
        Some(keyspace) => {
            writer.name(keyspace.as_slice())?;
            writer.sign(b'.')?;
            writer.name(table.name.as_slice())
        }
    }
}

// `[WHERE test AND ..]`
#[tactic(auto, using(vl_grammar::proofs::Laying::added_both, vl_grammar::proofs::Laying::added_none))]
fn print_where(alloc: Global, tests: &[Test], writer: &mut Writer) -> Result<(), AllocError>
    ensures { OnOk result (writer.new ≡ added writer.old (grammar.where_ tests.now)) }
{
    match tests {
        [] => Ok(()),
        [_, ..] => {
            writer.key(b"WHERE")?;
            print_joined(alloc, Separator::And, tests, writer)
        }
    }
}

// `[ORDER BY order, ..]`
#[tactic(auto, using(vl_grammar::proofs::Laying::added_both, vl_grammar::proofs::Laying::added_none))]
fn print_order_by(alloc: Global, orders: &[Order], writer: &mut Writer) -> Result<(), AllocError>
    ensures { OnOk result (writer.new ≡ added writer.old (grammar.order_by orders.now)) }
{
    match orders {
        [] => Ok(()),
        [_, ..] => {
            writer.key(b"ORDER")?;
            writer.key(b"BY")?;
            print_joined(alloc, Separator::Comma, orders, writer)
        }
    }
}

// `[LIMIT n]`
#[tactic(auto, using(vl_grammar::proofs::Laying::added_both, vl_grammar::proofs::Laying::added_none))]
fn print_limit(alloc: Global, limit: Option<u64>, writer: &mut Writer) -> Result<(), AllocError>
    ensures { OnOk result (writer.new ≡ added writer.old (grammar.limit limit)) }
{
    match limit {
        None => Ok(()),
        Some(n) => {
            writer.key(b"LIMIT")?;
            writer.count(alloc, n)
        }
    }
}

// `[FOR UPDATE]`
#[tactic(auto, using(vl_grammar::proofs::Laying::added_both, vl_grammar::proofs::Laying::added_none))]
fn print_for_update(lock: bool, writer: &mut Writer) -> Result<(), AllocError>
    ensures { OnOk result (writer.new ≡ added writer.old (grammar.for_update lock)) }
{
    if !lock {
        return Ok(());
    }
    writer.key(b"FOR")?;
    writer.key(b"UPDATE")
}

#[tactic(auto, using(vl_grammar::proofs::Laying::added_both))]
fn print_what(alloc: Global, what: &What, writer: &mut Writer) -> Result<(), AllocError>
    ensures { OnOk result (writer.new ≡ added writer.old (grammar.what what.now)) }
{
    match what {
        What::All => writer.sign(b'*'),
        What::Count => {
            writer.key(b"COUNT")?;
            writer.sign(b'(')?;
            writer.sign(b'*')?;
            writer.sign(b')')
        }
        What::Columns(names) => print_joined(alloc, Separator::Comma, names.as_slice(), writer),
    }
}

fn print_bit(on: bool, writer: &mut Writer) -> Result<(), AllocError>
    ensures { OnOk result (writer.new ≡ added writer.old (grammar.bit on)) }
{
    if on {
        return writer.digits(b"1");
    }
    writer.digits(b"0")
}

// One keyword or two.
#[tactic(auto, using(vl_grammar::proofs::Laying::added_both))]
fn print_keys(first: &[u8], second: &[u8], writer: &mut Writer) -> Result<(), AllocError>
    ensures { OnOk result (writer.new ≡ added writer.old (Item.Key first.now ∷ Item.Key second.now ∷ [])) }
{
    writer.key(first)?;
    writer.key(second)
}

#[tactic(auto, using(vl_grammar::proofs::Laying::added_both))]
fn print_insert(
    alloc: Global,
    table: &TableName,
    columns: &[Bytes],
    rows: &[Row],
    writer: &mut Writer,
) -> Result<(), AllocError>
    ensures { OnOk result (writer.new ≡ added writer.old (grammar.statement (Stmt.Insert table.now columns.now rows.now))) }
{
    print_keys(b"INSERT", b"INTO", writer)?;
    print_table(table, writer)?;
    print_in_brackets(alloc, columns, writer)?;
    writer.key(b"VALUES")?;
    print_joined(alloc, Separator::Comma, rows, writer)
}

#[tactic(auto, using(vl_grammar::proofs::Laying::added_both))]
fn print_from(
    alloc: Global,
    table: &TableName,
    tests: &[Test],
    orders: &[Order],
    limit: Option<u64>,
    lock: bool,
    writer: &mut Writer,
) -> Result<(), AllocError>
    ensures { OnOk result (writer.new ≡ added writer.old (grammar.from table.now tests.now orders.now limit lock)) }
{
    writer.key(b"FROM")?;
    print_table(table, writer)?;
    print_where(alloc, tests, writer)?;
    print_order_by(alloc, orders, writer)?;
    print_limit(alloc, limit, writer)?;
    print_for_update(lock, writer)
}

#[tactic(auto, using(vl_grammar::proofs::Laying::added_both))]
fn print_update(
    alloc: Global,
    table: &TableName,
    assignments: &[Assignment],
    tests: &[Test],
    writer: &mut Writer,
) -> Result<(), AllocError>
    ensures { OnOk result (writer.new ≡ added writer.old (grammar.statement (Stmt.Update table.now assignments.now tests.now))) }
{
    writer.key(b"UPDATE")?;
    print_table(table, writer)?;
    writer.key(b"SET")?;
    print_joined(alloc, Separator::Comma, assignments, writer)?;
    print_where(alloc, tests, writer)
}

#[tactic(auto, using(vl_grammar::proofs::Laying::added_both))]
fn print_delete(
    alloc: Global,
    table: &TableName,
    tests: &[Test],
    writer: &mut Writer,
) -> Result<(), AllocError>
    ensures { OnOk result (writer.new ≡ added writer.old (grammar.statement (Stmt.Delete table.now tests.now))) }
{
    print_keys(b"DELETE", b"FROM", writer)?;
    print_table(table, writer)?;
    print_where(alloc, tests, writer)
}

#[tactic(auto, using(vl_grammar::proofs::Laying::added_both))]
fn print_set_autocommit(on: bool, writer: &mut Writer) -> Result<(), AllocError>
    ensures { OnOk result (writer.new ≡ added writer.old (grammar.statement (Stmt.SetAutocommit on))) }
{
    print_keys(b"SET", b"AUTOCOMMIT", writer)?;
    writer.sign(b'=')?;
    print_bit(on, writer)
}

#[tactic(auto, using(vl_grammar::proofs::Laying::added_both))]
fn print_version_comment(writer: &mut Writer) -> Result<(), AllocError>
    ensures { OnOk result (writer.new ≡ added writer.old (grammar.statement Stmt.SelectVersionComment)) }
{
    writer.key(b"SELECT")?;
    writer.variable(b"version_comment")?;
    writer.key(b"LIMIT")?;
    writer.digits(b"1")?;
    Ok(())
}

#[tactic(auto, using(vl_grammar::proofs::Laying::added_both))]
fn print_database(writer: &mut Writer) -> Result<(), AllocError>
    ensures { OnOk result (writer.new ≡ added writer.old (grammar.statement Stmt.SelectDatabase)) }
{
    print_keys(b"SELECT", b"DATABASE", writer)?;
    writer.sign(b'(')?;
    writer.sign(b')')?;
    Ok(())
}

fn print_show_databases(writer: &mut Writer) -> Result<(), AllocError>
    ensures { OnOk result (writer.new ≡ added writer.old (grammar.statement Stmt.ShowDatabases)) }
{
    print_keys(b"SHOW", b"DATABASES", writer)?;
    Ok(())
}

#[tactic(auto, using(vl_grammar::proofs::Laying::added_both))]
fn print_statement(alloc: Global, stmt: &Stmt, writer: &mut Writer) -> Result<(), AllocError>
    ensures { OnOk result (writer.new ≡ added writer.old (grammar.statement stmt.now)) }
{
    match stmt {
        Stmt::Insert {
            table,
            columns,
            rows,
        } => print_insert(alloc, table, columns.as_slice(), rows.as_slice(), writer),
        Stmt::Select {
            what,
            table,
            tests,
            orders,
            limit,
            for_update,
        } => {
            writer.key(b"SELECT")?;
            print_what(alloc, what, writer)?;
            print_from(
                alloc,
                table,
                tests.as_slice(),
                orders.as_slice(),
                *limit,
                *for_update,
                writer,
            )
        }
        Stmt::Update {
            table,
            assignments,
            tests,
        } => print_update(
            alloc,
            table,
            assignments.as_slice(),
            tests.as_slice(),
            writer,
        ),
        Stmt::Delete { table, tests } => print_delete(alloc, table, tests.as_slice(), writer),
        Stmt::Begin => writer.key(b"BEGIN"),
        Stmt::StartTransaction => print_keys(b"START", b"TRANSACTION", writer),
        Stmt::Commit => writer.key(b"COMMIT"),
        Stmt::Rollback => writer.key(b"ROLLBACK"),
        Stmt::SetAutocommit(on) => print_set_autocommit(*on, writer),
        Stmt::SetNames(charset) => {
            print_keys(b"SET", b"NAMES", writer)?;
            writer.charset(charset.as_slice())
        }
        Stmt::Use(keyspace) => {
            writer.key(b"USE")?;
            writer.name(keyspace.as_slice())
        }
        Stmt::ShowTables => print_keys(b"SHOW", b"TABLES", writer),
        Stmt::ShowDatabases => print_show_databases(writer),
        Stmt::ShowWarnings => print_keys(b"SHOW", b"WARNINGS", writer),
        Stmt::SelectVersionComment => print_version_comment(writer),
        Stmt::SelectDatabase => print_database(writer),
    }
}

// A statement in its layout.
#[tactic(auto, unfolding(vl_grammar::specs::Layout::added))]
fn layout(alloc: Global, stmt: &Stmt) -> Result<Bytes, AllocError>
    ensures { IfOk result (λ text. text ≡ laid true (grammar.statement stmt.now)) }
{
    let mut writer = Writer::new(alloc);
    print_statement(alloc, stmt, &mut writer)?;
    Ok(writer.into_text())
}

/// The text of a statement: keywords in upper case, one space between tokens, none before `,` and
/// inside brackets, names in backquotes where they need them, texts in single quotes with backslash
/// escapes.
pub fn print(alloc: Global, stmt: &Stmt) -> Result<Bytes, AllocError>
    ensures layout { IfOk result (λ text. text ≡ laid true (grammar.statement stmt.now)) }
    // Each statement that some text is, is that which its print is.
    ensures again { IfOk result (λ text. (read : List ℕ) → IsStatement 0 stmt.now (tokens_in read) → IsStatement 0 stmt.now (tokens_in text)) }
{
    let text = layout(alloc, stmt)?;
    Ok(text)
}
