ghost use Rattle.std.specs.Prelude.{◌≡◌, List, length, codes};
ghost use Rattle.vl_token.specs.View.{tok, tokens_of};
ghost use Rattle.vl_grammar.specs.Reading.{Gives, one, starts};
ghost use Rattle.vl_sql.specs.Reading as reading;

use crate::distinct::{assignments, columns};
use crate::list::members;
use crate::parts::{MOST, for_update, limit, orders, rows, table, tests};
use crate::sequence::Sequence;
use crate::stmt::Stmt;
use crate::verb::Verb;
use crate::what::What;
use std::alloc::Global;
use vl_grammar::{
    ReadError, bit, called, charset, digits, is_key, key, mark, name, starts_key, starts_mark,
    starts_variable, variable,
};
use vl_token::{Token, Tokens};
use vl_values::bytes::Bytes;

// The verb that a token is.
fn verb(token: &Token) -> Option<Verb>
    ensures { result ≡ reading.verb_of (tok token.now) }
{
    if is_key(b"INSERT", token) {
        return Some(Verb::Insert);
    }
    if is_key(b"SELECT", token) {
        return Some(Verb::Select);
    }
    if is_key(b"UPDATE", token) {
        return Some(Verb::Update);
    }
    if is_key(b"DELETE", token) {
        return Some(Verb::Delete);
    }
    if is_key(b"BEGIN", token) {
        return Some(Verb::Begin);
    }
    if is_key(b"START", token) {
        return Some(Verb::Start);
    }
    if is_key(b"COMMIT", token) {
        return Some(Verb::Commit);
    }
    if is_key(b"ROLLBACK", token) {
        return Some(Verb::Rollback);
    }
    if is_key(b"SET", token) {
        return Some(Verb::Set);
    }
    if is_key(b"USE", token) {
        return Some(Verb::Use);
    }
    if is_key(b"SHOW", token) {
        return Some(Verb::Show);
    }
    None
}

// `INTO table (name, ..) VALUES row, ..`
#[tactic(auto, unfolding(crate::specs::Reading::insert_at))]
fn insert(alloc: Global, tokens: Tokens<'_>) -> Result<(Stmt, Tokens<'_>), ReadError>
    ensures { Gives (λ x. (x.0, tokens_of x.1.now)) result (reading.insert_at 0 (tokens_of tokens.now)) }
{
    let rest = key(b"INTO", tokens)?;
    let (table, rest) = table(alloc, rest)?;
    let (columns, rest) = columns(alloc, rest)?;
    let rest = key(b"VALUES", rest)?;
    let (rows, rest) = rows(alloc, rest)?;
    let stmt = Stmt::Insert {
        table,
        columns,
        rows,
    };
    Ok((stmt, rest))
}

// `FROM table [WHERE ..] [ORDER BY ..] [LIMIT n] [FOR UPDATE]`
#[tactic(auto, unfolding(crate::specs::Reading::from_at))]
fn from(alloc: Global, what: What, tokens: Tokens<'_>) -> Result<(Stmt, Tokens<'_>), ReadError>
    ensures { Gives (λ x. (x.0, tokens_of x.1.now)) result (reading.from_at what 0 (tokens_of tokens.now)) }
{
    let rest = key(b"FROM", tokens)?;
    let (table, rest) = table(alloc, rest)?;
    let (tests, rest) = tests(alloc, rest)?;
    let (orders, rest) = orders(alloc, rest)?;
    let (limit, rest) = limit(rest)?;
    let (for_update, rest) = for_update(rest)?;
    let stmt = Stmt::Select {
        what,
        table,
        tests,
        orders,
        limit,
        for_update,
    };
    Ok((stmt, rest))
}

// `@@version_comment LIMIT 1`
#[tactic(auto, unfolding(crate::specs::Reading::version_comment_at))]
fn version_comment(tokens: Tokens<'_>) -> Result<(Stmt, Tokens<'_>), ReadError>
    ensures { Gives (λ x. (x.0, tokens_of x.1.now)) result (reading.version_comment_at (tokens_of tokens.now)) }
{
    let rest = variable(b"version_comment", tokens)?;
    let rest = key(b"LIMIT", rest)?;
    let rest = digits(b"1", rest)?;
    Ok((Stmt::SelectVersionComment, rest))
}

// `)` behind `DATABASE (`
#[tactic(auto, unfolding(crate::specs::Reading::database_at))]
fn database(tokens: Tokens<'_>) -> Result<(Stmt, Tokens<'_>), ReadError>
    ensures { Gives (λ x. (x.0, tokens_of x.1.now)) result (reading.database_at (tokens_of tokens.now)) }
{
    let rest = mark(b')', tokens)?;
    Ok((Stmt::SelectDatabase, rest))
}

// `*) FROM ..` behind `COUNT (`
#[tactic(auto, unfolding(crate::specs::Reading::count_at))]
fn count(alloc: Global, tokens: Tokens<'_>) -> Result<(Stmt, Tokens<'_>), ReadError>
    ensures { Gives (λ x. (x.0, tokens_of x.1.now)) result (reading.count_at 0 (tokens_of tokens.now)) }
{
    let rest = mark(b'*', tokens)?;
    let rest = mark(b')', rest)?;
    from(alloc, What::Count, rest)
}

// `* FROM ..`
#[tactic(auto, unfolding(crate::specs::Reading::all_at))]
fn all(alloc: Global, tokens: Tokens<'_>) -> Result<(Stmt, Tokens<'_>), ReadError>
    ensures { Gives (λ x. (x.0, tokens_of x.1.now)) result (reading.all_at 0 (tokens_of tokens.now)) }
{
    let rest = mark(b'*', tokens)?;
    from(alloc, What::All, rest)
}

// `name, .. FROM ..`
#[tactic(auto, unfolding(crate::specs::Reading::some_at))]
fn some(alloc: Global, tokens: Tokens<'_>) -> Result<(Stmt, Tokens<'_>), ReadError>
    ensures { Gives (λ x. (x.0, tokens_of x.1.now)) result (reading.some_at 0 (tokens_of tokens.now)) }
{
    let (names, rest) = members::<Bytes>(alloc, MOST, tokens)?;
    from(alloc, What::Columns(Sequence::from_vec(names)), rest)
}

// What SELECT stands before.
#[tactic(auto, unfolding(crate::specs::Reading::select_at))]
fn select(alloc: Global, tokens: Tokens<'_>) -> Result<(Stmt, Tokens<'_>), ReadError>
    ensures { Gives (λ x. (x.0, tokens_of x.1.now)) result (reading.select_at 0 (tokens_of tokens.now)) }
{
    if starts_variable(b"version_comment", tokens) {
        return version_comment(tokens);
    }
    if starts_mark(b'*', tokens) {
        return all(alloc, tokens);
    }
    if let Some(rest) = called(b"COUNT", tokens) {
        return count(alloc, rest);
    }
    if let Some(rest) = called(b"DATABASE", tokens) {
        return database(rest);
    }
    some(alloc, tokens)
}

// `table SET name = literal, .. [WHERE ..]`
#[tactic(auto, unfolding(crate::specs::Reading::update_at))]
fn update(alloc: Global, tokens: Tokens<'_>) -> Result<(Stmt, Tokens<'_>), ReadError>
    ensures { Gives (λ x. (x.0, tokens_of x.1.now)) result (reading.update_at 0 (tokens_of tokens.now)) }
{
    let (table, rest) = table(alloc, tokens)?;
    let rest = key(b"SET", rest)?;
    let (assignments, rest) = assignments(alloc, rest)?;
    let (tests, rest) = tests(alloc, rest)?;
    let stmt = Stmt::Update {
        table,
        assignments,
        tests,
    };
    Ok((stmt, rest))
}

// `FROM table [WHERE ..]`
#[tactic(auto, unfolding(crate::specs::Reading::delete_at))]
fn delete(alloc: Global, tokens: Tokens<'_>) -> Result<(Stmt, Tokens<'_>), ReadError>
    ensures { Gives (λ x. (x.0, tokens_of x.1.now)) result (reading.delete_at 0 (tokens_of tokens.now)) }
{
    let rest = key(b"FROM", tokens)?;
    let (table, rest) = table(alloc, rest)?;
    let (tests, rest) = tests(alloc, rest)?;
    Ok((Stmt::Delete { table, tests }, rest))
}

// `TRANSACTION`
#[tactic(auto, unfolding(crate::specs::Reading::start_at))]
fn start(tokens: Tokens<'_>) -> Result<(Stmt, Tokens<'_>), ReadError>
    ensures { Gives (λ x. (x.0, tokens_of x.1.now)) result (reading.start_at (tokens_of tokens.now)) }
{
    let rest = key(b"TRANSACTION", tokens)?;
    Ok((Stmt::StartTransaction, rest))
}

// `autocommit = 0` or `1`
#[tactic(auto, unfolding(crate::specs::Reading::autocommit_at))]
fn autocommit(tokens: Tokens<'_>) -> Result<(Stmt, Tokens<'_>), ReadError>
    ensures { Gives (λ x. (x.0, tokens_of x.1.now)) result (reading.autocommit_at (tokens_of tokens.now)) }
{
    let rest = key(b"AUTOCOMMIT", tokens)?;
    let rest = mark(b'=', rest)?;
    let (on, rest) = bit(rest)?;
    Ok((Stmt::SetAutocommit(on), rest))
}

// `NAMES charset`
#[tactic(auto, unfolding(crate::specs::Reading::names_at))]
fn names(alloc: Global, tokens: Tokens<'_>) -> Result<(Stmt, Tokens<'_>), ReadError>
    ensures { Gives (λ x. (x.0, tokens_of x.1.now)) result (reading.names_at (tokens_of tokens.now)) }
{
    let rest = key(b"NAMES", tokens)?;
    let (charset, rest) = charset(alloc, rest)?;
    Ok((Stmt::SetNames(charset), rest))
}

#[tactic(auto, unfolding(crate::specs::Reading::set_at))]
fn set(alloc: Global, tokens: Tokens<'_>) -> Result<(Stmt, Tokens<'_>), ReadError>
    ensures { Gives (λ x. (x.0, tokens_of x.1.now)) result (reading.set_at (tokens_of tokens.now)) }
{
    if starts_key(b"AUTOCOMMIT", tokens) {
        return autocommit(tokens);
    }
    names(alloc, tokens)
}

#[tactic(auto, unfolding(crate::specs::Reading::use_at))]
fn use_keyspace(alloc: Global, tokens: Tokens<'_>) -> Result<(Stmt, Tokens<'_>), ReadError>
    ensures { Gives (λ x. (x.0, tokens_of x.1.now)) result (reading.use_at (tokens_of tokens.now)) }
{
    let (keyspace, rest) = name(alloc, tokens)?;
    Ok((Stmt::Use(keyspace), rest))
}

// What SHOW shows.
fn shown(token: &Token) -> Option<Stmt>
    ensures { result ≡ reading.shown (tok token.now) }
{
    if is_key(b"TABLES", token) {
        return Some(Stmt::ShowTables);
    }
    if is_key(b"DATABASES", token) {
        return Some(Stmt::ShowDatabases);
    }
    if is_key(b"WARNINGS", token) {
        return Some(Stmt::ShowWarnings);
    }
    None
}

fn show(tokens: Tokens<'_>) -> Result<(Stmt, Tokens<'_>), ReadError>
    ensures { Gives (λ x. (x.0, tokens_of x.1.now)) result (one reading.shown (tokens_of tokens.now)) }
{
    match tokens {
        [] => Err(ReadError::Fault(0)),
        [token, rest @ ..] => {
            let Some(stmt) = shown(token) else {
                return Err(ReadError::Fault(tokens.len()));
            };
            Ok((stmt, rest))
        }
    }
}

fn body(alloc: Global, verb: Verb, tokens: Tokens<'_>) -> Result<(Stmt, Tokens<'_>), ReadError>
    ensures { Gives (λ x. (x.0, tokens_of x.1.now)) result (reading.body_at verb 0 (tokens_of tokens.now)) }
{
    match verb {
        Verb::Insert => insert(alloc, tokens),
        Verb::Select => select(alloc, tokens),
        Verb::Update => update(alloc, tokens),
        Verb::Delete => delete(alloc, tokens),
        Verb::Begin => Ok((Stmt::Begin, tokens)),
        Verb::Start => start(tokens),
        Verb::Commit => Ok((Stmt::Commit, tokens)),
        Verb::Rollback => Ok((Stmt::Rollback, tokens)),
        Verb::Set => set(alloc, tokens),
        Verb::Use => use_keyspace(alloc, tokens),
        Verb::Show => show(tokens),
    }
}

/// A statement, and the tokens behind it.
#[tactic(auto, unfolding(crate::specs::Reading::statement_at))]
pub fn statement(alloc: Global, tokens: Tokens<'_>) -> Result<(Stmt, Tokens<'_>), ReadError>
    ensures { Gives (λ x. (x.0, tokens_of x.1.now)) result (reading.statement_at 0 (tokens_of tokens.now)) }
{
    match tokens {
        [] => Err(ReadError::Fault(0)),
        [token, rest @ ..] => {
            let Some(verb) = verb(token) else {
                return Err(ReadError::Fault(tokens.len()));
            };
            body(alloc, verb, rest)
        }
    }
}
