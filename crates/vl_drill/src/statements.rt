ghost use Rattle.std.specs.Prelude.{◌≡◌, ◌+◌, ◌*◌, ◌^◌, ◌<◌, IfOk, codes};
ghost use Rattle.vl_drill.specs.Statements.{asked, count, delete, id_drawn, insert, is, of_kind, t1, u_drawn, update, with_both, with_id, with_u};

use crate::generator::Generator;
use std::alloc::{AllocError, Global};
use vl_sql::assignment::Assignment;
use vl_sql::sequence::Sequence;
use vl_sql::stmt::Stmt;
use vl_sql::table::TableName;
use vl_sql::test::Test;
use vl_sql::what::What;
use vl_values::bytes::Bytes;
use vl_values::row::Row;
use vl_values::value::Value;

fn t1_name(alloc: Global) -> Result<TableName, AllocError>
    ensures { IfOk result (λ name. name ≡ t1) }
{
    let name = Bytes::from_slice(alloc, b"t1")?;
    Ok(TableName {
        keyspace: None,
        name,
    })
}

fn is_number(alloc: Global, column: &[u8], n: u64) -> Result<Sequence<Test>, AllocError>
    ensures { IfOk result (λ tests. tests ≡ is column.now n) }
{
    let column = Bytes::from_slice(alloc, column)?;
    let tests = vec![in alloc; Test::Equals(column, Value::Uint(n))]?;
    Ok(Sequence::from_vec(tests))
}

fn insert_of(alloc: Global, id: u64, u: u64) -> Result<Stmt, AllocError>
    ensures { IfOk result (λ stmt. stmt ≡ insert id u) }
{
    let table = t1_name(alloc)?;
    let id_name = Bytes::from_slice(alloc, b"id")?;
    let u_name = Bytes::from_slice(alloc, b"u")?;
    let columns = vec![in alloc; id_name, u_name]?;
    let values = vec![in alloc; Value::Uint(id), Value::Uint(u)]?;
    let rows = vec![in alloc; Row::from_vec(values)]?;
    Ok(Stmt::Insert {
        table,
        columns: Sequence::from_vec(columns),
        rows: Sequence::from_vec(rows),
    })
}

fn delete_of(alloc: Global, id: u64) -> Result<Stmt, AllocError>
    ensures { IfOk result (λ stmt. stmt ≡ delete id) }
{
    let table = t1_name(alloc)?;
    let tests = is_number(alloc, b"id", id)?;
    Ok(Stmt::Delete { table, tests })
}

fn update_of(alloc: Global, id: u64, u: u64) -> Result<Stmt, AllocError>
    ensures { IfOk result (λ stmt. stmt ≡ update id u) }
{
    let table = t1_name(alloc)?;
    let column = Bytes::from_slice(alloc, b"u")?;
    let assignment = Assignment {
        column,
        value: Value::Uint(u),
    };
    let assignments = vec![in alloc; assignment]?;
    let tests = is_number(alloc, b"id", id)?;
    Ok(Stmt::Update {
        table,
        assignments: Sequence::from_vec(assignments),
        tests,
    })
}

fn count_of(alloc: Global, u: u64) -> Result<Stmt, AllocError>
    ensures { IfOk result (λ stmt. stmt ≡ count u) }
{
    let table = t1_name(alloc)?;
    let tests = is_number(alloc, b"u", u)?;
    Ok(Stmt::Select {
        what: What::Count,
        table,
        tests,
        orders: Sequence::from_vec(Vec::new(alloc)),
        limit: None,
        for_update: false,
    })
}

// An id on one of the two shards.
fn draw_id(generator: &mut Generator) -> u64
    ensures { (result, generator.new.state) ≡ id_drawn generator.old.state }
{
    let half = generator.draw(2);
    let rest = generator.draw(1000);
    half * 0x8000_0000_0000_0000 + rest
}

fn draw_u(generator: &mut Generator) -> u64
    ensures { (result, generator.new.state) ≡ u_drawn generator.old.state }
{
    generator.draw(1000)
}

fn inserting(alloc: Global, generator: &mut Generator) -> Result<Stmt, AllocError>
    ensures { IfOk result (λ stmt. (stmt, generator.new.state) ≡ with_both insert generator.old.state) }
{
    let id = draw_id(generator);
    let u = draw_u(generator);
    insert_of(alloc, id, u)
}

fn updating(alloc: Global, generator: &mut Generator) -> Result<Stmt, AllocError>
    ensures { IfOk result (λ stmt. (stmt, generator.new.state) ≡ with_both update generator.old.state) }
{
    let id = draw_id(generator);
    let u = draw_u(generator);
    update_of(alloc, id, u)
}

fn deleting(alloc: Global, generator: &mut Generator) -> Result<Stmt, AllocError>
    ensures { IfOk result (λ stmt. (stmt, generator.new.state) ≡ with_id delete generator.old.state) }
{
    let id = draw_id(generator);
    delete_of(alloc, id)
}

fn counting(alloc: Global, generator: &mut Generator) -> Result<Stmt, AllocError>
    ensures { IfOk result (λ stmt. (stmt, generator.new.state) ≡ with_u count generator.old.state) }
{
    let u = draw_u(generator);
    count_of(alloc, u)
}

fn draw_of_kind(
    alloc: Global,
    kind: u64,
    has_tx: bool,
    generator: &mut Generator,
) -> Result<Stmt, AllocError>
    ensures { IfOk result (λ stmt. (stmt, generator.new.state) ≡ of_kind kind has_tx generator.old.state) }
{
    match kind {
        0..=4 => inserting(alloc, generator),
        5 | 6 => deleting(alloc, generator),
        7 => updating(alloc, generator),
        8 => counting(alloc, generator),
        _ if has_tx => Ok(Stmt::Commit),
        _ => Ok(Stmt::Begin),
    }
}

/// The next statement of a session with no statement in progress; `has_tx` tells whether it has an open transaction.
pub fn draw_statement(
    alloc: Global,
    has_tx: bool,
    generator: &mut Generator,
) -> Result<Stmt, AllocError>
    ensures { IfOk result (λ stmt. (stmt, generator.new.state) ≡ asked has_tx generator.old.state) }
{
    let kind = generator.draw(10);
    draw_of_kind(alloc, kind, has_tx, generator)
}
