ghost use Rattle.std.specs.Prelude.{◌≡◌, ◌++◌, [], ◌∷◌, IfOk, OnOk, codes, length};
ghost use Rattle.std.specs.Fmt.{decimal};
ghost use Rattle.vl_model.specs.ReplyLine.{names_text, reply_line, row_line, row_lines, row_text, tx_text, type_in, warnings_text};
ghost use Rattle.vl_text.specs.Listed.{before_value};
ghost use Rattle.vl_values.specs.Cause.{cause_text, sql_state};

use std::alloc::{AllocError, Global};
use vl_text::push_shown;
use vl_values::cause::Cause;
use vl_values::col_type::ColType;
use vl_values::reply::Reply;
use vl_values::reply_column::ReplyColumn;
use vl_values::row::Row;
use vl_values::value::Value;

/// The line that a script prints for a reply, with its end; behind that of a result set, a line for each
/// of its rows.
pub fn line_for(alloc: Global, session: &[u8], reply: &Reply) -> Result<Vec<u8>, AllocError>
    ensures { IfOk result (λ line. line.items ≡ reply_line session.now reply.now) }
{
    let mut line = Vec::from_slice(alloc, session)?;
    line.extend_from_slice(b": ")?;
    match reply {
        Reply::Ok {
            affected,
            found: _,
            warnings,
            tx,
            auto: _,
        } => {
            push_done(&mut line, *affected, *warnings, *tx)?;
            line.push(b'\n')?;
        }
        Reply::Rows {
            columns,
            rows,
            tx,
            auto: _,
        } => {
            push_result_set(&mut line, columns.as_slice(), rows.len(), *tx)?;
            line.push(b'\n')?;
            push_rows(&mut line, session, columns.as_slice(), rows.as_slice())?;
        }
        Reply::Err { code, why, tx } => {
            push_refusal(&mut line, *code, why, *tx)?;
            line.push(b'\n')?;
        }
    }
    Ok(line)
}

fn push_done(line: &mut Vec<u8>, affected: u64, warnings: u16, tx: bool) -> Result<(), AllocError>
    ensures { OnOk result (line.new.items ≡ line.old.items ++ (codes "OK " ++ (decimal affected ++ (warnings_text warnings ++ tx_text tx)))) }
{
    line.extend_from_slice(b"OK ")?;
    push_number(line, affected)?;
    push_warnings(line, warnings)?;
    push_tx(line, tx)
}

fn push_result_set(
    line: &mut Vec<u8>,
    columns: &[ReplyColumn],
    rows: usize,
    tx: bool,
) -> Result<(), AllocError>
    ensures { OnOk result (line.new.items ≡ line.old.items ++ (codes "ROWS " ++ (decimal rows ++ (codes " (" ++ (names_text columns.now ++ (codes ")" ++ tx_text tx)))))) }
{
    line.extend_from_slice(b"ROWS ")?;
    push_number(line, rows as u64)?;
    line.extend_from_slice(b" (")?;
    push_names(line, columns)?;
    line.extend_from_slice(b")")?;
    push_tx(line, tx)
}

// The names of columns, with `, ` between each two.
fn push_names(line: &mut Vec<u8>, columns: &[ReplyColumn]) -> Result<(), AllocError>
    ensures { OnOk result (line.new.items ≡ line.old.items ++ names_text columns.now) }
{
    for (n, column) in columns.iter().enumerate() {
        push_comma(line, n)?;
        line.extend_from_slice(column.name.as_slice())?;
    }
    Ok(())
}

// What stands before the n-th of several.
fn push_comma(line: &mut Vec<u8>, n: usize) -> Result<(), AllocError>
    ensures { OnOk result (line.new.items ≡ line.old.items ++ before_value (codes ", ") n) }
{
    if n == 0 {
        return Ok(());
    }
    line.extend_from_slice(b", ")
}

// A line for each row.
fn push_rows(
    line: &mut Vec<u8>,
    session: &[u8],
    columns: &[ReplyColumn],
    rows: &[Row],
) -> Result<(), AllocError>
    ensures { OnOk result (line.new.items ≡ line.old.items ++ row_lines session.now columns.now rows.now) }
{
    for row in rows {
        push_row(line, session, columns, row.as_slice())?;
    }
    Ok(())
}

fn push_row(
    line: &mut Vec<u8>,
    session: &[u8],
    columns: &[ReplyColumn],
    row: &[Value],
) -> Result<(), AllocError>
    ensures { OnOk result (line.new.items ≡ line.old.items ++ row_line session.now columns.now row.now) }
{
    line.extend_from_slice(session)?;
    line.extend_from_slice(b"| ")?;
    push_values(line, columns, row)?;
    line.extend_from_slice(b"\n")
}

// A row's values, each by the type of its column, with `, ` between each two.
fn push_values(line: &mut Vec<u8>, columns: &[ReplyColumn], row: &[Value]) -> Result<(), AllocError>
    ensures { OnOk result (line.new.items ≡ line.old.items ++ row_text columns.now row.now) }
{
    for (n, value) in row.iter().enumerate() {
        push_comma(line, n)?;
        push_shown(line, type_in(columns, n), value)?;
    }
    Ok(())
}

// The type of column n; what no column has is shown as bytes.
fn type_in(columns: &[ReplyColumn], n: usize) -> ColType
    ensures { result ≡ type_in columns.now n }
{
    match columns.get(n) {
        Some(column) => column.ty,
        None => ColType::VarBinary(0),
    }
}

fn push_refusal(line: &mut Vec<u8>, code: u16, why: &Cause, tx: bool) -> Result<(), AllocError>
    ensures { OnOk result (line.new.items ≡ line.old.items ++ (codes "ERR " ++ (decimal code ++ (codes " " ++ (sql_state why.now ++ (codes " " ++ (cause_text why.now ++ tx_text tx))))))) }
{
    line.extend_from_slice(b"ERR ")?;
    push_number(line, u64::from(code))?;
    line.extend_from_slice(b" ")?;
    line.extend_from_slice(why.state())?;
    line.extend_from_slice(b" ")?;
    line.extend_from_slice(why.text().as_slice())?;
    push_tx(line, tx)
}

// Warnings are told where there are some.
fn push_warnings(line: &mut Vec<u8>, warnings: u16) -> Result<(), AllocError>
    ensures { OnOk result (line.new.items ≡ line.old.items ++ warnings_text warnings) }
{
    if warnings == 0 {
        return Ok(());
    }
    line.extend_from_slice(b" WARN ")?;
    push_number(line, u64::from(warnings))
}

// An open transaction is told.
fn push_tx(line: &mut Vec<u8>, tx: bool) -> Result<(), AllocError>
    ensures { OnOk result (line.new.items ≡ line.old.items ++ tx_text tx) }
{
    if tx {
        line.extend_from_slice(b" TX")?;
    }
    Ok(())
}

fn push_number(line: &mut Vec<u8>, n: u64) -> Result<(), AllocError>
    ensures { OnOk result (line.new.items ≡ line.old.items ++ decimal n) }
{
    let mut buffer = itoa::Buffer::new();
    line.extend_from_slice(buffer.format(n).as_bytes())
}
