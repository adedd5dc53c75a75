ghost use Rattle.std.specs.Prelude.{◌≡◌, true};
ghost use Rattle.std.specs.List.{list_all};
ghost use Rattle.my_reply.specs.Limits.{has_short_texts, is_encodable, is_short_row, is_short_value};
ghost use Rattle.my_reply.specs.Reply.{IsEncodable};

use vl_values::reply::Reply;
use vl_values::reply_column::ReplyColumn;
use vl_values::row::Row;
use vl_values::value::Value;

fn has_short_texts(column: &ReplyColumn) -> bool
    ensures { result ≡ has_short_texts column.now }
{
    column.schema.len() <= 64 && column.table.len() <= 64 && column.name.len() <= 64
}

fn is_short_value(value: &Value) -> bool
    ensures { result ≡ is_short_value value.now }
{
    let mut buffer = itoa::Buffer::new();
    match value {
        Value::Null => true,
        Value::Int(n) => buffer.format(*n).len() <= 16383,
        Value::Uint(n) => buffer.format(*n).len() <= 16383,
        Value::Bytes(bytes) => bytes.len() <= 16383,
    }
}

fn are_short_values(row: &[Value]) -> bool
    ensures { result ≡ list_all is_short_value row.now }
{
    row.iter().all(|value| is_short_value(value))
}

fn is_short_row(row: &Row) -> bool
    ensures { result ≡ is_short_row row.now }
{
    row.len() <= 1000 && are_short_values(row.as_slice())
}

fn have_short_texts(columns: &[ReplyColumn]) -> bool
    ensures { result ≡ list_all has_short_texts columns.now }
{
    columns.iter().all(|column| has_short_texts(column))
}

fn are_short_rows(rows: &[Row]) -> bool
    ensures { result ≡ list_all is_short_row rows.now }
{
    rows.iter().all(|row| is_short_row(row))
}

/// Whether no payload of a reply is too long for a packet, as `encode` asks.
pub fn is_encodable(reply: &Reply) -> bool
    ensures exact { result ≡ is_encodable reply.now }
    ensures encodable { result ≡ true → IsEncodable reply.now }
{
    match reply {
        Reply::Ok { .. } => true,
        Reply::Rows {
            columns,
            rows,
            tx: _,
            auto: _,
        } => {
            columns.len() <= 1000
                && have_short_texts(columns.as_slice())
                && are_short_rows(rows.as_slice())
        }
        Reply::Err { .. } => true,
    }
}
