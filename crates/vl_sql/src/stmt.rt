use crate::assignment::Assignment;
use crate::order::Order;
use crate::sequence::Sequence;
use crate::table::TableName;
use crate::test::Test;
use crate::what::What;
use vl_values::bytes::Bytes;
use vl_values::row::Row;

/// A statement, with its parts.
#[derive(Debug, Drop)]
pub enum Stmt {
    /// `INSERT INTO table (column, ..) VALUES (literal, ..), ..`: the columns, no name twice, and
    /// the rows, 1 to 1,000 of them.
    Insert {
        table: TableName,
        columns: Sequence<Bytes>,
        rows: Sequence<Row>,
    },
    /// `SELECT what FROM table [WHERE test AND ..] [ORDER BY column, ..] [LIMIT n] [FOR UPDATE]`:
    /// the tests, the orders, 8 at most, the limit, and whether FOR UPDATE is said.
    Select {
        what: What,
        table: TableName,
        tests: Sequence<Test>,
        orders: Sequence<Order>,
        limit: Option<u64>,
        for_update: bool,
    },
    /// `UPDATE table SET column = literal, .. [WHERE test AND ..]`: no column is set twice.
    Update {
        table: TableName,
        assignments: Sequence<Assignment>,
        tests: Sequence<Test>,
    },
    /// `DELETE FROM table [WHERE test AND ..]`
    Delete {
        table: TableName,
        tests: Sequence<Test>,
    },
    Begin,
    StartTransaction,
    Commit,
    Rollback,
    /// `SET autocommit = 0` or `1`
    SetAutocommit(bool),
    /// `SET NAMES charset`
    SetNames(Bytes),
    /// `USE keyspace`
    Use(Bytes),
    ShowTables,
    ShowDatabases,
    ShowWarnings,
    /// `SELECT @@version_comment LIMIT 1`
    SelectVersionComment,
    /// `SELECT DATABASE()`
    SelectDatabase,
}
