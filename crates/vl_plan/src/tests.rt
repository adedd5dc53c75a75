use crate::test_catalogs::{catalog_a, catalog_b, catalog_signed};
use crate::test_texts::are_planned;
use std::test::Fail;

static ROUTES_OF_A: [(&str, &str); 18] = [
    ("SELECT * FROM t1", "all"),
    ("SELECT * FROM t1 WHERE id=7", "primary +7"),
    ("SELECT u FROM t1 WHERE id='07'", "primary +7"),
    (
        "SELECT * FROM t1 WHERE id IN (9, 3, '9', NULL, 3)",
        "primary +3 +9",
    ),
    ("SELECT * FROM t1 WHERE id=NULL", "primary"),
    ("SELECT * FROM t1 WHERE id=1 AND id=2", "primary +1"),
    ("SELECT * FROM t1 WHERE u=5 AND id=1", "primary +1"),
    ("SELECT * FROM t1 WHERE u=5", "lookup 0 +5"),
    ("SELECT * FROM t1 WHERE u IN (5, 4)", "lookup 0 +4 +5"),
    ("SELECT * FROM t1 WHERE u=NULL AND u=3", "lookup 0"),
    ("SELECT * FROM t2 WHERE b='x'", "lookup 2 'x'"),
    ("SELECT * FROM t2 WHERE b=12", "lookup 2 '12'"),
    ("SELECT * FROM t2 WHERE b='x' AND a=1", "lookup 1 +1"),
    (
        "SELECT id FROM commerce.t2 WHERE b IN ('y', 'x', 'y') FOR UPDATE",
        "lookup 2 'x' 'y'",
    ),
    ("SELECT COUNT(*) FROM t1_u_idx WHERE u=3", "primary +3"),
    (
        "SELECT * FROM t2_b_idx WHERE id=3 ORDER BY b DESC LIMIT 2",
        "all",
    ),
    ("UPDATE t1 SET u=NULL WHERE id=4", "primary +4"),
    ("DELETE FROM t1 WHERE u=4", "lookup 0 +4"),
];

#[test]
fn statements_on_the_built_in_catalog_have_their_routes(rt: HostRuntime) -> Result<(), Fail> {
    let catalog = catalog_a(rt.alloc())?;
    are_planned(&rt, rt.alloc(), &catalog, &ROUTES_OF_A)
}

static REFUSALS_OF_A: [(&str, &str); 26] = [
    ("SELECT * FROM t9", "1146 Unknown table 't9'"),
    ("SELECT * FROM product.t1", "1146 Unknown table 't1'"),
    (
        "DELETE FROM product.t9 WHERE v=1",
        "1146 Unknown table 't9'",
    ),
    ("INSERT INTO t9(v) VALUES(1,2)", "1146 Unknown table 't9'"),
    ("SELECT v FROM t1", "1054 Unknown column 'v'"),
    (
        "SELECT id, v FROM t1 WHERE w=1 ORDER BY x",
        "1054 Unknown column 'v'",
    ),
    (
        "SELECT id FROM t1 WHERE u=1 AND w=1 ORDER BY x",
        "1054 Unknown column 'w'",
    ),
    ("SELECT id FROM t1 ORDER BY u, x", "1054 Unknown column 'x'"),
    (
        "UPDATE t1 SET u=1, v=2 WHERE w=3",
        "1054 Unknown column 'v'",
    ),
    ("INSERT INTO t1(id,v) VALUES(1)", "1054 Unknown column 'v'"),
    (
        "INSERT INTO t1(id,u) VALUES(1)",
        "1136 Row 1 has 1 values for 2 columns",
    ),
    (
        "INSERT INTO t1(id,u) VALUES(1,2),('a',3),(4)",
        "1136 Row 3 has 1 values for 2 columns",
    ),
    (
        "INSERT INTO t1_u_idx(u) VALUES(1,2)",
        "1136 Row 1 has 2 values for 1 columns",
    ),
    (
        "INSERT INTO t1(u) VALUES(1)",
        "1048 Column 'id' cannot be null",
    ),
    (
        "INSERT INTO t2(id) VALUES(1)",
        "1048 Column 'a' cannot be null",
    ),
    (
        "INSERT INTO t1(id,u) VALUES(1,2),(3,-1),('a',4)",
        "1264 Value of 'u' is out of range",
    ),
    (
        "INSERT INTO t1(u,id) VALUES(-1,'a')",
        "1366 Value of 'id' is not a number",
    ),
    (
        "INSERT INTO t1_u_idx(u) VALUES('a')",
        "1366 Value of 'u' is not a number",
    ),
    (
        "UPDATE t2 SET b=1, a=NULL WHERE id='x'",
        "1048 Column 'a' cannot be null",
    ),
    (
        "SELECT COUNT(*) FROM t1 WHERE u='x' AND id=-1 LIMIT 1",
        "1366 Value of 'u' is not a number",
    ),
    (
        "DELETE FROM t1_u_idx",
        "1235 Not supported: write to a lookup table",
    ),
    (
        "UPDATE t1_u_idx SET u=1",
        "1235 Not supported: write to a lookup table",
    ),
    (
        "UPDATE t1 SET id=2",
        "1235 Not supported: change of a key column",
    ),
    (
        "SELECT COUNT(*) FROM t1_u_idx FOR UPDATE",
        "1235 Not supported: lock on a lookup table",
    ),
    (
        "SELECT COUNT(*) FROM t1 ORDER BY id",
        "1235 Not supported: COUNT(*) with more",
    ),
    ("USE product", "1049 Unknown database 'product'"),
];

#[test]
fn the_first_refusal_is_told(rt: HostRuntime) -> Result<(), Fail> {
    let catalog = catalog_a(rt.alloc())?;
    are_planned(&rt, rt.alloc(), &catalog, &REFUSALS_OF_A)
}

static REST_OF_A: [(&str, &str); 8] = [
    (
        "INSERT INTO t1(u,id) VALUES(7,'1'),(NULL,2)",
        "rows: +1 +7; +2 NULL;",
    ),
    ("INSERT INTO t2(id,a) VALUES(1,2)", "rows: +1 +2 NULL;"),
    (
        "SELECT COUNT(*) FROM t1 LIMIT 5",
        "1235 Not supported: COUNT(*) with more",
    ),
    (
        "SELECT COUNT(*) FROM t1 FOR UPDATE",
        "1235 Not supported: COUNT(*) with more",
    ),
    (
        "SELECT * FROM t1_u_idx FOR UPDATE",
        "1235 Not supported: lock on a lookup table",
    ),
    ("START TRANSACTION", "Begin"),
    ("SET autocommit = 0", "SetAutocommit(false)"),
    ("SHOW WARNINGS", "ShowWarnings"),
];

#[test]
fn other_statements_are_planned(rt: HostRuntime) -> Result<(), Fail> {
    let catalog = catalog_a(rt.alloc())?;
    are_planned(&rt, rt.alloc(), &catalog, &REST_OF_A)
}

static ON_B: [(&str, &str); 6] = [
    ("SELECT * FROM corder WHERE order_id=3", "lookup 0 +3"),
    (
        "SELECT * FROM commerce.corder WHERE customer_id IN (2,1)",
        "primary +1 +2",
    ),
    (
        "SELECT * FROM product.corder",
        "1146 Unknown table 'corder'",
    ),
    (
        "SELECT * FROM product.corder_order_idx WHERE order_id=3",
        "all",
    ),
    (
        "UPDATE corder SET order_id=1",
        "1235 Not supported: change of a key column",
    ),
    (
        "INSERT INTO corder(order_id, customer_id) VALUES(1,2)",
        "rows: +2 +1 NULL;",
    ),
];

#[test]
fn statements_on_two_keyspaces_are_planned(rt: HostRuntime) -> Result<(), Fail> {
    let catalog = catalog_b(rt.alloc())?;
    are_planned(&rt, rt.alloc(), &catalog, &ON_B)
}

static ON_SIGNED: [(&str, &str); 10] = [
    ("SELECT * FROM s WHERE w=1 AND v=2", "lookup 1 2"),
    ("SELECT * FROM s WHERE w IN (2,1)", "lookup 0 1 2"),
    (
        "SELECT * FROM s WHERE id=-1",
        "1264 Value of 'id' is out of range",
    ),
    (
        "SELECT * FROM s WHERE v='-1'",
        "1264 Value of 'v' is out of range",
    ),
    (
        "DELETE FROM s WHERE id=1 AND w=-1",
        "1264 Value of 'w' is out of range",
    ),
    ("UPDATE s SET w=-1", "1264 Value of 'w' is out of range"),
    (
        "INSERT INTO s(id,w,x) VALUES(1,2,'x')",
        "1048 Column 'v' cannot be null",
    ),
    (
        "INSERT INTO s(id,v,x) VALUES(1,2,'five5')",
        "1406 Value of 'x' is longer than 4 bytes",
    ),
    (
        "INSERT INTO s(id,v,x) VALUES(1,2,-5)",
        "rows: 1 2 NULL '-5';",
    ),
    (
        "SELECT * FROM s_v_idx WHERE v=-1",
        "1264 Value of 'v' is out of range",
    ),
];

#[test]
fn statements_on_signed_columns_are_planned(rt: HostRuntime) -> Result<(), Fail> {
    let catalog = catalog_signed(rt.alloc())?;
    are_planned(&rt, rt.alloc(), &catalog, &ON_SIGNED)
}
