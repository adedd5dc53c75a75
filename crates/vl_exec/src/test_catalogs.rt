ghost use Rattle.std.specs.Prelude.{IfOk};
ghost use Rattle.vl_rules.specs.Order.{Checked};

use std::alloc::{AllocError, Global};
use std::test::Fail;
use vl_catalog::{
    Catalog, Column, ColumnVindex, KeyspaceParts, KeyspaceVschema, TableDef, TableVschema, Vindex,
    VindexDef, VindexKind,
};
use vl_rules::Check;
use vl_values::bytes::Bytes;
use vl_values::col_type::ColType;
use vl_values::items::Items;
use vl_vindex::{KeyRange, Ring};

fn text(alloc: Global, text: &str) -> Result<Bytes, AllocError> {
    Bytes::from_slice(alloc, text.as_bytes())
}

fn one_name(alloc: Global, name: &str) -> Result<Items<Bytes>, AllocError> {
    let name = text(alloc, name)?;
    Ok(Items::from_vec(vec![in alloc; name]?))
}

fn halves(alloc: Global) -> Result<Ring, Fail> {
    let low = KeyRange::read(b"-80").ok().ok_or("a range")?;
    let high = KeyRange::read(b"80-").ok().ok_or("a range")?;
    match Ring::new(vec![in alloc; low, high]?) {
        Ok(ring) => Ok(ring),
        Err(_) => Err("a ring".into()),
    }
}

fn number_column(alloc: Global, name: &str, nullable: bool) -> Result<Column, AllocError> {
    Ok(Column {
        name: text(alloc, name)?,
        ty: ColType::BigUint,
        nullable,
    })
}

fn table(alloc: Global) -> Result<TableDef, AllocError> {
    let id = number_column(alloc, "id", false)?;
    let v = number_column(alloc, "v", true)?;
    Ok(TableDef {
        name: text(alloc, "n")?,
        columns: Items::from_vec(vec![in alloc; id, v]?),
        key: one_name(alloc, "id")?,
        ignored: Items::new(alloc),
    })
}

// Its rows are spread by id, which is the number of the keyspace id.
fn vschema(alloc: Global) -> Result<KeyspaceVschema, AllocError> {
    let vindex = VindexDef {
        name: text(alloc, "by_num")?,
        kind: VindexKind::Primary(Vindex::Numeric),
    };
    let by_id = ColumnVindex {
        columns: one_name(alloc, "id")?,
        vindex: text(alloc, "by_num")?,
    };
    let table = TableVschema {
        name: text(alloc, "n")?,
        column_vindexes: Items::from_vec(vec![in alloc; by_id]?),
    };
    Ok(KeyspaceVschema {
        sharded: true,
        vindexes: Items::from_vec(vec![in alloc; vindex]?),
        tables: Items::from_vec(vec![in alloc; table]?),
        ignored: Items::new(alloc),
    })
}

fn commerce(alloc: Global) -> Result<KeyspaceParts, Fail> {
    Ok(KeyspaceParts {
        name: text(alloc, "commerce")?,
        ring: halves(alloc)?,
        vschema: vschema(alloc)?,
        tables: Items::from_vec(vec![in alloc; table(alloc)?]?),
    })
}

/// Keyspace commerce with the shards `-80` and `80-`, and the one table n(id BIGINT UNSIGNED NOT NULL,
/// v BIGINT UNSIGNED, PRIMARY KEY(id)), which has no lookups.
pub(crate) fn catalog_n(alloc: Global) -> Result<Catalog, Fail>
    ensures { IfOk result Checked }
{
    let catalog = Catalog::build(alloc, vec![in alloc; commerce(alloc)?]?)?;
    match catalog.check(alloc) {
        Ok(()) => Ok(catalog),
        Err(_) => Err("a catalog that keeps its rules".into()),
    }
}

/// The built-in catalog.
pub(crate) fn catalog_a(alloc: Global) -> Result<Catalog, Fail>
    ensures { IfOk result Checked }
{
    let catalog = Catalog::a(alloc)?;
    match catalog.check(alloc) {
        Ok(()) => Ok(catalog),
        Err(_) => Err("a catalog that keeps its rules".into()),
    }
}
