use crate::doubled::Doubled;
use crate::finds::Finds;
use crate::found::Found;
use crate::gathering::{gather, gathered};
use crate::repeated::Repeated;
use crate::sightings::Sightings;
use std::alloc::{AllocError, Global};
use std::collections::BTreeMap;
use vl_catalog::{Catalog, Lookup};
use vl_values::items::Items;
use vl_values::key::Key;
use vl_values::row::Row;

/// Rows with a value of a unique lookup that another row has.
pub(crate) struct DoubledRows;

impl Finds for DoubledRows {
    ghost use Rattle.vl_audit.specs.Audit.{IsDoubled};

    ghost is_found = { λ catalog tables. IsDoubled tables };

    #[tactic(auto, using(crate::proofs::Listing::none_doubled))]
    fn find(
        alloc: Global,
        _catalog: &Catalog,
        lookup: &Lookup,
        tables: &[Items<(Key, Row)>],
        found: &mut BTreeMap<Found, ()>,
    ) -> Result<(), AllocError> {
        if !lookup.unique {
            return Ok(());
        }
        let first = gathered(alloc, &Sightings { lookup }, tables)?;
        let repeated = gathered(
            alloc,
            &Repeated {
                lookup,
                first: &first,
            },
            tables,
        )?;
        let doubled = Doubled {
            lookup,
            repeated: &repeated,
        };
        gather(alloc, &doubled, tables, found)?;
        Ok(())
    }
}
