use crate::catalog_fault::CatalogFault;
use crate::order::first_broken;
use std::alloc::Global;
use vl_catalog::Catalog;
use vl_values::bytes::Bytes;

/// What keeps rules, or names the first that it breaks.
pub trait Check {
    ghost use Rattle.std.specs.Prelude.{Option};
    ghost use Rattle.vl_rules.specs.Order.{Answers, Fault};

    ghost fault: { Self → Option Fault };

    /// `Ok` where all rules are kept; else the first broken rule of the first table in order.
    fn check(&self, alloc: Global) -> Result<(), CatalogFault>
        ensures { Answers result (fault self.now) };
}

impl Check for Catalog {
    ghost use Rattle.vl_rules.specs.Order.{first_broken};

    ghost fault = { first_broken };

    fn check(&self, alloc: Global) -> Result<(), CatalogFault> {
        match first_broken(self) {
            None => Ok(()),
            Some((name, rule)) => match Bytes::from_slice(alloc, name) {
                Ok(table) => Err(CatalogFault::Broken { table, rule }),
                Err(_) => Err(CatalogFault::Memory),
            },
        }
    }
}
