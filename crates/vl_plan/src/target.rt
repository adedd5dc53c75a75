use crate::asks::Asks;
use vl_catalog::Column;

/// A column of a table that takes a row: what its vindexes ask, and where among a row's values its own
/// stands.
#[derive(Clone, Copy)]
pub(crate) struct Target<'a> {
    pub column: &'a Column,
    pub asks: Asks,
    pub position: Option<usize>,
}
