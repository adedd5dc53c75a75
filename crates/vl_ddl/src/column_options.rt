use crate::default_value::DefaultValue;

/// What stands behind a column's type.
#[derive(Clone, Copy, Debug)]
pub struct ColumnOptions {
    /// NULL or NOT NULL, if either stands there.
    pub nullable: Option<bool>,
    pub default: Option<DefaultValue>,
    pub auto_increment: bool,
    pub primary: bool,
    pub charset: bool,
    pub collation: bool,
    /// UNIQUE, which stands there in the wider language alone.
    pub unique: bool,
}
