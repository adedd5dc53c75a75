//! The bytes of a shard's file: its header and its records, as they are written and as they are read.
#![tactic(auto)]

mod allowed;
mod file;
mod file_side;
mod held;
mod key;
mod number;
mod part;
mod picking;
mod read_error;
mod reader;
mod reading;
mod rec;
mod records;
mod side;
mod size;
mod value;
mod writing;

pub use crate::file::is_open;
pub use crate::file_side::FileSide;
pub use crate::held::Held;
pub use crate::picking::{epoch_of, pick};
pub use crate::read_error::ReadError;
pub use crate::reading::read;
pub use crate::rec::Rec;
pub use crate::side::new_side;
pub use crate::size::change_len;

#[cfg(test)]
mod tests;
