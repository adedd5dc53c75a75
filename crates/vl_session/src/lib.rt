//! What a client session has in hand between two asks, and what an ask came to.
#![tactic(auto)]

pub mod purpose;
pub mod turn;
pub mod work;
