//! A client's connection: packets are read from a source, their statements are asked at a gate, and the
//! replies are written into a sink.
//!
//! A `Gate` stands before the core, whether one session uses it or many. `serve_conn` serves one
//! connection of the MySQL client/server protocol over any gate, source and sink. The layer above relies
//! on this: the session joins once, asks each statement that was read once and in order, and leaves once,
//! and the bytes written are the replies to the packets, however the input was cut into pieces.
#![tactic(auto)]

mod answer;
mod connection;
mod end;
mod gate;
mod own_gate;
mod request;

pub use connection::serve_conn;
pub use end::ConnEnd;
pub use gate::Gate;
pub use own_gate::OwnGate;

#[cfg(test)]
mod tests;
