//! What the gateway is: the words in which its promises are made.
//!
//! The crate holds definitions, and the one type that they need. `Tables` are the rows of each shard; `Placed`, `Covered` and
//! `Unique` say when they are sound: each row on its shard, each indexed value with an entry that names
//! the row's keyspace id, no unique value on two rows. `Taken` says which statements of SQL the core
//! takes, and `Steps` is ONE table with its unique keys, the machine that a client believes to speak to.
//! `ScriptLine` and `ReplyLine` are the bytes of scripts and replies. `Columns` says which value a column
//! takes in a statement, `Refusals` for what a statement is refused and in which order, `Routes` by which
//! tests it goes, and `Visiting` to which shards. Nothing here says how the gateway does it.
#![tactic(auto)]

pub mod route;
