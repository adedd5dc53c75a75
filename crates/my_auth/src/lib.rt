//! Login of the MySQL client/server protocol by `mysql_native_password`.
//!
//! The server greets with a salt (`greeting`), the client answers with a `Response`, and `check` says whether
//! its token shows the password of which the users file has the hash. A response that names another plugin
//! gets `switch_request`, and the client's next payload is the token. The layer above relies on this: the
//! payloads are exactly those of the protocol, a response is read or refused at its first wrong byte, and
//! `check` accepts exactly the tokens of the password.
#![tactic(auto)]

mod bad_handshake;
mod capabilities;
mod checking;
mod fault;
mod field;
mod handshake;
mod native_token;
mod reading;
mod response;
mod response_fields;
mod salting;
#[cfg(test)]
mod tests;
mod user;
mod users;
mod users_fault;
mod users_file;
mod verdict;

pub use crate::bad_handshake::BadHandshake;
pub use crate::capabilities::OFFERED;
pub use crate::checking::check;
pub use crate::field::Field;
pub use crate::handshake::{greeting, switch_request};
pub use crate::native_token::token;
pub use crate::response::Response;
pub use crate::salting::salt_of;
pub use crate::user::User;
pub use crate::users::Users;
pub use crate::users_fault::UsersFault;
pub use crate::users_file::read_users;
pub use crate::verdict::Verdict;
