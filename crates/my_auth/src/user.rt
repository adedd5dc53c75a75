use crate::field::Field;
use crate::native_token::DIGEST_LEN;

/// A user who may log in.
#[derive(Drop)]
pub struct User {
    pub name: Field,
    /// SHA1(SHA1(password)), none for the empty password.
    pub native: Option<[u8; DIGEST_LEN]>,
}
