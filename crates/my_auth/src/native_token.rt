ghost use Rattle.std.specs.Prelude.{◌≡◌, IfOk};
ghost use Rattle.sha1.specs.Sha1.{sha1};
ghost use Rattle.my_auth.specs.Token.{is_token, mask, native_token, stored_hash, xor_bytes};

use sha1::Sha1;
use std::alloc::{AllocError, Global};

/// How many bytes a digest of SHA-1 has, and with it a token.
pub(crate) const DIGEST_LEN: usize = 20;

fn xor(mut bytes: [u8; DIGEST_LEN], other: &[u8; DIGEST_LEN]) -> [u8; DIGEST_LEN]
    ensures { result ≡ xor_bytes bytes other.now }
{
    for i in 0..DIGEST_LEN {
        bytes[i] ^= other[i];
    }
    bytes
}

/// What a token is hidden by.
#[tactic(auto, unfolding(crate::specs::Token::mask))]
fn mask(salt: &[u8; 20], stored: &[u8; DIGEST_LEN]) -> [u8; DIGEST_LEN]
    ensures { result ≡ mask salt.now stored.now }
{
    let mut hasher = Sha1::new();
    hasher.update(salt);
    hasher.update(stored);
    hasher.finalize()
}

/// The token of a password for a salt: SHA1(password) XOR SHA1(salt, SHA1(SHA1(password))). A client sends
/// the empty token for the empty password.
#[tactic(auto, unfolding(crate::specs::Token::stored_hash))]
pub fn token(alloc: Global, password: &[u8], salt: [u8; 20]) -> Result<Vec<u8>, AllocError>
    ensures { IfOk result (λ token. token.items ≡ native_token password.now salt) }
{
    let once = Sha1::digest(password);
    let stored = Sha1::digest(&once);
    let token = xor(once, &mask(&salt, &stored));
    Vec::from_slice(alloc, &token)
}

/// Whether the token is one of the password of which this is stored, none for the empty password.
pub(crate) fn is_token(stored: &Option<[u8; DIGEST_LEN]>, salt: &[u8; 20], token: &[u8]) -> bool
    ensures { result ≡ is_token stored.now salt.now token.now }
{
    let Some(stored) = stored else {
        return token.is_empty();
    };
    let Ok(token) = <[u8; DIGEST_LEN]>::try_from(token) else {
        return false;
    };
    let once = xor(token, &mask(salt, stored));
    Sha1::digest(&once) == *stored
}
