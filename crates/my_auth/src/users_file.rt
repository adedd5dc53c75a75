ghost use Rattle.std.specs.Prelude.{◌≡◌, ◌+◌, IfOk, IfErr, map, Some};
ghost use Rattle.std.specs.Option.{option_map};
ghost use Rattle.serde_json.specs.View.{view};
ghost use Rattle.my_auth.specs.UsersFile.{AreUsers, AreUsersOf, IsJson, IsRefusal, IsUnread, IsWrongOf, entries_of, hash_of, text_named, user_of};

use crate::field::Field;
use crate::native_token::DIGEST_LEN;
use crate::user::User;
use crate::users::Users;
use crate::users_fault::UsersFault;
use serde_json::Value;
use std::alloc::{AllocError, Global};

/// The text of this name, where the value is an object that has it.
fn text_named<'v>(value: &'v Value, name: &str) -> Option<&'v str>
    ensures { option_map (λ text. text.now) result ≡ text_named name.now (view value.now) }
{
    value.get(name).and_then(Value::as_str)
}

/// What is stored of a password, or none where the text isn't that.
fn hash_of(text: &str) -> Option<Option<[u8; DIGEST_LEN]>>
    ensures { result ≡ hash_of text.now }
{
    if text.is_empty() {
        return Some(None);
    }
    let mut digest = [0; DIGEST_LEN];
    match hex::decode_to_slice(text, &mut digest) {
        Ok(()) => Some(Some(digest)),
        Err(_) => None,
    }
}

/// The user that an entry says, if it says one.
fn user_of(alloc: Global, entry: &Value) -> Result<Option<User>, AllocError>
    ensures { IfOk result (λ user. user ≡ user_of (view entry.now)) }
{
    let Some(name) = text_named(entry, "name") else {
        return Ok(None);
    };
    let Some(digits) = text_named(entry, "native") else {
        return Ok(None);
    };
    let Some(native) = hash_of(digits) else {
        return Ok(None);
    };
    let name = Field::from_slice(alloc, name.as_bytes())?;
    Ok(Some(User { name, native }))
}

/// The users of the entries.
fn users_of(alloc: Global, entries: &[Value]) -> Result<Vec<User>, UsersFault>
    ensures ok { IfOk result (λ users. AreUsers (map view entries.now) users.items) }
    ensures err { IfErr result (IsWrongOf (map view entries.now)) }
{
    let Ok(mut users) = Vec::with_capacity(alloc, entries.len()) else {
        return Err(UsersFault::Memory);
    };
    for (i, entry) in entries.iter().enumerate() {
        let Ok(found) = user_of(alloc, entry) else {
            return Err(UsersFault::Memory);
        };
        let Some(user) = found else {
            return Err(UsersFault::Refused { user: i + 1 });
        };
        let Ok(()) = users.push(user) else {
            return Err(UsersFault::Memory);
        };
    }
    Ok(users)
}

/// The value that a file says.
fn parsed(alloc: Global, bytes: &[u8]) -> Result<Value, UsersFault>
    ensures ok { IfOk result (λ value. IsJson bytes.now (view value)) }
    ensures err { IfErr result (IsUnread bytes.now) }
{
    match Value::from_slice(alloc, bytes) {
        Ok(value) => Ok(value),
        Err(error) => {
            if error.is_memory() {
                return Err(UsersFault::Memory);
            }
            Err(UsersFault::Refused { user: 0 })
        }
    }
}

/// The entries of a file's list of users.
fn entries_of(file: &Value) -> Option<&[Value]>
    ensures { option_map (λ entries. map view entries.now) result ≡ entries_of (view file.now) }
{
    match file.get("users") {
        Some(users) => match users.as_array() {
            Some(entries) => Some(entries.as_slice()),
            None => None,
        },
        None => None,
    }
}

/// Reads a users file, `{"users":[{"name":N,"native":HEX},..]}`, where HEX is SHA1(SHA1(password)) in 40
/// digits, or the empty text for the empty password.
pub fn read_users(alloc: Global, bytes: &[u8]) -> Result<Users, UsersFault>
    ensures ok { IfOk result (AreUsersOf bytes.now) }
    ensures err { IfErr result (IsRefusal bytes.now) }
{
    let file = match parsed(alloc, bytes) {
        Ok(file) => file,
        Err(fault) => return Err(fault),
    };
    let Some(entries) = entries_of(&file) else {
        return Err(UsersFault::Refused { user: 0 });
    };
    match users_of(alloc, entries) {
        Ok(users) => Ok(Users::from_vec(users)),
        Err(fault) => Err(fault),
    }
}
