ghost use Rattle.std.specs.Prelude.{◌≡◌};
ghost use Rattle.my_auth.specs.Checking.{HasTrueToken, is_accepted, is_foreign, user_named, verdict};
ghost use Rattle.my_auth.specs.declared.verdict.Verdict.TheVariants.{Accept};

use crate::field::Field;
use crate::handshake::NATIVE_PLUGIN;
use crate::native_token::is_token;
use crate::response::Response;
use crate::users::Users;
use crate::verdict::Verdict;

/// Whether the client named another plugin.
fn is_foreign(plugin: &Option<Field>) -> bool
    ensures { result ≡ is_foreign plugin.now }
{
    match plugin {
        Some(plugin) => plugin.as_slice() != NATIVE_PLUGIN,
        None => false,
    }
}

fn is_accepted(users: &Users, name: &[u8], salt: &[u8; 20], token: &[u8]) -> bool
    ensures { result ≡ is_accepted (user_named name.now users.now) salt.now token.now }
{
    let Some(user) = users.find(name) else {
        return false;
    };
    is_token(&user.native, salt, token)
}

/// What becomes of a login with this response to a greeting of this salt. It takes no memory.
pub fn check(users: &Users, salt: [u8; 20], resp: &Response) -> Verdict
    ensures exact { result ≡ verdict users.now salt resp.now }
    // The token of the password is accepted.
    ensures true_token { HasTrueToken users.now salt resp.now → result ≡ Accept }
{
    if is_foreign(&resp.plugin) {
        return Verdict::Switch;
    }
    if is_accepted(users, resp.user.as_slice(), &salt, resp.token.as_slice()) {
        Verdict::Accept
    } else {
        Verdict::Deny
    }
}
