ghost use Rattle.std.specs.Prelude.{◌≡◌, length};
ghost use Rattle.std.specs.Option.{option_copied};
ghost use Rattle.my_auth.specs.Checking.{user_named};

use crate::user::User;
use std::marker::Model;

/// The users who may log in. Contracts see them as a list, in the order of the users file. Of two users with
/// one name the first counts.
#[derive(Drop)]
pub struct Users {
    users: Vec<User>,
}

impl Model for Users {
    ghost use Rattle.std.specs.Prelude.{List};
    ghost use Rattle.my_auth.specs.declared.user.User.{User};

    ghost Value = { List User };

    ghost view = { λ u. u.users.items };
}

impl Users {
    /// Takes the vector over, with no copy.
    pub fn from_vec(users: Vec<User>) -> Users
        ensures { result ≡ users.items }
    {
        Users { users }
    }

    /// The users, in the order of the file.
    pub fn as_slice(&self) -> &[User]
        ensures { result.now ≡ self.now }
    {
        self.users.as_slice()
    }

    /// The first user of this name.
    pub fn find(&self, name: &[u8]) -> Option<&User>
        ensures { option_copied result ≡ user_named name.now self.now }
    {
        self.users.iter().find(|user| user.name.as_slice() == name)
    }
}
