/// What becomes of a login.
#[derive(Clone, Copy, Debug, PartialEq, Eq)]
pub enum Verdict {
    /// The token is right.
    Accept,
    /// The client named another plugin, and is to be asked for a token of `mysql_native_password`.
    Switch,
    /// The user is unknown, or the token is wrong.
    Deny,
}
