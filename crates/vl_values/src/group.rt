ghost use Rattle.std.specs.Prelude.{◌≡◌};
ghost use Rattle.vl_values.specs.Group.{group_name};

/// The group of a shard session. At a commit the pre sessions go first, then main, then post: entries
/// of lookup tables are inserted in pre and removed in post.
#[derive(Clone, Copy, Debug, PartialEq, Eq)]
pub enum Group {
    Pre,
    Main,
    Post,
}

impl Group {
    /// `pre`, `main` or `post`.
    pub fn name(self) -> &'static [u8]
        ensures { result.now ≡ group_name self }
    {
        match self {
            Group::Pre => b"pre",
            Group::Main => b"main",
            Group::Post => b"post",
        }
    }
}
