/// What the words of the command line ask for.
#[derive(Clone, Copy, Debug)]
pub enum Wanted<'a> {
    /// A script is read from the source.
    Script,
    /// The catalog whose catalog file has this name is checked.
    Check { catalog: &'a str },
}
