/// The answer to a text that is no line of the script language.
#[derive(Clone, Copy, Debug, PartialEq, Eq)]
pub struct BadLine;
