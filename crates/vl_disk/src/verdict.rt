/// How a device call goes.
#[derive(Clone, Copy, Debug)]
pub(crate) enum Verdict {
    Passes,
    Fails,
    Crashes,
}
