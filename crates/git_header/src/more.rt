/// Where the values of continuation lines are: in lines of a commit or a tag, or one by one.
#[derive(Clone, Copy, Debug)]
pub(crate) enum More<'a> {
    Text(&'a [u8]),
    Values(&'a [&'a [u8]]),
}
