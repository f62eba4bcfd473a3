/// Where an operand is read: on a line, where a 1 stands for it if `on` is true and else a 0, or nowhere, since it is
/// constant.
#[derive(Clone, Copy, Debug, PartialEq, Eq)]
pub(crate) enum Place {
    Line { line: u8, on: bool },
    Constant(bool),
}
