/// A name in a `.outputs`: its line, and the number of the name.
#[derive(Clone, Copy)]
pub struct Port {
    pub(crate) line: u32,
    pub(crate) name: usize,
}
