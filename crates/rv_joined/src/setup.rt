use rv_mct::Aux;

/// The lines of a circuit, and those that were added.
#[derive(Clone, Copy)]
pub(crate) struct Setup {
    pub(crate) aux: Aux,
    pub(crate) lines: u8,
    pub(crate) extra: u8,
}
