ghost use Rattle.std.specs.Prelude.{◌≡◌};
ghost use Rattle.rv_mct.specs.Blocks.{positive};

/// A control: a line, and the value that is wanted of it.
#[derive(Clone, Copy, Default)]
pub struct Control {
    pub line: u8,
    pub wanted: bool,
}

/// The control that wants 1.
pub(crate) fn positive(line: u8) -> Control
    ensures { result ≡ positive line }
{
    Control { line, wanted: true }
}
