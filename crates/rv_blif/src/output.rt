ghost use Rattle.std.specs.Prelude.{◌≡◌};

use std::marker::Model;

/// An output of a logic network: a name for a signal.
#[derive(Drop)]
pub struct Output {
    name: Vec<u8>,
    signal: u32,
}

impl Model for Output {
    ghost use Rattle.rv_blif.specs.Logic.{Output as TheOutput};

    ghost Value = { TheOutput };

    ghost view = { λ o. record { name = o.name.items; signal = o.signal } };
}

impl Output {
    pub fn new(name: Vec<u8>, signal: u32) -> Output
        ensures { result ≡ record { name = name.items; signal = signal } }
    {
        Output { name, signal }
    }

    pub fn name(&self) -> &[u8]
        ensures { result.now ≡ self.now.name }
    {
        &self.name
    }

    pub fn signal(&self) -> u32
        ensures { result ≡ self.now.signal }
    {
        self.signal
    }
}
