ghost use Rattle.std.specs.Prelude.{◌≡◌, ◌≤◌, ◌+◌, bytes_eq, option_map, IfOk, Some};
ghost use Rattle.rv_gate.specs.declared.word.TheConstants.{MOST_LINES};
ghost use Rattle.rv_import.specs.Registers.{qubit_of, register_of};

use std::alloc::{AllocError, Global};
use std::marker::Model;

/// A register of qubits.
#[derive(Drop)]
pub struct Register {
    name: Vec<u8>,
    first: u8,
    size: u8,
}

impl Model for Register {
    ghost use Rattle.std.specs.Prelude.{◌≤◌, ◌+◌};
    ghost use Rattle.rv_gate.specs.declared.word.TheConstants.{MOST_LINES};
    ghost use Rattle.rv_import.specs.Registers.{Register};

    ghost Value = { Register };

    ghost view = { λ r. record { name = r.name.items; first = r.first; size = r.size } };

    ghost invariant = { λ r. r.first + r.size ≤ MOST_LINES };
}

impl Register {
    /// One of a name with so many qubits, the first of this number.
    pub fn new(alloc: Global, name: &[u8], first: u8, size: u8) -> Result<Register, AllocError>
        requires { first + size ≤ MOST_LINES }
        ensures { IfOk result (λ r. r ≡ record { name = name.now; first = first; size = size }) }
    {
        Ok(Register {
            name: name.to_vec(alloc)?,
            first,
            size,
        })
    }

    fn has_name(&self, name: &[u8]) -> bool
        ensures { result ≡ bytes_eq name.now self.now.name }
    {
        name == self.name.as_slice()
    }

    fn qubit(&self, place: u32) -> Option<u8>
        ensures { result ≡ qubit_of (Some self.now) place }
    {
        if place < u32::from(self.size) {
            Some(self.first + place as u8)
        } else {
            None
        }
    }
}

/// The register of a name.
#[tactic(auto, using(crate::proofs::Found::find_skip, crate::proofs::Found::find_hit, crate::proofs::Found::find_end))]
pub fn register_of<'a>(registers: &'a [Register], name: &[u8]) -> Option<&'a Register>
    ensures { option_map (λ r. r.now) result ≡ register_of name.now registers.now }
{
    for register in registers {
        if register.has_name(name) {
            return Some(register);
        }
    }
    None
}

/// The number of a register's qubit.
pub fn qubit_of(registers: &[Register], name: &[u8], place: u32) -> Option<u8>
    ensures { result ≡ qubit_of (register_of name.now registers.now) place }
{
    match register_of(registers, name) {
        Some(register) => register.qubit(place),
        None => None,
    }
}
