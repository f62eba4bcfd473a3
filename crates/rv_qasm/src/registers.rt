ghost use Rattle.std.specs.Prelude.{◌≡◌, ◌<◌, ◌≤◌, ◌+◌, ◌++◌, ◌∷◌, [], All, IfOk, IfSome, ℕ, bytes_eq, length, true};
ghost use Rattle.std.specs.Prelude.{map, slice_get, option_map, None, Some, OnOk, OnErr};
ghost use Rattle.rv_qasm.specs.Registers.{all_qubits_of, classical_bits, qubits_of, register_at, declared_size};
ghost use Rattle.rv_qasm.specs.Registers.{size_of_all};
ghost use Rattle.rv_gate.specs.declared.word.TheConstants.{MOST_LINES};
ghost use Rattle.rv_reader.specs.Gives.{StepGives};
ghost use Rattle.rv_reader.specs.inside.Answered.{GivesValue};
ghost use Rattle.rv_qasm.specs.inside.Views.{IsPart, named, named_qubits};
ghost use Rattle.std.specs.Map.{lookup};
ghost use Rattle.std.specs.Global.{Vec};

use crate::code::{INDEX_OUT_OF_RANGE, UNKNOWN_REGISTER};
use crate::numbers::place_of;
use crate::operands::RegisterOperand;
use crate::tokens::same_bytes;
use indexmap::IndexMap;
use rv_reader::Stop;
use smallvec::SmallVec;
use std::alloc::{AllocError, Global};
use std::marker::Model;

/// A register that is declared.
#[derive(Drop)]
pub(crate) struct Register {
    pub(crate) name: Vec<u8>,
    pub(crate) size: u32,
}

impl Model for Register {
    ghost Value = { Rattle.rv_qasm.specs.Registers.Register };

    ghost view = { λ r. record { name = r.name.items; size = r.size } };
}

/// The greatest number of places that is counted: beyond it, the count stands still.
const MOST_PLACES: u32 = u32::MAX;

/// Where a register lies: how many places there are in those before it, up to [`MOST_PLACES`], and its size.
#[derive(Clone, Copy)]
pub(crate) struct Extent {
    pub(crate) before: u32,
    pub(crate) size: u32,
}

/// Qubits that an operand names: those of a whole register, or one of them.
#[derive(Clone, Copy, Default)]
pub(crate) struct QubitRange {
    pub(crate) first: u8,
    pub(crate) count: u8,
    pub(crate) is_whole: bool,
}

/// The registers of a kind, in the order of their declaration. They are found by their names.
#[derive(Drop)]
pub(crate) struct Registers {
    extents: IndexMap<Vec<u8>, Extent>,
    // How many places there are, up to `MOST_PLACES`.
    total: u32,
}

impl Model for Registers {
    ghost use Rattle.std.specs.Prelude.{List};
    ghost use Rattle.rv_qasm.specs.Registers.{Register};
    ghost use Rattle.rv_qasm.specs.inside.Views.{registers_of, Follow};

    ghost Value = { List Register };

    ghost view = { λ r. registers_of r.extents.entries };

    ghost invariant = { λ r. Follow 0 r.extents.entries r.total };
}

// Where the register of this name lies. The first one is found without a hash.
fn extent_of(extents: &IndexMap<Vec<u8>, Extent>, name: &[u8]) -> Option<Extent>
    ensures { result ≡ lookup (λ (key : Vec ℕ). bytes_eq name.now key.items) extents.now.entries }
{
    if let Some((first, extent)) = extents.get_index(0) {
        if same_bytes(name, first) {
            return Some(*extent);
        }
    }
    match extents.get(name) {
        Some(extent) => Some(*extent),
        None => None,
    }
}

impl Registers {
    // No registers. Takes no memory.
    pub(crate) fn new(alloc: Global) -> Registers
        ensures { result ≡ [] }
    {
        Registers {
            extents: IndexMap::new(alloc),
            total: 0,
        }
    }

    pub(crate) fn len(&self) -> usize
        ensures { result ≡ length self.now }
    {
        self.extents.len()
    }

    // The size of the register of this name.
    pub(crate) fn declared_size(&self, name: &[u8]) -> Option<u32>
        ensures { result ≡ declared_size name.now self.now }
    {
        match extent_of(&self.extents, name) {
            Some(extent) => Some(extent.size),
            None => None,
        }
    }

    pub(crate) fn name(&self, index: usize) -> &[u8]
        requires { index < length self.now }
        ensures { option_map (λ r. r.name) (slice_get self.now index) ≡ Some result.now }
    {
        match self.extents.get_index(index) {
            Some((name, _)) => name,
            None => &[],
        }
    }

    pub(crate) fn size(&self, index: usize) -> u32
        requires { index < length self.now }
        ensures { option_map (λ r. r.size) (slice_get self.now index) ≡ Some result }
    {
        match self.extents.get_index(index) {
            Some((_, extent)) => extent.size,
            None => 0,
        }
    }

    // Whether there is one register, of this name.
    pub(crate) fn is_only(&self, name: &[u8]) -> bool
        ensures { result ≡ true → self.now ≡ record { name = name.now; size = size_of_all self.now } ∷ [] }
    {
        if self.len() != 1 {
            return false;
        }
        self.name(0) == name
    }

    // Adds a register of a new name.
    pub(crate) fn push(&mut self, register: Register) -> Result<(), AllocError>
        requires { declared_size register.name self.old ≡ None }
        ensures ok { OnOk result (self.new ≡ self.old ++ register ∷ []) }
        ensures err { OnErr result (self.new ≡ self.old) }
    {
        let extent = Extent {
            before: self.total,
            size: register.size,
        };
        match self.extents.insert(register.name, extent) {
            Ok(_) => {
                self.total = self.total.saturating_add(extent.size);
                Ok(())
            }
            Err(_) => Err(AllocError),
        }
    }

    // The qubits of the register of this name.
    pub(crate) fn register_at(&self, name: &[u8]) -> Option<QubitRange>
        requires { size_of_all self.now ≤ MOST_LINES }
        ensures exact { option_map named_qubits result ≡ register_at 0 name.now self.now }
        ensures part { IfSome result (IsPart (size_of_all self.now)) }
    {
        match extent_of(&self.extents, name) {
            Some(extent) => Some(QubitRange {
                first: extent.before as u8,
                count: extent.size as u8,
                is_whole: true,
            }),
            None => None,
        }
    }

    // The qubits that an operand names.
    pub(crate) fn qubits_of(&self, operand: RegisterOperand) -> Result<QubitRange, Stop>
        requires { size_of_all self.now ≤ MOST_LINES }
        ensures gives { GivesValue named_qubits result (qubits_of self.now (named operand.entry)) }
        ensures part { IfOk result (IsPart (size_of_all self.now)) }
    {
        let Some(register) = self.register_at(operand.name) else {
            return Err(Stop::Fault(UNKNOWN_REGISTER));
        };
        let Some(digits) = operand.place else {
            return Ok(register);
        };
        let Some(place) = place_of(digits, u32::from(register.count)) else {
            return Err(Stop::Fault(INDEX_OUT_OF_RANGE));
        };
        Ok(QubitRange {
            first: register.first + place as u8,
            count: 1,
            is_whole: false,
        })
    }

    // What operands name, or the first fault.
    pub(crate) fn all_qubits_of(
        &self,
        alloc: Global,
        operands: &[RegisterOperand],
    ) -> Result<SmallVec<QubitRange, 3>, Stop>
        requires { size_of_all self.now ≤ MOST_LINES }
        ensures gives { GivesValue (λ ranges. map named_qubits ranges.items) result
            (all_qubits_of self.now (map named operands.now)) }
        ensures part { IfOk result (λ ranges. All (IsPart (size_of_all self.now)) ranges.items) }
        ensures len { IfOk result (λ ranges. length ranges.items ≡ length operands.now) }
    {
        let mut ranges = SmallVec::new(alloc);
        self.push_all_qubits_of(&mut ranges, operands)?;
        Ok(ranges)
    }

    fn push_all_qubits_of(
        &self,
        ranges: &mut SmallVec<QubitRange, 3>,
        operands: &[RegisterOperand],
    ) -> Result<(), Stop>
        requires most { size_of_all self.now ≤ MOST_LINES }
        requires empty { ranges.old.items ≡ [] }
        ensures gives { StepGives result (map named_qubits ranges.new.items)
            (all_qubits_of self.now (map named operands.now)) }
        ensures part { OnOk result (All (IsPart (size_of_all self.now)) ranges.new.items) }
        ensures len { OnOk result (length ranges.new.items ≡ length operands.now) }
    {
        for operand in operands {
            let range = self.qubits_of(*operand)?;
            ranges.push(range)?;
        }
        Ok(())
    }

    // How many classical bits an operand names.
    pub(crate) fn classical_bits(&self, operand: RegisterOperand) -> Result<u32, Stop>
        ensures { GivesValue (λ r. r) result (classical_bits self.now (named operand.entry)) }
    {
        let Some(size) = self.declared_size(operand.name) else {
            return Err(Stop::Fault(UNKNOWN_REGISTER));
        };
        let Some(digits) = operand.place else {
            return Ok(size);
        };
        let Some(_) = place_of(digits, size) else {
            return Err(Stop::Fault(INDEX_OUT_OF_RANGE));
        };
        Ok(1)
    }
}
