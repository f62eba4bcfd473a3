// `measure`, and operands that are looked at and dropped.
ghost use Rattle.std.specs.Prelude.{◌≡◌, ℕ, [], ◌≤◌, ◌<◌, ◌+◌, IfOk, OnOk, Result, drop, length, map, option_map};
ghost use Rattle.std.specs.List.{fold, range_with_len};
ghost use Rattle.rv_gate.specs.declared.word.TheConstants.{MOST_LINES};
ghost use Rattle.rv_reader.specs.Gives.{StepGives};
ghost use Rattle.rv_qasm.specs.Registers.{register_operand};
ghost use Rattle.rv_qasm.specs.Rules.{barrier_read, gate_operands, id_read, looked_at, measure_read, measured_read};
ghost use Rattle.rv_qasm.specs.Rules.{qubit_count, SoFar, with_measured, with_qubit};
ghost use Rattle.rv_reader.specs.inside.Answered.{GivesValue};
ghost use Rattle.rv_qasm.specs.inside.Parts.{both_read, looked_on};
ghost use Rattle.rv_qasm.specs.inside.Views.{named, named_qubits};

use crate::code::{REGISTER_SIZES_DIFFER, WRONG_OPERAND_COUNT, WRONG_SYNTAX};
use crate::operands::{
    RegisterOperand, RegisterOperands, after_comma, first_of, first_place, next_part,
    register_operand,
};
use crate::registers::QubitRange;
use crate::state::State;
use crate::tokens::Tokens;
use rv_gate::LineSet;
use rv_reader::Stop;
use smallvec::SmallVec;
use std::alloc::Global;

// The operands of a gate with so many.
pub(crate) fn gate_operands<'a>(
    alloc: Global,
    size: usize,
    tokens: &'a Tokens,
) -> Result<RegisterOperands<'a>, Stop>
    requires { 0 < length tokens.now }
    ensures gives { GivesValue (λ operands. map named operands.items) result (gate_operands size (drop 1 tokens.now)) }
    ensures len { IfOk result (λ operands. length operands.items ≡ size) }
{
    let mut operands = SmallVec::new(alloc);
    push_operands(&mut operands, size, tokens)?;
    Ok(operands)
}

fn push_operands<'a>(
    operands: &mut RegisterOperands<'a>,
    size: usize,
    tokens: &'a Tokens,
) -> Result<(), Stop>
    requires some { 0 < length tokens.now }
    requires empty { operands.old.items ≡ [] }
    ensures gives { StepGives result (map named operands.new.items) (gate_operands size (drop 1 tokens.now)) }
    ensures len { OnOk result (length operands.new.items ≡ size) }
{
    let mut is_more = false;
    let mut next = first_place(tokens);
    while let Some(at) = next {
        let part = next_part(tokens, at);
        let Some(operand) = part.operand else {
            return Err(Stop::Fault(WRONG_SYNTAX));
        };
        if operands.len() < size {
            operands.push(operand)?;
        } else {
            is_more = true;
        }
        next = after_comma(tokens, part.end);
    }
    if is_more || operands.len() != size {
        return Err(Stop::Fault(WRONG_OPERAND_COUNT));
    }
    Ok(())
}

// The operand that all tokens after a place are.
fn operand_after<'a>(tokens: &'a Tokens, at: usize) -> Option<RegisterOperand<'a>>
    requires { at ≤ length tokens.now }
    ensures { option_map named result ≡ register_operand (drop (at + 1) tokens.now) }
{
    if at == tokens.len() {
        return None;
    }
    register_operand(tokens, at + 1, tokens.len())
}

// A set of qubits with these ones.
fn with_qubits(set: LineSet, first: u8, count: u8) -> LineSet
    requires { first + count ≤ MOST_LINES }
    ensures { result ≡ fold with_qubit set (range_with_len first count) }
{
    let mut set = set;
    for i in 0..count {
        set |= 1 << (first + i);
    }
    set
}

impl State {
    fn looked_at(&self, operands: &[RegisterOperand]) -> Result<(), Stop>
        ensures { StepGives result self.now (looked_at self.now (map named operands.now)) }
    {
        for operand in operands {
            self.quantum.qubits_of(*operand)?;
        }
        Ok(())
    }

    // The fault that was found before, or else that of this operand.
    fn looked_on(&self, found: Result<(), Stop>, operand: RegisterOperand) -> Result<(), Stop>
        ensures { (seen : Result SoFar ℕ) → StepGives found self.now seen
            → StepGives result self.now (looked_on self.now seen (named operand.entry)) }
    {
        found?;
        self.looked_at(&[operand])
    }

    pub(crate) fn barrier_read(&self, tokens: &Tokens) -> Result<(), Stop>
        requires { 0 < length tokens.now }
        ensures { StepGives result self.now (barrier_read self.now (drop 1 tokens.now)) }
    {
        if tokens.len() == 1 {
            return Err(Stop::Fault(WRONG_SYNTAX));
        }
        let mut found = Ok(());
        let mut next = Some(1);
        while let Some(at) = next {
            let part = next_part(tokens, at);
            let Some(operand) = part.operand else {
                return Err(Stop::Fault(WRONG_SYNTAX));
            };
            found = self.looked_on(found, operand);
            next = after_comma(tokens, part.end);
        }
        found
    }

    pub(crate) fn id_read(&self, tokens: &Tokens) -> Result<(), Stop>
        requires { 0 < length tokens.now }
        ensures { StepGives result self.now (id_read self.now (drop 1 tokens.now)) }
    {
        match gate_operands(self.alloc, 1, tokens) {
            Ok(operands) => self.looked_at(operands.as_slice()),
            Err(stop) => Err(stop),
        }
    }

    pub(crate) fn measure_read(&mut self, tokens: &Tokens) -> Result<(), Stop>
        requires { 0 < length tokens.now }
        ensures { StepGives result self.new (measure_read self.old (drop 1 tokens.now)) }
    {
        let arrow = first_of(tokens, 1, b"->");
        self.both_read(
            register_operand(tokens, 1, arrow),
            operand_after(tokens, arrow),
        )
    }

    // What stands before the arrow and after it.
    fn both_read(
        &mut self,
        from: Option<RegisterOperand>,
        to: Option<RegisterOperand>,
    ) -> Result<(), Stop>
        ensures { StepGives result self.new
            (both_read self.old (option_map named from.entry) (option_map named to.entry)) }
    {
        match from {
            Some(from) => match to {
                Some(to) => self.measured_read(from, to),
                None => Err(Stop::Fault(WRONG_SYNTAX)),
            },
            None => Err(Stop::Fault(WRONG_SYNTAX)),
        }
    }

    fn measured_read(&mut self, from: RegisterOperand, to: RegisterOperand) -> Result<(), Stop>
        ensures { StepGives result self.new (measured_read self.old (named from.entry) (named to.entry)) }
    {
        let qubits = self.quantum.qubits_of(from)?;
        let bits = self.classical.classical_bits(to)?;
        if u32::from(qubits.count) != bits {
            return Err(Stop::Fault(REGISTER_SIZES_DIFFER));
        }
        self.add_measured(qubits);
        Ok(())
    }

    fn add_measured(&mut self, range: QubitRange)
        requires { range.first + range.count ≤ qubit_count self.old }
        ensures { self.new ≡ with_measured self.old (named_qubits range) }
    {
        self.measured = with_qubits(self.measured, range.first, range.count);
        self.measurements = self.measurements.saturating_add(u32::from(range.count));
    }
}
