// Gates on qubits and on whole registers.
ghost use Rattle.std.specs.Prelude.{◌≡◌, ◌∷◌, [], ◌≤◌, ◌<◌, ◌+◌, ◌++◌, All, IfOk, Ok, OnOk, drop, false, length, map};
ghost use Rattle.std.specs.Prelude.{true};
ghost use Rattle.std.specs.List.{list_any};
ghost use Rattle.rv_qasm.specs.Gates.{op_on};
ghost use Rattle.rv_gate.specs.declared.word.TheConstants.{MOST_LINES};
ghost use Rattle.rv_net.specs.Op.{OpFitsIn};
ghost use Rattle.rv_reader.specs.Gives.{StepGives};
ghost use Rattle.rv_qasm.specs.Rules.{gate_read, has_twice, each_read, is_measured, op_read, qubit_count, qubit_at};
ghost use Rattle.rv_qasm.specs.Rules.{qubits_at, repeats, sizes_agree, with_ops};
ghost use Rattle.rv_qasm.specs.inside.Parts.{gate_of_size, gate_on_operands, gate_on_ranges};
ghost use Rattle.rv_qasm.specs.inside.Views.{IsPart, written_qubits, named, named_qubits};
ghost use Rattle.rv_qasm.specs.inside.Written.{AreApart, IsReadyForGate, MayReadLine, gate_qubits};

use crate::code::{
    GATE_AFTER_MEASUREMENT, REGISTER_SIZES_DIFFER, REPEATED_OPERAND, TOO_MANY_OPS, UNKNOWN_GATE,
};
use crate::gates::{gate_size, op_on_one, op_on_three, op_on_two};
use crate::measure::gate_operands;
use crate::operands::RegisterOperand;
use crate::registers::QubitRange;
use crate::state::State;
use crate::tokens::Tokens;
use crate::written::{GateQubits, Written, written_line};
use arrayvec::ArrayVec;
use rv_gate::has;
use rv_net::{MOST_OPS, Op};
use rv_reader::Stop;

fn has_same(a: u8, b: u8, c: u8) -> bool
    ensures { result ≡ has_twice (a ∷ b ∷ c ∷ []) }
{
    b == a || c == a || c == b
}

fn has_twice(qubits: &[u8]) -> bool
    requires { length qubits.now ≤ 3 }
    ensures { result ≡ has_twice qubits.now }
{
    match qubits {
        [a, b] => *b == *a,
        [a, b, c] => has_same(*a, *b, *c),
        _ => false,
    }
}

// The size of the first whole register, or 1 if each operand is one qubit.
fn repeats(operands: &[QubitRange]) -> u8
    ensures { result ≡ repeats (map named_qubits operands.now) }
{
    for range in operands {
        if range.is_whole {
            return range.count;
        }
    }
    1
}

fn sizes_agree(operands: &[QubitRange]) -> bool
    ensures { result ≡ sizes_agree (map named_qubits operands.now) }
{
    let count = repeats(operands);
    for range in operands {
        if range.is_whole && range.count != count {
            return false;
        }
    }
    true
}

// The j-th qubit of a whole register, or a single qubit again.
fn qubit_at(count: u8, range: QubitRange, j: u8) -> u8
    requires part { IsPart count range }
    requires j { range.is_whole ≡ true → j < range.count }
    ensures exact { result ≡ qubit_at j (named_qubits range) }
    ensures within { result < count }
{
    if range.is_whole {
        range.first + j
    } else {
        range.first
    }
}

// Among so many qubits.
fn qubits_at(count: u8, operands: &[QubitRange], j: u8) -> ArrayVec<u8, 3>
    requires few { length operands.now ≤ 3 }
    requires part { All (IsPart count) operands.now }
    requires repeats { j < repeats (map named_qubits operands.now) }
    requires agree { sizes_agree (map named_qubits operands.now) ≡ true }
    ensures exact { result.items ≡ qubits_at (map named_qubits operands.now) j }
    ensures within { All (λ q. q < count) result.items }
    ensures len { length result.items ≡ length operands.now }
{
    let mut all = ArrayVec::new();
    for range in operands {
        all.push(qubit_at(count, *range, j));
    }
    all
}

// Whether qubits are among so many, and differ.
fn are_apart(count: u8, qubits: GateQubits) -> bool
    ensures { result ≡ true → AreApart count (gate_qubits qubits) }
{
    match qubits {
        GateQubits::One(a) => a < count,
        GateQubits::Two(a, b) => a < count && b < count && a != b,
        GateQubits::Three(a, b, c) => {
            a < count && b < count && c < count && a != b && a != c && b != c
        }
    }
}

impl State {
    fn is_any_measured(&self, qubits: &[u8]) -> bool
        requires { All (λ q. q < qubit_count self.now) qubits.now }
        ensures { result ≡ list_any (is_measured self.now) qubits.now }
    {
        for qubit in qubits {
            if has(self.measured, *qubit) {
                return true;
            }
        }
        false
    }

    fn push(&mut self, op: Op) -> Result<(), Stop>
        requires { OpFitsIn op (qubit_count self.old) }
        ensures { StepGives result self.new (with_ops self.old (op ∷ [])) }
    {
        if self.net.ops().len() >= MOST_OPS {
            return Err(Stop::Fault(TOO_MANY_OPS));
        }
        match self.net.push(op) {
            Ok(()) => Ok(()),
            Err(_) => Err(Stop::Mem),
        }
    }

    // An operation on qubits that differ.
    fn op_push(&mut self, name: &[u8], qubits: &[u8]) -> Result<(), Stop>
        requires some { 1 ≤ length qubits.now }
        requires few { length qubits.now ≤ 3 }
        requires within { All (λ q. q < qubit_count self.old) qubits.now }
        requires apart { has_twice qubits.now ≡ false }
        ensures { StepGives result self.new (with_ops self.old (op_on name.now qubits.now)) }
    {
        match qubits {
            [a] => self.push(op_on_one(name, *a)),
            [a, b] => self.push(op_on_two(name, *a, *b)),
            [a, b, c] => self.push(op_on_three(name, *a, *b, *c)),
            _ => Ok(()),
        }
    }

    // Whether a gate on qubits of a register `q` adds its operation if the qubits are there and differ.
    fn is_ready_for_gate(&self) -> bool
        ensures ready { result ≡ true → IsReadyForGate self.now (qubit_count self.now) }
        ensures few { result ≡ true → qubit_count self.now ≤ MOST_LINES }
    {
        self.has_version
            && self.measured == 0
            && self.net.ops().len() < MOST_OPS
            && self.quantum.is_only(b"q")
    }

    fn written_push(&mut self, written: Written) -> Result<usize, Stop>
        requires { 0 < written.len }
        ensures old { IfOk result (λ n. n ≡ 0 → self.new ≡ self.old) }
        ensures gives { IfOk result (λ n. 0 < n → (n ≡ written.entry.len)
            × AreApart (qubit_count self.old) (written_qubits written.entry)
            × (with_ops self.old (op_on written.entry.name.now (written_qubits written.entry)) ≡ Ok self.new)) }
    {
        if !are_apart(self.count, written.qubits) {
            return Ok(0);
        }
        match self.written_op_push(written) {
            Ok(()) => Ok(written.len),
            Err(stop) => Err(stop),
        }
    }

    fn written_op_push(&mut self, written: Written) -> Result<(), Stop>
        requires { AreApart (qubit_count self.old) (written_qubits written) }
        ensures { StepGives result self.new
            (with_ops self.old (op_on written.entry.name.now (written_qubits written.entry))) }
    {
        match written.qubits {
            GateQubits::One(a) => self.push(op_on_one(written.name, a)),
            GateQubits::Two(a, b) => self.push(op_on_two(written.name, a, b)),
            GateQubits::Three(a, b, c) => self.push(op_on_three(written.name, a, b, c)),
        }
    }

    /// Reads the line that bytes begin with, if it has a gate as it is mostly written. Says how many bytes it read.
    pub(crate) fn line_read(&mut self, bytes: &[u8]) -> Result<usize, Stop>
        ensures { IfOk result (λ n. MayReadLine self.old self.new bytes.now n) }
    {
        if !self.is_ready_for_gate() {
            return Ok(0);
        }
        match written_line(bytes) {
            Some(written) => self.written_push(written),
            None => Ok(0),
        }
    }

    fn op_read(&mut self, name: &[u8], qubits: &[u8]) -> Result<(), Stop>
        requires some { 1 ≤ length qubits.now }
        requires few { length qubits.now ≤ 3 }
        requires within { All (λ q. q < qubit_count self.old) qubits.now }
        ensures gives { StepGives result self.new (op_read name.now self.old qubits.now) }
        ensures same { OnOk result (self.new.quantum ≡ self.old.quantum) }
    {
        if has_twice(qubits) {
            return Err(Stop::Fault(REPEATED_OPERAND));
        }
        if self.is_any_measured(qubits) {
            return Err(Stop::Fault(GATE_AFTER_MEASUREMENT));
        }
        self.op_push(name, qubits)
    }

    // The j-th operation.
    fn op_at(&mut self, name: &[u8], operands: &[QubitRange], j: u8) -> Result<(), Stop>
        requires some { 1 ≤ length operands.now }
        requires few { length operands.now ≤ 3 }
        requires part { All (IsPart (qubit_count self.old)) operands.now }
        requires repeats { j < repeats (map named_qubits operands.now) }
        requires agree { sizes_agree (map named_qubits operands.now) ≡ true }
        ensures gives { StepGives result self.new
            (op_read name.now self.old (qubits_at (map named_qubits operands.now) j)) }
        ensures same { OnOk result (self.new.quantum ≡ self.old.quantum) }
    {
        let all = qubits_at(self.count, operands, j);
        self.op_read(name, all.as_slice())
    }

    fn each_read(&mut self, name: &[u8], operands: &[QubitRange]) -> Result<(), Stop>
        requires some { 1 ≤ length operands.now }
        requires few { length operands.now ≤ 3 }
        requires part { All (IsPart (qubit_count self.old)) operands.now }
        requires agree { sizes_agree (map named_qubits operands.now) ≡ true }
        ensures { StepGives result self.new (each_read name.now self.old (map named_qubits operands.now)) }
    {
        for j in 0..repeats(operands) {
            self.op_at(name, operands, j)?;
        }
        Ok(())
    }

    pub(crate) fn gate_read(&mut self, name: &[u8], tokens: &Tokens) -> Result<(), Stop>
        requires { 0 < length tokens.now }
        ensures { StepGives result self.new (gate_read self.old name.now (drop 1 tokens.now)) }
    {
        match gate_size(name) {
            Some(size) => self.gate_of_size(name, size, tokens),
            None => Err(Stop::Fault(UNKNOWN_GATE)),
        }
    }

    // A gate with so many operands.
    fn gate_of_size(&mut self, name: &[u8], size: usize, tokens: &Tokens) -> Result<(), Stop>
        requires some { 1 ≤ size }
        requires few { size ≤ 3 }
        requires tokens { 0 < length tokens.now }
        ensures { StepGives result self.new (gate_of_size size name.now self.old (drop 1 tokens.now)) }
    {
        match gate_operands(self.alloc, size, tokens) {
            Ok(operands) => self.gate_on_operands(name, operands.as_slice()),
            Err(stop) => Err(stop),
        }
    }

    fn gate_on_operands(&mut self, name: &[u8], operands: &[RegisterOperand]) -> Result<(), Stop>
        requires some { 1 ≤ length operands.now }
        requires few { length operands.now ≤ 3 }
        ensures { StepGives result self.new (gate_on_operands name.now self.old (map named operands.now)) }
    {
        match self.quantum.all_qubits_of(self.alloc, operands) {
            Ok(ranges) => self.gate_on_ranges(name, ranges.as_slice()),
            Err(stop) => Err(stop),
        }
    }

    fn gate_on_ranges(&mut self, name: &[u8], ranges: &[QubitRange]) -> Result<(), Stop>
        requires some { 1 ≤ length ranges.now }
        requires few { length ranges.now ≤ 3 }
        requires part { All (IsPart (qubit_count self.old)) ranges.now }
        ensures { StepGives result self.new (gate_on_ranges name.now self.old (map named_qubits ranges.now)) }
    {
        if sizes_agree(ranges) {
            self.each_read(name, ranges)
        } else {
            Err(Stop::Fault(REGISTER_SIZES_DIFFER))
        }
    }
}
