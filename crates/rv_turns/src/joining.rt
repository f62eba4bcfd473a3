ghost use Rattle.std.specs.Prelude.{◌≡◌, ◌+◌, ◌<◌, ◌≤◌, ◌++◌, ◌∷◌, [], length, All, IfOk, IfSome, OnOk};
ghost use Rattle.rv_gate.specs.declared.word.TheConstants.{MOST_LINES};
ghost use Rattle.rv_net.specs.Op.{OpFitsIn};
ghost use Rattle.rv_net.specs.declared.net.TheConstants.{MOST_OPS};
ghost use Rattle.rv_turns.specs.Joined.{IsJoiningOf};
ghost use Rattle.rv_turns.specs.inside.Pauli.{kept, turn, summed};

use crate::waiting::Waiting;
use rv_net::{Net, Op, OpFault};
use std::alloc::{AllocError, Global};

/// How many steps past operations the rounds of one size take, at most.
pub const MOST_STEPS: u64 = 1 << 24;

/// A T gate, or its inverse, on a line.
#[derive(Clone, Copy)]
struct Turn {
    line: u8,
    back: bool,
}

fn turn_of(op: Op) -> Option<Turn>
    ensures { IfSome result (λ t. op ≡ turn t.back t.line) }
{
    match op {
        Op::T(line) => Some(Turn { line, back: false }),
        Op::Tdg(line) => Some(Turn { line, back: true }),
        _ => None,
    }
}

// What two turns of one line are together.
fn sum(first: bool, second: bool, line: u8) -> Option<Op>
    ensures { result ≡ summed first second line }
{
    match (first, second) {
        (false, false) => Some(Op::S(line)),
        (true, true) => Some(Op::Sdg(line)),
        _ => None,
    }
}

/// One of so many rounds. Each lets other turns wait.
#[derive(Clone, Copy)]
struct Round {
    number: u64,
    last: u64,
}

impl Round {
    // Whether turns after so many other operations wait in the round. The operations are spread by a hash.
    fn lets_wait(self, others: u64) -> bool {
        (others.wrapping_mul(0x9E37_79B9_7F4A_7C15) >> 32) & self.last == self.number
    }
}

// How much an operation counts for the rounds: joining changes no other kind of operations than these two.
fn weight(op: Op) -> u64 {
    match op {
        Op::T(_) | Op::Tdg(_) => 0,
        Op::S(_) | Op::Sdg(_) => 0,
        _ => 1,
    }
}

/// A turn that waits, and joins one that stands after all operations so far.
#[derive(Clone, Copy)]
struct Partner {
    slot: usize,
    place: usize,
    back: bool,
}

/// The operations so far, with a hole for each turn that was joined by a later one, and the turns that wait.
#[derive(Drop)]
struct Joining {
    made: Vec<Option<Op>>,
    waiting: Waiting,
    round: Round,
    // the number of operations so far but for those that joining changes
    others: u64,
    // whether a turn gave way to another
    crowded: bool,
}

impl Joining {
    ghost use Rattle.rv_turns.specs.inside.Standing.{Begins, IsPartner, Joins, Keeps, Steps};

    // Before the first operation.
    fn new(alloc: Global, lines: u8, round: Round) -> Result<Joining, AllocError>
        ensures { IfOk result (λ j. Begins lines j) }
    {
        Ok(Joining {
            made: Vec::new(alloc),
            waiting: Waiting::new(alloc, lines)?,
            round,
            others: 0,
            crowded: false,
        })
    }

    fn partner(&self, line: u8) -> Option<Partner>
        requires { line < length self.now.waiting.flips.items }
        ensures { IfSome result (λ p. IsPartner self.now line p) }
    {
        let slot = self.waiting.partner(line)?;
        let place = self.waiting.places[slot];
        if place >= self.made.len() {
            return None;
        }
        let turn = turn_of(self.made[place]?)?;
        Some(Partner {
            slot,
            place,
            back: turn.back,
        })
    }

    fn keep(&mut self, op: Op) -> Result<(), AllocError>
        requires { OpFitsIn op (length self.old.waiting.flips.items) }
        ensures { OnOk result (Keeps op self.old self.new) }
    {
        self.made.push(Some(op))?;
        self.waiting.pass(op);
        self.others = self.others.wrapping_add(weight(op));
        Ok(())
    }

    fn keep_waiting(&mut self, later: Turn, op: Op) -> Result<(), AllocError>
        requires fits { OpFitsIn op (length self.old.waiting.flips.items) }
        requires is { op ≡ turn later.back later.line }
        ensures { OnOk result (Keeps op self.old self.new) }
    {
        let place = self.made.len();
        self.made.push(Some(op))?;
        self.waiting.pass(op);
        self.crowded = self.crowded | self.waiting.is_full();
        self.waiting.open(later.line, place);
        Ok(())
    }

    fn join(&mut self, partner: Partner, later: Turn, op: Op) -> Result<(), AllocError>
        requires fits { OpFitsIn op (length self.old.waiting.flips.items) }
        requires is { op ≡ turn later.back later.line }
        requires partner { IsPartner self.old later.line partner }
        ensures { OnOk result (Joins op self.old self.new) }
    {
        self.made.push(sum(partner.back, later.back, later.line))?;
        self.made[partner.place] = None;
        self.waiting.pass(op);
        self.waiting.close(partner.slot);
        Ok(())
    }

    // Goes past an operation.
    fn step(&mut self, op: Op) -> Result<(), AllocError>
        requires { OpFitsIn op (length self.old.waiting.flips.items) }
        ensures { OnOk result (Steps op self.old self.new) }
    {
        match turn_of(op) {
            None => self.keep(op),
            Some(turn) => match self.partner(turn.line) {
                Some(partner) => self.join(partner, turn, op),
                None if self.round.lets_wait(self.others) => self.keep_waiting(turn, op),
                None => self.keep(op),
            },
        }
    }
}

fn push(net: &mut Net, op: Op) -> Result<(), AllocError>
    requires fits { OpFitsIn op net.old.lines }
    requires room { length net.old.ops < MOST_OPS }
    ensures { OnOk result (net.new ≡ record net.old { ops = net.old.ops ++ op ∷ [] }) }
{
    match net.push(op) {
        Ok(()) => Ok(()),
        Err(OpFault::Mem) => Err(AllocError),
        Err(OpFault::TooManyOps) => unreachable!(),
    }
}

// The network of the operations that are left.
fn write(alloc: Global, lines: u8, made: &[Option<Op>]) -> Result<Net, AllocError>
    requires some { 1 ≤ lines }
    requires few { lines ≤ MOST_LINES }
    requires bounded { length made.now ≤ MOST_OPS }
    requires fitting { All (λ op. OpFitsIn op lines) (kept made.now) }
    ensures { IfOk result (λ net. net ≡ record { lines = lines; ops = kept made.now }) }
{
    let mut net = Net::new(alloc, lines);
    for op in made.iter() {
        if let Some(op) = op {
            push(&mut net, *op)?;
        }
    }
    Ok(net)
}

// One round, and whether turns gave way to others.
fn join_round(alloc: Global, net: &Net, round: Round) -> Result<(Net, bool), AllocError>
    ensures { IfOk result (λ r. IsJoiningOf net.now r.0) }
{
    // what every network keeps: each operation fits
    net.recall_invariant();
    let mut joining = Joining::new(alloc, net.lines(), round)?;
    for op in net.ops().iter() {
        joining.step(*op)?;
    }
    let joined = write(alloc, net.lines(), &joining.made)?;
    Ok((joined, joining.crowded))
}

// All rounds up to one, and whether turns gave way to others.
fn join_rounds(alloc: Global, net: &Net, last: u64) -> Result<(Net, bool), AllocError>
    ensures { IfOk result (λ r. IsJoiningOf net.now r.0) }
{
    let (mut joined, mut crowded) = join_round(alloc, net, Round { number: 0, last })?;
    for number in 0..last {
        let round = Round {
            number: number + 1,
            last,
        };
        let (next, full) = join_round(alloc, &joined, round)?;
        joined = next;
        crowded = crowded | full;
    }
    Ok((joined, crowded))
}

/// Joins T gates about one Pauli product, two and two, each at the later one, and keeps all amplitudes.
///
/// At most 64 T gates wait at once for another. Where more would have to, there are further rounds, each for a part of
/// the T gates, as long as they take no more than about [`MOST_STEPS`] steps. The only refusal is want of memory.
pub fn join_turns(alloc: Global, net: &Net) -> Result<Net, AllocError>
    ensures { IfOk result (IsJoiningOf net.now) }
{
    let (mut joined, mut crowded) = join_rounds(alloc, net, 0)?;
    let steps = net.ops().len() as u64;
    for last in [3u64, 15, 63, 255, 1023] {
        if crowded && steps.saturating_mul(last) < MOST_STEPS {
            let (next, full) = join_rounds(alloc, &joined, last)?;
            joined = next;
            crowded = full;
        }
    }
    Ok(joined)
}
