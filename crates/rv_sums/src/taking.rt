// Which flip of the circuit is taken when: in any order that exchanges allow, searched freely.
ghost use Rattle.std.specs.Prelude.{◌≡◌, ◌<◌, ◌≤◌, ◌∷◌, [], List, Bool, length, IfOk, IfSome};
ghost use Rattle.rv_gate.specs.declared.gate.Shape.{Shape};
ghost use Rattle.rv_gate.specs.declared.word.TheConstants.{MOST_LINES};
ghost use Rattle.rv_net.specs.Op.{OpFitsIn};
ghost use Rattle.rv_sums.specs.Finding.{HasConstants};
ghost use Rattle.rv_sums.specs.inside.State.{Holds, HoldsAfter, IsStart, Moves, Takes, left_of};
ghost use Rattle.rv_sums.specs.declared.taking.Following.{Following as AFollowing};

use crate::by_paths::MOST_TERMS;
use crate::facts::Facts;
use crate::fault::PathFault;
use crate::left::Left;
use crate::path_sum::PathSum;
use rv_gate::{Gate, MOST_LINES, Mark};
use rv_net::Op;
use std::alloc::Global;

// How far the search goes: how many flips are looked at, how many are taken in their order to see whether the sum
// becomes lighter, how many products of the phases weigh as much as one of a line's sum, and how many steps there are.
#[derive(Clone, Copy)]
pub(crate) struct Reach {
    pub window: usize,
    pub ahead: usize,
    pub share: usize,
    pub steps: u64,
}

// The sum, what is known of the circuit's word, the flips of the circuit that are left, and what the search needs: the steps so far, and how heavy the sum
// was when flips were last taken.
#[derive(Drop)]
pub(crate) struct Following {
    pub sum: PathSum,
    pub facts: Facts,
    pub left: Left,
    pub reach: Reach,
    pub steps: u64,
    pub mark: usize,
}

fn is_h(op: Op) -> bool {
    match op {
        Op::H(_) => true,
        _ => false,
    }
}

// Whether an operation is no phase alone.
fn moves(op: Op) -> bool {
    match op {
        Op::Z(_) | Op::S(_) | Op::Sdg(_) | Op::T(_) | Op::Tdg(_) | Op::Cz(..) => false,
        _ => true,
    }
}

impl Following {
    pub(crate) fn start(
        alloc: Global,
        lines: u8,
        marks: &[Mark],
        reach: Reach,
    ) -> Result<Following, PathFault>
        requires { lines ≤ MOST_LINES }
        ensures sum { IfOk result (λ state. IsStart marks.now lines state.sum) }
        ensures facts { IfOk result (λ state. (x : List Bool) → HasConstants marks.now x → length x ≡ lines
            → Holds state.facts.sums.items x) }
        ensures left { IfOk result (λ state. (flips : List Shape) → left_of flips state.left ≡ flips) }
    {
        let sum = PathSum::start(alloc, lines, marks)?;
        let facts = Facts::start(alloc, marks, &sum.sums)?;
        Ok(Following {
            sum,
            facts,
            left: Left::all(alloc),
            reach,
            steps: 0,
            mark: 0,
        })
    }

    fn copy(&self, alloc: Global) -> Result<Following, PathFault>
        ensures { IfOk result (λ state. (flips : List Shape) → Moves [] flips self.now state) }
    {
        let sum = self.sum.copy(alloc)?;
        let facts = self.facts.copy(alloc)?;
        let left = self.left.copy(alloc)?;
        Ok(Following {
            sum,
            facts,
            left,
            reach: self.reach,
            steps: self.steps,
            mark: self.mark,
        })
    }

    // How far a sum is from that of each word to itself, where such facts hold.
    fn weight_of(&self, sum: &PathSum, facts: &Facts) -> usize {
        if facts.sums.is_empty() {
            return sum.weight(self.reach.share);
        }
        let away = facts.away(&sum.sums);
        let away = away.saturating_mul(self.reach.share);
        sum.phases.len().saturating_add(away)
    }

    fn weight(&self) -> usize {
        self.weight_of(&self.sum, &self.facts)
    }

    // Whether a flip seems to be in the sum of its target.
    fn leads(&self, gate: Gate) -> bool {
        if self.facts.sums.is_empty() {
            return self.sum.leads(gate);
        }
        self.facts.lead(&self.sum.sums, gate)
    }

    // A step more for each term, if there may be as many.
    fn spend(&mut self, terms: usize) -> Result<(), PathFault>
        ensures sum { IfOk result (λ _. self.new.sum ≡ self.old.sum) }
        ensures facts { IfOk result (λ _. self.new.facts ≡ self.old.facts) }
        ensures left { IfOk result (λ _. self.new.left ≡ self.old.left) }
    {
        if terms > MOST_TERMS {
            return Err(PathFault::Terms);
        }
        self.steps = self.steps.saturating_add(terms as u64);
        if self.steps > self.reach.steps {
            return Err(PathFault::Steps);
        }
        Ok(())
    }

    // Remembers how heavy the sum is, if flips were taken.
    fn note(&mut self, taken: bool)
        ensures sum { self.new.sum ≡ self.old.sum }
        ensures facts { self.new.facts ≡ self.old.facts }
        ensures left { self.new.left ≡ self.old.left }
    {
        if taken {
            self.mark = self.weight();
        }
    }

    // Whether the sum has become heavier, by a sixteenth and more.
    fn is_heavy(&self) -> bool {
        let most = self.mark.saturating_add(16).saturating_add(self.mark / 16);
        self.weight() > most
    }

    // The sum and what is known after a flip more.
    fn with_flip(&self, alloc: Global, gate: Gate) -> Result<(PathSum, Facts), PathFault>
        ensures sum { IfOk result (λ r. Takes self.now.facts.sums.items gate self.now.sum r.0) }
        ensures facts { IfOk result (λ r.
            HoldsAfter (length self.now.sum.sums.items) gate self.now.facts.sums.items r.1.sums.items) }
    {
        let sum = self.sum.with_flip(alloc, &self.facts, gate)?;
        let lines = self.sum.sums.len();
        let facts = self.facts.past(alloc, lines, gate)?;
        Ok((sum, facts))
    }

    // The same, where the sum isn't too large.
    fn after(&self, alloc: Global, gate: Gate) -> Result<Option<(PathSum, Facts)>, PathFault>
        ensures sum { IfOk result (λ o. IfSome o (λ r. Takes self.now.facts.sums.items gate self.now.sum r.0)) }
        ensures facts { IfOk result (λ o. IfSome o (λ r.
            HoldsAfter (length self.now.sum.sums.items) gate self.now.facts.sums.items r.1.sums.items)) }
    {
        match self.with_flip(alloc, gate) {
            Ok(next) => Ok(Some(next)),
            Err(PathFault::Mem) => Err(PathFault::Mem),
            Err(_) => Ok(None),
        }
    }

    // A line is as any other where much is known of it.
    fn forget(&mut self, alloc: Global, line: u8) -> Result<(), PathFault>
        requires { line < MOST_LINES }
        ensures { IfOk result (λ _. (flips : List Shape) → Moves [] flips self.old self.new) }
    {
        if usize::from(line) >= self.sum.sums.len() || !self.facts.is_large(line) {
            return Ok(());
        }
        let none = self.facts.nought_of(alloc, line)?;
        self.sum.flip(alloc, line, &none)?;
        self.facts.lose(alloc, line)?;
        Ok(())
    }

    fn forget_large(&mut self, alloc: Global) -> Result<(), PathFault>
        ensures { IfOk result (λ _. (flips : List Shape) → Moves [] flips self.old self.new) }
    {
        if self.facts.sums.is_empty() {
            return Ok(());
        }
        for line in 0..MOST_LINES {
            self.forget(alloc, line)?;
        }
        Ok(())
    }

    // Takes a flip of the window, if it may pass those in front of it, and the sum weighs less than so much then. Not
    // any flip is tried, but one that leads.
    fn take(&mut self, alloc: Global, at: usize, limit: usize, any: bool) -> Result<bool, PathFault>
        ensures { IfOk result (λ _. (flips : List Shape) → Moves [] flips self.old self.new) }
    {
        if at >= self.left.window.len() {
            return Ok(false);
        }
        let gate = self.left.window[at];
        if !any && !self.leads(gate) {
            return Ok(false);
        }
        if !self.left.may_pass(at, gate) {
            return Ok(false);
        }
        let Some(next) = self.after(alloc, gate)? else {
            return Ok(false);
        };
        self.spend(next.0.size().saturating_add(next.1.size()))?;
        if self.weight_of(&next.0, &next.1) >= limit {
            return Ok(false);
        }
        self.sum = next.0;
        self.facts = next.1;
        self.left.window.remove(at);
        self.forget_large(alloc)?;
        Ok(true)
    }

    // Takes the first flip that is left.
    fn take_first(&mut self, alloc: Global, flips: &[Gate], limit: usize) -> Result<bool, PathFault>
        ensures { IfOk result (λ _. Moves [] flips.now self.old self.new) }
    {
        let count = self.reach.window;
        self.left.fill(flips, count)?;
        let taken = self.take(alloc, 0, limit, true)?;
        Ok(taken)
    }

    // Takes one flip by which the sum becomes smaller: any, or one that leads.
    fn take_one(&mut self, alloc: Global, flips: &[Gate], any: bool) -> Result<bool, PathFault>
        ensures { IfOk result (λ _. Moves [] flips.now self.old self.new) }
    {
        let count = self.reach.window;
        self.left.fill(flips, count)?;
        let weight = self.weight();
        for at in 0..count {
            let taken = self.take(alloc, at, weight, any)?;
            if taken {
                return Ok(true);
            }
        }
        Ok(false)
    }

    // Takes flips while the sum becomes smaller. Whether there were any.
    fn take_some(&mut self, alloc: Global, flips: &[Gate], any: bool) -> Result<bool, PathFault>
        ensures { IfOk result (λ _. Moves [] flips.now self.old self.new) }
    {
        let mut some = false;
        'rounds: for _ in 0..flips.len() {
            let taken = self.take_one(alloc, flips, any)?;
            if !taken {
                return Ok(some);
            }
            some = true;
        }
        Ok(some)
    }

    // Becomes the trial, if that weighs less. Answers the less of both.
    fn adopt(&mut self, alloc: Global, trial: &Following, least: usize) -> Result<usize, PathFault>
        ensures { IfOk result (λ _. (flips : List Shape) (first : AFollowing) → Moves [] flips first self.old
            → Moves [] flips first trial.now → Moves [] flips first self.new) }
    {
        let weight = self.weight_of(&trial.sum, &trial.facts);
        if weight >= least {
            return Ok(least);
        }
        let next = trial.copy(alloc)?;
        *self = next;
        Ok(weight)
    }

    // Takes as many flips in their order as make the sum smallest. Whether there were any.
    fn look_ahead(&mut self, alloc: Global, flips: &[Gate]) -> Result<bool, PathFault>
        ensures { IfOk result (λ _. Moves [] flips.now self.old self.new) }
    {
        let start = self.weight();
        let most = start.saturating_mul(4).saturating_add(200);
        let mut least = start;
        let mut trial = self.copy(alloc)?;
        'ahead: for _ in 0..self.reach.ahead {
            let taken = trial.take_first(alloc, flips, most)?;
            if !taken {
                return Ok(least < start);
            }
            least = self.adopt(alloc, &trial, least)?;
        }
        Ok(least < start)
    }

    // Takes flips in all ways that are tried, while the sum becomes smaller.
    fn settle(&mut self, alloc: Global, flips: &[Gate]) -> Result<(), PathFault>
        ensures { IfOk result (λ _. Moves [] flips.now self.old self.new) }
    {
        'rounds: for _ in 0..flips.len() {
            let some = self.take_some(alloc, flips, true)?;
            let ahead = self.look_ahead(alloc, flips)?;
            if !some && !ahead {
                return Ok(());
            }
        }
        Ok(())
    }

    // Takes flips where the sum tells that it's time.
    fn keep_up(&mut self, alloc: Global, flips: &[Gate], op: Op) -> Result<(), PathFault>
        ensures { IfOk result (λ _. Moves [] flips.now self.old self.new) }
    {
        if !moves(op) {
            return Ok(());
        }
        let some = self.take_some(alloc, flips, false)?;
        self.note(some);
        if !is_h(op) || !self.is_heavy() {
            return Ok(());
        }
        self.settle(alloc, flips)?;
        self.note(true);
        Ok(())
    }

    // One operation more, and flips that are taken then.
    pub(crate) fn operate(&mut self, alloc: Global, flips: &[Gate], op: Op) -> Result<(), PathFault>
        requires { OpFitsIn op (length self.old.sum.sums.items) }
        ensures { IfOk result (λ _. Moves (op ∷ []) flips.now self.old self.new) }
    {
        self.sum.operate(alloc, op)?;
        self.keep_up(alloc, flips, op)?;
        let terms = self.sum.size();
        self.spend(terms)?;
        Ok(())
    }

    // Takes all flips that are left.
    pub(crate) fn finish(&mut self, alloc: Global, flips: &[Gate]) -> Result<(), PathFault>
        ensures takes { IfOk result (λ _. Moves [] flips.now self.old self.new) }
        ensures all { IfOk result (λ _. left_of flips.now self.new.left ≡ []) }
    {
        'flips: for _ in 0..flips.len() {
            self.take_first(alloc, flips, usize::MAX)?;
        }
        if !self.left.is_none(flips) {
            return Err(PathFault::Terms);
        }
        Ok(())
    }
}
