// Which blocks and phases are written where: found, and not promised to be right.
use crate::block::Block;
use crate::follow::{Toffoli, toffoli_of};
use crate::phase::Phase;
use crate::plan::{Item, Plan};
use crate::setup::Setup;
use crate::slots::{mixed, number_of};
use rv_forms::{Form, Term, column, constant, follow_gate, literals_of};
use rv_gate::{Gate, LineSet, MOST_LINES, Shape, has};
use rv_mct::Aux;
use std::alloc::{AllocError, Global};
use std::collections::HashMap;

// A form, by a number: 0 for a constant. The number of a sum is the exclusive or of both.
#[derive(Clone, Copy)]
struct Value {
    number: u64,
    constant: bool,
}

// Where a value stands: on a line, or as the sum of two.
#[derive(Clone, Copy)]
struct Place {
    time: usize,
    line: u8,
    other: u8,
    turned: bool,
}

// A value that stands somewhere, and the power of w that is brought where it is 1.
#[derive(Clone, Copy)]
struct Entry {
    place: Place,
    power: u8,
}

/// What a flip does to values. The first two are those of its controls, if it has two.
#[derive(Clone, Copy)]
pub(crate) struct Step {
    pub(crate) claim: Option<u32>,
    toffoli: Option<Toffoli>,
    a: Value,
    c: Value,
    before: Value,
    after: Value,
}

impl Step {
    /// A number for what is added to the target, 0 for nothing.
    pub(crate) fn added(&self) -> u64 {
        self.before.plus(self.after).whole()
    }
}

// The values of a circuit.
#[derive(Drop)]
struct Values {
    found: HashMap<u64, usize>,
    entries: Vec<Entry>,
    constant: u8,
}

/// The flips so far.
#[derive(Drop)]
pub(crate) struct Draft {
    held: Vec<Form>,
    own: Vec<Value>,
    pub(crate) terms: Vec<Term>,
    products: HashMap<u64, u32>,
    pub(crate) steps: Vec<Step>,
    values: Values,
    columns: usize,
}

// Flips are followed as long as the forms that they make have so many columns for each, and some more.
const MOST_COLUMNS: usize = 64;

const MORE_COLUMNS: usize = 1 << 22;

// More terms than this are not tried.
const MOST_TERMS: usize = 1 << 24;

const ONE: u64 = 0x94D0_49BB_1331_11EB;

fn value_of(form: &Form) -> Value {
    Value {
        number: number_of(form),
        constant: form.constant,
    }
}

impl Value {
    fn plus(self, other: Value) -> Value {
        Value {
            number: self.number ^ other.number,
            constant: self.constant != other.constant,
        }
    }

    // A number that tells the constants, too.
    fn whole(self) -> u64 {
        if self.constant {
            self.number ^ ONE
        } else {
            self.number
        }
    }
}

impl Values {
    // A line is better than a sum, and an early place than a late one.
    fn note(&mut self, value: Value, place: Place) -> Result<(), AllocError> {
        if value.number == 0 {
            return Ok(());
        }
        let at = match self.found.get(&value.number) {
            Some(at) => *at,
            None => usize::MAX,
        };
        let place = Place {
            turned: value.constant,
            ..place
        };
        if let Some(entry) = self.entries.get_mut(at) {
            if entry.place.line != entry.place.other && place.line == place.other {
                entry.place = place;
            }
            return Ok(());
        }
        let _old = self.found.insert(value.number, self.entries.len())?;
        self.entries.push(Entry { place, power: 0 })?;
        Ok(())
    }

    fn note_line(&mut self, value: Value, time: usize, line: u8) -> Result<(), AllocError> {
        self.note(
            value,
            Place {
                time,
                line,
                other: line,
                turned: false,
            },
        )
    }

    fn note_sum(
        &mut self,
        value: Value,
        time: usize,
        line: u8,
        other: u8,
    ) -> Result<(), AllocError> {
        self.note(
            value,
            Place {
                time,
                line,
                other,
                turned: false,
            },
        )
    }

    // The power where a value without its constant is 1.
    fn power_at(&self, value: Value) -> u8 {
        match self.found.get(&value.number) {
            Some(at) => match self.entries.get(*at) {
                Some(entry) => entry.power,
                None => 0,
            },
            None => 0,
        }
    }

    fn add(&mut self, value: Value, power: u8) {
        let mut power = power;
        if value.constant {
            self.constant = self.constant.wrapping_add(power) % 8;
            power = 8u8.wrapping_sub(power);
        }
        let at = match self.found.get(&value.number) {
            Some(at) => *at,
            None => return,
        };
        if let Some(entry) = self.entries.get_mut(at) {
            entry.power = entry.power.wrapping_add(power) % 8;
        }
    }

    fn add_product(&mut self, a: Value, b: Value, power: u8) {
        self.add(a, power);
        self.add(b, power);
        self.add(a.plus(b), 8u8.wrapping_sub(power));
    }

    // How many of three values a product would leave with a power.
    fn left_by(&self, a: Value, c: Value, power: u8) -> u32 {
        let mut left = 0u32;
        for (value, more) in [(a, power), (c, power), (a.plus(c), 8u8.wrapping_sub(power))] {
            let more = if value.constant {
                8u8.wrapping_sub(more)
            } else {
                more
            };
            if value.number != 0 && self.power_at(value).wrapping_add(more) % 8 != 0 {
                left = left.wrapping_add(1);
            }
        }
        left
    }
}

// A number for a product, the same for A B, A (A + B + 1) and B (A + B + 1); none where it is no product.
fn key_of(literals: &[Value]) -> Option<u64> {
    let mut key = 0u64;
    let mut count = 0u32;
    let mut sum = ONE;
    for k in 0..literals.len() {
        let value = literals[k];
        if value.number == 0 {
            if !value.constant {
                return None;
            }
            continue;
        }
        let mut again = false;
        for j in 0..k {
            let other = literals[j];
            if other.number == value.number {
                if other.constant != value.constant {
                    return None;
                }
                again = true;
            }
        }
        if !again {
            key = key.wrapping_add(mixed(value.whole()));
            sum ^= value.whole();
            count = count.wrapping_add(1);
        }
    }
    if count < 2 {
        return None;
    }
    if literals.len() == 2 {
        key = key.wrapping_add(mixed(sum));
    }
    Some(key)
}

impl Draft {
    /// No flip.
    pub(crate) fn new(alloc: Global, setup: Setup) -> Result<Draft, AllocError> {
        let mut held = Vec::new(alloc);
        let mut own = Vec::new(alloc);
        for line in 0..setup.lines.saturating_add(setup.extra) {
            let known = line >= setup.lines && matches!(setup.aux, Aux::Clean);
            let form = if known {
                constant(alloc, false)
            } else {
                column(alloc, u32::from(line))?
            };
            own.push(value_of(&form))?;
            held.push(form)?;
        }
        Ok(Draft {
            held,
            own,
            terms: Vec::new(alloc),
            products: HashMap::new(alloc),
            steps: Vec::new(alloc),
            values: Values {
                found: HashMap::new(alloc),
                entries: Vec::new(alloc),
                constant: 0,
            },
            columns: 0,
        })
    }
}

impl Draft {
    // What a line holds, or whether it is 0.
    fn value(&self, line: u8, wanted: bool) -> Value {
        match self.own.get(usize::from(line)) {
            Some(own) => Value {
                number: own.number,
                constant: own.constant == wanted,
            },
            None => Value {
                number: 0,
                constant: false,
            },
        }
    }

    fn literals(
        &self,
        alloc: Global,
        care: LineSet,
        want: LineSet,
    ) -> Result<Vec<Value>, AllocError> {
        let mut literals = Vec::new(alloc);
        for line in 0..MOST_LINES {
            if has(care, line) {
                literals.push(self.value(line, has(want, line)))?;
            }
        }
        Ok(literals)
    }

    // The term that a product is, if it is one: told by its number.
    fn claim(
        &mut self,
        alloc: Global,
        care: LineSet,
        want: LineSet,
    ) -> Result<Option<u32>, AllocError> {
        if self.held.len() > usize::from(MOST_LINES) {
            return Ok(None);
        }
        let values = self.literals(alloc, care, want)?;
        let Some(key) = key_of(&values) else {
            return Ok(None);
        };
        if let Some(term) = self.products.get(&key) {
            return Ok(Some(*term));
        }
        if self.terms.len() >= MOST_TERMS {
            return Ok(None);
        }
        let term = self.terms.len() as u32;
        let _old = self.products.insert(key, term)?;
        let factors = literals_of(alloc, &self.held, care, want)?;
        self.terms.push(Term { factors })?;
        Ok(Some(term))
    }

    fn renew(&mut self, line: u8) {
        let k = usize::from(line);
        if let (Some(own), Some(form)) = (self.own.get_mut(k), self.held.get(k)) {
            *own = value_of(form);
            self.columns = self.columns.saturating_add(form.columns.len());
        }
    }

    // Whether forms have got too long.
    fn is_full(&self) -> bool {
        let each = self.steps.len().saturating_mul(MOST_COLUMNS);
        self.columns > each.saturating_add(MORE_COLUMNS)
    }

    // The sum of what two lines hold now.
    fn note_sum(&mut self, time: usize, line: u8, other: u8) -> Result<(), AllocError> {
        let own = self.value(line, true);
        let sum = own.plus(self.value(other, true));
        self.values.note_sum(sum, time, line, other)
    }

    // The next flip. `false` where it can't be followed.
    fn step(&mut self, alloc: Global, flip: Gate) -> Result<bool, AllocError> {
        let Shape::Flip { care, want, target } = flip.shape() else {
            return Ok(false);
        };
        let time = self.steps.len();
        let claim = self.claim(alloc, care, want)?;
        let before = self.value(target, true);
        let toffoli = toffoli_of(flip);
        let (mut a, mut c) = (before, before);
        if let Some(two) = toffoli {
            a = self.value(two.a.line, two.a.wanted);
            c = self.value(two.c.line, two.c.wanted);
            self.note_sum(time, two.a.line, two.c.line)?;
            self.note_sum(time, two.a.line, target)?;
        }
        let first = self.held.len();
        if first > usize::from(MOST_LINES) || self.terms.len() > MOST_TERMS {
            return Ok(false);
        }
        if !follow_gate(alloc, &self.terms, first, &mut self.held, flip, claim)? {
            return Ok(false);
        }
        self.renew(target);
        let after = self.value(target, true);
        self.values
            .note_line(after, time.saturating_add(1), target)?;
        if let Some(two) = toffoli {
            self.note_sum(time.saturating_add(1), two.a.line, target)?;
        }
        self.steps.push(Step {
            claim,
            toffoli,
            a,
            c,
            before,
            after,
        })?;
        Ok(true)
    }

    /// All flips. `false` where one can't be followed.
    pub(crate) fn steps(&mut self, alloc: Global, flips: &[Gate]) -> Result<bool, AllocError> {
        for line in 0..MOST_LINES {
            let value = self.value(line, true);
            self.values.note_line(value, 0, line)?;
        }
        for flip in flips {
            if self.is_full() || !self.step(alloc, *flip)? {
                return Ok(false);
            }
        }
        Ok(true)
    }
}

// Two flips in a pair.
type Pair = (usize, usize);

// How flips are written, and those in pairs.
#[derive(Drop)]
struct Ways {
    blocks: Vec<Option<Block>>,
    pairs: Vec<Pair>,
}

// Flips in pairs, whose first controls have one value and whose targets one, before or after, but for constants.
fn ways_of(alloc: Global, steps: &[Step]) -> Result<Ways, AllocError> {
    let mut blocks = Vec::new(alloc);
    let mut pairs = Vec::new(alloc);
    let mut open: HashMap<u64, (usize, Block)> = HashMap::new(alloc);
    for k in 0..steps.len() {
        let step = &steps[k];
        if step.toffoli.is_none() {
            blocks.push(None)?;
            continue;
        }
        blocks.push(Some(Block::Plus))?;
        let sides = [(step.before, Block::Before), (step.after, Block::After)];
        let mut paired = false;
        for (value, side) in sides {
            let key = mixed(step.a.number) ^ value.number;
            if paired {
                continue;
            }
            if let Some((at, other)) = open.remove(&key) {
                if let Some(block) = blocks.get_mut(at) {
                    if *block == Some(Block::Plus) {
                        *block = Some(other);
                        paired = true;
                    }
                }
                if paired {
                    pairs.push((at, k))?;
                    if let Some(block) = blocks.get_mut(k) {
                        *block = Some(side);
                    }
                }
            }
        }
        if !paired {
            for (value, side) in sides {
                let _old = open.insert(mixed(step.a.number) ^ value.number, (k, side))?;
            }
        }
    }
    Ok(Ways { blocks, pairs })
}

// The sign of each block that is in no pair, and the powers of all products.
fn choose(steps: &[Step], blocks: &mut Vec<Option<Block>>, values: &mut Values) {
    for k in 0..steps.len() {
        let Some(block) = blocks.get_mut(k) else {
            return;
        };
        let (a, c) = (steps[k].a, steps[k].c);
        match *block {
            None => {}
            Some(Block::Before) => values.add_product(a, c, 1),
            Some(Block::After) => values.add_product(a, c, 7),
            Some(_) => {
                if values.left_by(a, c, 1) < values.left_by(a, c, 7) {
                    *block = Some(Block::Minus);
                    values.add_product(a, c, 1);
                } else {
                    *block = Some(Block::Plus);
                    values.add_product(a, c, 7);
                }
            }
        }
    }
}

// The control and the target that tell what a block leaves.
fn told_by(steps: &[Step], blocks: &[Option<Block>], k: usize) -> Option<(Value, Value)> {
    if k >= steps.len() || k >= blocks.len() {
        return None;
    }
    match blocks[k] {
        Some(Block::Before) => Some((steps[k].a, steps[k].before)),
        Some(Block::After) => Some((steps[k].a, steps[k].after)),
        _ => None,
    }
}

// What a pair leaves: nothing, or w^4 where its control or its target is 1.
fn add_pairs(steps: &[Step], ways: &Ways, values: &mut Values) {
    for pair in &ways.pairs {
        let Some((a, t)) = told_by(steps, &ways.blocks, pair.0) else {
            continue;
        };
        let Some((other, after)) = told_by(steps, &ways.blocks, pair.1) else {
            continue;
        };
        if a.constant != other.constant {
            values.add(after, 4);
        }
        if t.constant != after.constant {
            values.add(a, 4);
        }
    }
}

// Whether w^4 is taken from a power, which leaves w^-1, 1, w or w^2.
fn has_half(power: u8) -> bool {
    power >= 3 && power <= 6
}

// Whether the values with w^4 add up to 0.
fn are_linear(entries: &[Entry], found: &HashMap<u64, usize>) -> bool {
    let mut sum = 0;
    for (number, at) in found.iter() {
        if let Some(entry) = entries.get(*at) {
            if has_half(entry.power) {
                sum ^= *number;
            }
        }
    }
    sum == 0
}

// A power where a value that stands somewhere is 1.
fn phase_at(place: Place, power: u8) -> Phase {
    Phase {
        line: place.line,
        other: place.other,
        turned: place.turned,
        four: power / 4 % 2 == 1,
        two: power / 2 % 2 == 1,
        one: power % 2 == 1,
    }
}

// The phases that take the powers away, with the time of each.
fn phases(alloc: Global, values: &Values) -> Result<Vec<(usize, Phase)>, AllocError> {
    let mut phases = Vec::new(alloc);
    let linear = are_linear(&values.entries, &values.found);
    let start = Place {
        time: 0,
        line: 0,
        other: 0,
        turned: false,
    };
    let rest = 8u8.wrapping_sub(values.constant) % 8;
    if rest != 0 {
        phases.push((0, phase_at(start, rest)))?;
        phases.push((
            0,
            phase_at(
                Place {
                    turned: true,
                    ..start
                },
                rest,
            ),
        ))?;
    }
    for entry in &values.entries {
        let mut power = entry.power;
        if linear && has_half(power) {
            power = power.wrapping_add(4) % 8;
        }
        if power != 0 {
            let phase = phase_at(entry.place, 8u8.wrapping_sub(power) % 8);
            phases.push((entry.place.time, phase))?;
        }
    }
    phases.sort_by_key(|phase| phase.0)?;
    Ok(phases)
}

fn items(
    alloc: Global,
    steps: &[Step],
    blocks: &[Option<Block>],
    phases: &[(usize, Phase)],
) -> Result<Vec<Item>, AllocError> {
    let mut items = Vec::new(alloc);
    let mut next = 0usize;
    for k in 0..steps.len() {
        for j in next..phases.len() {
            if phases[j].0 > k {
                break;
            }
            items.push(Item::Phase(phases[j].1))?;
            next = j + 1;
        }
        let block = match blocks.get(k) {
            Some(block) => *block,
            None => None,
        };
        items.push(Item::Flip {
            block,
            claim: steps[k].claim,
        })?;
    }
    for j in next..phases.len() {
        items.push(Item::Phase(phases[j].1))?;
    }
    Ok(items)
}

/// How flips are written.
pub(crate) fn planned(
    alloc: Global,
    setup: Setup,
    flips: &[Gate],
) -> Result<Option<Plan>, AllocError> {
    let mut draft = Draft::new(alloc, setup)?;
    if !draft.steps(alloc, flips)? {
        return Ok(None);
    }
    let Draft {
        steps,
        terms,
        mut values,
        ..
    } = draft;
    let mut ways = ways_of(alloc, &steps)?;
    choose(&steps, &mut ways.blocks, &mut values);
    add_pairs(&steps, &ways, &mut values);
    let phases = phases(alloc, &values)?;
    let items = items(alloc, &steps, &ways.blocks, &phases)?;
    Ok(Some(Plan { terms, items }))
}
