// The search for a plan: nodes are made where they are needed, and taken back where a line is wanted.
use crate::net::{NONE, Net, at, number_of, put_at};
use crate::plan::{Plan, Step};
use std::alloc::{AllocError, Global};

// No line.
const NO_LINE: u8 = u8::MAX;

// A plan has at most so many steps.
const MOST_STEPS: usize = 1 << 16;

// Nodes are made for others at most so deep.
const MOST_DEPTH: u32 = 2000;

// What taking back a node costs that is needed again, and one that is waited for.
const AGAIN: u64 = 1 << 20;

const WAITED: u64 = 1 << 40;

/// The order in which outputs are made.
#[derive(Clone, Copy, Debug, PartialEq, Eq)]
pub(crate) enum Order {
    First,
    Last,
    Light,
    Heavy,
}

/// How a plan is looked for: whether a node may stand on an input's line, whether it is added to an output's line at
/// once, and the order of the outputs.
#[derive(Clone, Copy, Debug, PartialEq, Eq)]
pub(crate) struct Way {
    pub(crate) on_inputs: bool,
    pub(crate) direct: bool,
    pub(crate) order: Order,
}

// The line of a signal, and how many nodes that are being made need it.
#[derive(Clone, Copy)]
struct Standing {
    line: u8,
    locks: u32,
}

const NOWHERE: Standing = Standing {
    line: NO_LINE,
    locks: 0,
};

#[derive(Drop)]
struct Engine {
    way: Way,
    extra: usize,
    // of each signal
    standing: Vec<Standing>,
    // of each line its signal
    held: Vec<u32>,
    steps: Vec<Step>,
    price: u64,
    // The outputs that are to be made.
    left: u64,
    used: usize,
}

impl Engine {
    fn new(alloc: Global, net: &Net, extra: usize, way: Way) -> Result<Engine, AllocError> {
        let first = net.inputs.saturating_add(net.outputs.len());
        let standing = vec![in alloc; NOWHERE; net.count()]?;
        let held = vec![in alloc; NONE; first.saturating_add(extra)]?;
        Ok(Engine {
            way,
            extra,
            standing,
            held,
            steps: Vec::new(alloc),
            price: 0,
            left: u64::MAX,
            used: 0,
        })
    }

    // Puts the inputs on their lines.
    fn begin(&mut self, net: &Net) {
        for input in 0..net.inputs.min(64) {
            self.stand(input as u32, input as u8);
            put_at(&mut self.held, input, input as u32);
        }
    }

    fn standing(&self, signal: u32) -> Standing {
        at(&self.standing, signal as usize, NOWHERE)
    }

    // A signal stands on a line.
    fn stand(&mut self, signal: u32, line: u8) {
        let standing = self.standing(signal);
        put_at(
            &mut self.standing,
            signal as usize,
            Standing { line, ..standing },
        );
    }

    // So many nodes more, or less, need a signal.
    fn set_locks(&mut self, signal: u32, locks: u32) {
        let standing = self.standing(signal);
        put_at(
            &mut self.standing,
            signal as usize,
            Standing { locks, ..standing },
        );
    }

    // A step more.
    fn push(&mut self, step: Step, price: u64) -> Result<(), AllocError> {
        self.price = self.price.saturating_add(price);
        self.steps.push(step)?;
        Ok(())
    }

    fn line_of(&self, signal: u32) -> u8 {
        self.standing(signal).line
    }

    fn is_standing(&self, signal: u32) -> bool {
        self.line_of(signal) != NO_LINE
    }

    // The input on whose line a node stands.
    fn base_of(&self, net: &Net, signal: u32) -> u32 {
        if self.way.on_inputs {
            net.base(signal)
        } else {
            NONE
        }
    }

    fn is_wanted(&self, net: &Net, signal: u32) -> bool {
        net.cone(signal) & self.left != 0
    }

    // Whether a node that needs a signal waits for it.
    fn is_awaited(&self, net: &Net, signal: u32) -> bool {
        let mut place = net.first_user(signal);
        for _ in 0..net.user_count() {
            let Some((user, next)) = net.user(place) else {
                return false;
            };
            if !self.is_standing(user) && self.is_wanted(net, user) {
                return true;
            }
            place = next;
        }
        false
    }

    // Whether a node that needs a signal stands.
    fn is_used(&self, net: &Net, signal: u32) -> bool {
        let mut place = net.first_user(signal);
        for _ in 0..net.user_count() {
            let Some((user, next)) = net.user(place) else {
                return false;
            };
            if self.is_standing(user) {
                return true;
            }
            place = next;
        }
        false
    }

    // Whether an output that is to be made is this signal.
    fn is_due(&self, net: &Net, signal: u32) -> bool {
        for p in 0..net.outputs.len() {
            if self.left >> (p % 64) & 1 == 1 && at(&net.outputs, p, NONE) == signal {
                return true;
            }
        }
        false
    }

    // Whether no user waits for a signal.
    fn is_idle(&self, net: &Net, signal: u32) -> bool {
        !self.is_awaited(net, signal) && !self.is_due(net, signal)
    }

    // Whether what a node needs stands, beside the input on whose line it is.
    fn can_take_back(&self, net: &Net, signal: u32) -> bool {
        let base = net.base(signal);
        let needs_base = base != NONE && !self.way.on_inputs;
        if needs_base && !self.is_standing(base) {
            return false;
        }
        self.have_needs(net, signal)
    }

    // Adds the nodes of a chain to a line, or takes them back.
    fn toggle(
        &mut self,
        net: &Net,
        signal: u32,
        line: u8,
        on_base: bool,
        back: bool,
    ) -> Result<(), AllocError> {
        let chain = net.chain(signal);
        let count = chain.len();
        for i in 0..count {
            let place = if back {
                i
            } else {
                count.saturating_sub(1).saturating_sub(i)
            };
            let node = at(chain, place, NONE);
            let is_last = place.saturating_add(1) >= count;
            let step = Step {
                signal: node,
                start: if is_last && !on_base {
                    None
                } else {
                    net.start(node)
                },
                line,
                is_copy: false,
            };
            self.push(step, net.price(node))?;
        }
        Ok(())
    }

    fn take_back(&mut self, net: &Net, signal: u32) -> Result<(), AllocError> {
        let base = self.base_of(net, signal);
        let line = self.line_of(signal);
        self.toggle(net, signal, line, base != NONE, true)?;
        self.stand(signal, NO_LINE);
        put_at(&mut self.held, usize::from(line), base);
        if base != NONE {
            self.stand(base, line);
        }
        Ok(())
    }

    // What it costs to take back a signal in order to have its line.
    fn loss(&self, net: &Net, signal: u32) -> u64 {
        let mut price = 0u64;
        for node in net.chain(signal) {
            price = price.saturating_add(net.price(*node));
        }
        if !self.is_idle(net, signal) {
            return price.saturating_add(WAITED);
        }
        if !self.is_wanted(net, signal) && !self.is_used(net, signal) {
            return 0;
        }
        price.saturating_add(AGAIN)
    }

    // A line that holds nothing, if need be after a node was taken back.
    fn free_line(&mut self, net: &Net) -> Result<Option<u8>, AllocError> {
        let first = net.inputs.saturating_add(net.outputs.len());
        let end = first.saturating_add(self.extra).min(usize::from(NO_LINE));
        let (mut least, mut best) = (u64::MAX, NONE);
        for line in first..end {
            let signal = at(&self.held, line, NONE);
            if signal == NONE {
                self.used = self.used.max(line.saturating_add(1).saturating_sub(first));
                return Ok(Some(line as u8));
            }
            let is_locked = self.standing(signal).locks > 0;
            if !is_locked && self.can_take_back(net, signal) {
                let loss = self.loss(net, signal);
                if loss < least {
                    least = loss;
                    best = signal;
                }
            }
        }
        if best == NONE {
            return Ok(None);
        }
        let line = self.line_of(best);
        self.take_back(net, best)?;
        Ok(Some(line))
    }

    // The line of an input, or one that holds nothing; or none.
    fn line_for(&mut self, net: &Net, base: u32) -> Result<u8, AllocError> {
        if base != NONE {
            return Ok(self.line_of(base));
        }
        let line = self.free_line(net)?;
        Ok(line.unwrap_or(NO_LINE))
    }

    fn lock(&mut self, net: &Net, signal: u32) {
        for need in net.chain_needs(signal) {
            let locks = self.standing(*need).locks;
            self.set_locks(*need, locks.saturating_add(1));
        }
    }

    fn unlock(&mut self, net: &Net, signal: u32) {
        for need in net.chain_needs(signal) {
            let locks = self.standing(*need).locks;
            self.set_locks(*need, locks.saturating_sub(1));
        }
    }

    // The heaviest need of a node that doesn't stand.
    fn next_need(&self, net: &Net, signal: u32) -> u32 {
        let (mut most, mut next) = (0u32, NONE);
        for need in net.chain_needs(signal) {
            if !self.is_standing(*need) && net.weight(*need) >= most {
                most = net.weight(*need);
                next = *need;
            }
        }
        next
    }

    // Whether all that a node needs stands.
    fn have_needs(&self, net: &Net, signal: u32) -> bool {
        net.chain_needs(signal)
            .iter()
            .all(|need| self.is_standing(*need))
    }

    // Makes what a node needs, the heaviest first.
    #[cycle(making)]
    fn make_needs(&mut self, net: &Net, signal: u32, depth: u32) -> Result<bool, AllocError> {
        for _ in 0..net.chain_needs(signal).len() {
            let next = self.next_need(net, signal);
            if next != NONE && !self.make(net, next, depth)? {
                return Ok(false);
            }
        }
        Ok(self.have_needs(net, signal))
    }

    // Makes a signal. `false` where that isn't possible.
    #[cycle(making)]
    fn make(&mut self, net: &Net, signal: u32, depth: u32) -> Result<bool, AllocError> {
        if self.is_standing(signal) {
            return Ok(true);
        }
        if depth == 0 || self.steps.len() > MOST_STEPS || (signal as usize) < net.inputs {
            return Ok(false);
        }
        self.lock(net, signal);
        if !self.make_needs(net, signal, depth - 1)? {
            return Ok(false);
        }
        let base = self.base_of(net, signal);
        let line = self.line_for(net, base)?;
        if line == NO_LINE {
            return Ok(false);
        }
        self.toggle(net, signal, line, base != NONE, false)?;
        if base != NONE {
            self.stand(base, NO_LINE);
        }
        put_at(&mut self.held, usize::from(line), signal);
        self.stand(signal, line);
        self.unlock(net, signal);
        Ok(true)
    }

    // Makes an output on its line.
    fn output_at_once(&mut self, net: &Net, signal: u32, line: u8) -> Result<bool, AllocError> {
        self.lock(net, signal);
        if !self.make_needs(net, signal, MOST_DEPTH)? {
            return Ok(false);
        }
        self.unlock(net, signal);
        self.toggle(net, signal, line, false, false)?;
        Ok(true)
    }

    // Makes an output, and copies it to its line.
    fn output_by_copy(&mut self, net: &Net, signal: u32, line: u8) -> Result<bool, AllocError> {
        if !self.make(net, signal, MOST_DEPTH)? {
            return Ok(false);
        }
        let copy = Step {
            signal,
            start: None,
            line,
            is_copy: true,
        };
        self.push(copy, 1)?;
        Ok(true)
    }

    // Makes an output.
    fn output(&mut self, net: &Net, p: usize) -> Result<bool, AllocError> {
        let signal = at(&net.outputs, p, NONE);
        let line = net.inputs.saturating_add(p).min(64) as u8;
        self.left &= !(1u64 << (p % 64));
        let is_node = signal as usize >= net.inputs;
        let at_once = self.way.direct && self.is_idle(net, signal) || net.is_alias(signal);
        if is_node && at_once && !self.is_standing(signal) {
            self.output_at_once(net, signal, line)
        } else {
            self.output_by_copy(net, signal, line)
        }
    }

    // The last node that stands on a line.
    fn last_node(&self, net: &Net) -> u32 {
        let mut last = NONE;
        for signal in &self.held {
            let is_node = *signal != NONE && *signal as usize >= net.inputs;
            if is_node && (last == NONE || *signal > last) {
                last = *signal;
            }
        }
        last
    }

    // Takes back a node; what it needs is made before.
    fn clear(&mut self, net: &Net, signal: u32) -> Result<bool, AllocError> {
        let own = self.standing(signal).locks;
        self.set_locks(signal, own.saturating_add(1));
        self.lock(net, signal);
        if !self.make_needs(net, signal, MOST_DEPTH)? || self.steps.len() > MOST_STEPS {
            return Ok(false);
        }
        self.unlock(net, signal);
        self.set_locks(signal, own);
        self.take_back(net, signal)?;
        Ok(true)
    }

    // Takes back all nodes, the last one first.
    fn clean(&mut self, net: &Net) -> Result<bool, AllocError> {
        for _ in 0..MOST_STEPS {
            let last = self.last_node(net);
            if last == NONE {
                return Ok(true);
            }
            if !self.clear(net, last)? {
                return Ok(false);
            }
        }
        Ok(false)
    }

    // Makes the outputs, and takes back all nodes.
    fn run(&mut self, net: &Net, places: &[usize]) -> Result<bool, AllocError> {
        self.begin(net);
        for p in places {
            if !self.output(net, *p)? {
                return Ok(false);
            }
        }
        self.clean(net)
    }
}

// By what the place of an output is sorted.
fn key_of(net: &Net, order: Order, p: usize) -> u32 {
    let weight = net.weight(at(&net.outputs, p, NONE));
    match order {
        Order::First => number_of(p),
        Order::Last => u32::MAX - number_of(p),
        Order::Light => weight,
        Order::Heavy => u32::MAX - weight,
    }
}

// The places of the outputs in an order.
fn ordered(alloc: Global, net: &Net, order: Order) -> Result<Vec<usize>, AllocError> {
    let mut places = Vec::new(alloc);
    for p in 0..net.outputs.len() {
        places.push(p)?;
    }
    places.sort_by_key(|p| key_of(net, order, *p))?;
    Ok(places)
}

/// A plan on so many work lines at most, found in a way.
pub(crate) fn plan_of(
    alloc: Global,
    net: &Net,
    extra: u8,
    way: Way,
) -> Result<Option<Plan>, AllocError> {
    let places = ordered(alloc, net, way.order)?;
    let mut engine = Engine::new(alloc, net, usize::from(extra), way)?;
    if !engine.run(net, &places)? {
        return Ok(None);
    }
    Ok(Some(Plan {
        steps: engine.steps,
        extra: engine.used.min(usize::from(extra)) as u8,
        price: engine.price,
    }))
}
