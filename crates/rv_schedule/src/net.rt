// A network as the search for a plan sees it.
use crate::lists::Lists;
use crate::pass::Pass;
use crate::products::{price, push_products};
use rv_blif::{Logic, Node, Product};
use std::alloc::{AllocError, Global};

/// No signal.
pub(crate) const NONE: u32 = u32::MAX;

// A signal that is constant.
const CONSTANT: u32 = u32::MAX - 1;

// No user.
const NO_USER: usize = usize::MAX;

// A chain of nodes on one line has at most so many.
const MOST_IN_CHAIN: usize = 64;

/// What is known of a signal: the signal that it passes on, or itself; what its node costs; the operand on whose line
/// that can be made, and the input on whose line its chain begins; how often it is needed, by which node last, for which
/// outputs, and how many lines it takes about.
#[derive(Clone, Copy)]
struct Facts {
    root: u32,
    price: u64,
    start: Option<u8>,
    base: u32,
    uses: u32,
    user: usize,
    cone: u64,
    weight: u32,
}

// A node that needs a signal, and the place of the next one.
#[derive(Clone, Copy)]
struct User {
    node: u32,
    next: usize,
}

/// Of each signal what it passes on; what is known of it; the products of its node; what it needs on lines; who needs
/// it; and the nodes that are made with it on one line, itself first, and what these need.
#[derive(Drop)]
pub struct Net {
    pub(crate) inputs: usize,
    pub(crate) outputs: Vec<u32>,
    passes: Vec<Option<Pass>>,
    facts: Vec<Facts>,
    users: Vec<User>,
    sums: Lists<Product>,
    needs: Lists<u32>,
    chains: Lists<u32>,
    chain_needs: Lists<u32>,
}

pub(crate) fn at<T: Copy>(list: &[T], place: usize, other: T) -> T {
    match list.get(place) {
        Some(entry) => *entry,
        None => other,
    }
}

pub(crate) fn put_at<T: Copy>(list: &mut [T], place: usize, entry: T) {
    if let Some(there) = list.get_mut(place) {
        *there = entry;
    }
}

pub(crate) fn number_of(place: usize) -> u32 {
    place.min(NONE as usize) as u32
}

fn contains(list: &[u32], signal: u32) -> bool {
    list.iter().any(|other| *other == signal)
}

// Of a signal of which nothing is known.
fn facts_of(signal: u32) -> Facts {
    Facts {
        root: signal,
        price: 0,
        start: None,
        base: NONE,
        uses: 0,
        user: NO_USER,
        cone: 0,
        weight: 0,
    }
}

// The operands that products ask for.
fn asked_of(products: &[Product]) -> u16 {
    let mut asked = 0;
    for product in products {
        asked |= product.care;
    }
    asked
}

fn price_of(products: &[Product]) -> u64 {
    let mut sum = 0u64;
    for product in products {
        sum = sum.saturating_add(price(product.care.count_ones()));
    }
    sum
}

fn is_asked(asked: u16, operand: usize) -> bool {
    operand < 16 && asked >> operand & 1 == 1
}

// What a node passes on, if it does: it has at most one product that asks for something, and that for one operand.
fn pass_of(products: &[Product]) -> Option<Pass> {
    let mut pass = Pass {
        operand: None,
        changed: false,
    };
    for product in products {
        let literals = product.care.count_ones();
        if literals == 0 {
            pass.changed = !pass.changed;
        } else {
            if literals > 1 || pass.operand.is_some() {
                return None;
            }
            pass.operand = Some(product.care.trailing_zeros() as u8);
            if product.want == 0 {
                pass.changed = !pass.changed;
            }
        }
    }
    Some(pass)
}

// Whether an operand is asked for in one product alone, as it is.
fn is_added(products: &[Product], i: usize) -> bool {
    let (mut asking, mut alone) = (0u32, false);
    for product in products {
        if is_asked(product.care, i) {
            asking = asking.saturating_add(1);
            alone = product.care.count_ones() == 1 && product.want == product.care;
        }
    }
    asking == 1 && alone
}

// The weight of a node that needs these: its heaviest need's, one more for each other that is as heavy.
fn weight_over(most: u32, same: u32) -> u32 {
    most.saturating_add(same.max(1))
        .saturating_sub(u32::from(most > 0))
}

impl Net {
    // The network without signals.
    fn new(alloc: Global, inputs: usize) -> Net {
        Net {
            inputs,
            outputs: Vec::new(alloc),
            passes: Vec::new(alloc),
            facts: Vec::new(alloc),
            users: Vec::new(alloc),
            sums: Lists::new(alloc),
            needs: Lists::new(alloc),
            chains: Lists::new(alloc),
            chain_needs: Lists::new(alloc),
        }
    }

    /// What each signal passes on, if it does.
    pub fn passes(&self) -> &[Option<Pass>] {
        &self.passes
    }

    pub(crate) fn count(&self) -> usize {
        self.facts.len()
    }

    fn facts(&self, signal: u32) -> Facts {
        at(&self.facts, signal as usize, facts_of(signal))
    }

    fn put(&mut self, signal: u32, facts: Facts) {
        put_at(&mut self.facts, signal as usize, facts);
    }

    fn needs(&self, signal: u32) -> &[u32] {
        self.needs.get(signal as usize)
    }

    pub(crate) fn chain(&self, signal: u32) -> &[u32] {
        self.chains.get(signal as usize)
    }

    pub(crate) fn chain_needs(&self, signal: u32) -> &[u32] {
        self.chain_needs.get(signal as usize)
    }

    pub(crate) fn price(&self, signal: u32) -> u64 {
        self.facts(signal).price
    }

    pub(crate) fn start(&self, signal: u32) -> Option<u8> {
        self.facts(signal).start
    }

    pub(crate) fn base(&self, signal: u32) -> u32 {
        self.facts(signal).base
    }

    pub(crate) fn cone(&self, signal: u32) -> u64 {
        self.facts(signal).cone
    }

    pub(crate) fn weight(&self, signal: u32) -> u32 {
        self.facts(signal).weight
    }

    pub(crate) fn is_alias(&self, signal: u32) -> bool {
        self.facts(signal).root != signal
    }

    /// The place of the first one who needs a signal.
    pub(crate) fn first_user(&self, signal: u32) -> usize {
        self.facts(signal).user
    }

    /// Who needs it at a place, and the next place.
    pub(crate) fn user(&self, place: usize) -> Option<(u32, usize)> {
        let user = self.users.get(place)?;
        Some((user.node, user.next))
    }

    /// How many users of signals there are.
    pub(crate) fn user_count(&self) -> usize {
        self.users.len()
    }

    fn push_outputs(&mut self, logic: &Logic) -> Result<(), AllocError> {
        for output in logic.outputs() {
            self.outputs.push(output.signal())?;
        }
        Ok(())
    }

    // A signal more; its node's products and needs are in the open lists.
    fn push(&mut self, pass: Option<Pass>, facts: Facts) -> Result<(), AllocError> {
        self.passes.push(pass)?;
        self.facts.push(facts)?;
        self.sums.close()?;
        self.needs.close()
    }

    fn push_inputs(&mut self) -> Result<(), AllocError> {
        for input in 0..self.inputs {
            self.push(None, facts_of(number_of(input)))?;
        }
        Ok(())
    }

    // What the operands of a node need on lines.
    fn push_needs(&mut self, operands: &[u32]) -> Result<(), AllocError> {
        let asked = asked_of(self.sums.open());
        for i in 0..operands.len() {
            let root = self.facts(operands[i]).root;
            if is_asked(asked, i) && root != CONSTANT && !contains(self.needs.open(), root) {
                self.needs.push(root)?;
            }
        }
        Ok(())
    }

    // A node more.
    fn push_node(&mut self, alloc: Global, node: &Node) -> Result<(), AllocError> {
        push_products(alloc, node, &mut self.sums)?;
        self.push_needs(node.operands())?;
        let pass = pass_of(self.sums.open());
        let mut facts = facts_of(number_of(self.facts.len()));
        facts.price = price_of(self.sums.open());
        if pass.is_some() {
            facts.root = at(self.needs.open(), 0, CONSTANT);
        }
        self.push(pass, facts)
    }

    fn push_nodes(&mut self, alloc: Global, logic: &Logic) -> Result<(), AllocError> {
        for node in logic.nodes() {
            self.push_node(alloc, node)?;
        }
        Ok(())
    }

    // The outputs for which each signal is needed.
    fn set_cones(&mut self) {
        for p in 0..self.outputs.len() {
            let signal = at(&self.outputs, p, NONE);
            let mut facts = self.facts(signal);
            facts.cone |= 1u64 << (p % 64);
            facts.uses = facts.uses.saturating_add(1);
            self.put(signal, facts);
        }
        for place in (0..self.facts.len()).rev() {
            let signal = number_of(place);
            let cone = self.cone(signal);
            for i in 0..self.needs(signal).len() {
                let need = at(self.needs(signal), i, NONE);
                let mut facts = self.facts(need);
                facts.cone |= cone;
                self.put(need, facts);
            }
        }
    }

    // One more needs a signal.
    fn push_user(&mut self, need: u32, node: u32) -> Result<(), AllocError> {
        let mut facts = self.facts(need);
        let next = facts.user;
        facts.user = self.users.len();
        facts.uses = facts.uses.saturating_add(1);
        self.put(need, facts);
        self.users.push(User { node, next })?;
        Ok(())
    }

    // Who needs each signal, and how often.
    fn push_users(&mut self) -> Result<(), AllocError> {
        for place in 0..self.facts.len() {
            let node = number_of(place);
            if self.cone(node) != 0 {
                for i in 0..self.needs(node).len() {
                    let need = at(self.needs(node), i, NONE);
                    self.push_user(need, node)?;
                }
            }
        }
        Ok(())
    }

    // About how many lines a node takes.
    fn weight_of(&self, signal: u32) -> u32 {
        let (mut most, mut same) = (0u32, 0u32);
        for need in self.needs(signal) {
            let weight = self.weight(*need);
            if weight > most {
                most = weight;
                same = 0;
            }
            if weight == most && most > 0 {
                same = same.saturating_add(1);
            }
        }
        weight_over(most, same)
    }

    fn set_weights(&mut self) {
        for place in self.inputs..self.facts.len() {
            let signal = number_of(place);
            let mut facts = self.facts(signal);
            facts.weight = self.weight_of(signal);
            self.put(signal, facts);
        }
    }

    // Whether just one of the operands is this signal, which nothing else needs, and whose chain may grow.
    fn is_free(&self, operands: &[u32], signal: u32) -> bool {
        let mut same = 0u32;
        for other in operands {
            if self.facts(*other).root == signal {
                same = same.saturating_add(1);
            }
        }
        let facts = self.facts(signal);
        same == 1
            && facts.uses == 1
            && facts.root == signal
            && self.chain(signal).len() < MOST_IN_CHAIN
    }

    // The operand on whose line a node can be made: no other node needs it, and it is added as it is.
    fn start_of(&self, signal: u32, operands: &[u32]) -> Option<u8> {
        let products = self.sums.get(signal as usize);
        let (mut best, mut start) = (0u64, None);
        for i in 0..operands.len() {
            let gain = self.price(operands[i]).saturating_add(1);
            if gain > best && is_added(products, i) && self.is_free(operands, operands[i]) {
                best = gain;
                start = Some(i.min(15) as u8);
            }
        }
        start
    }

    // A chain needs a signal.
    fn push_chain_need(&mut self, need: u32) -> Result<(), AllocError> {
        if contains(self.chain_needs.open(), need) {
            return Ok(());
        }
        self.chain_needs.push(need)
    }

    // What the chain of a signal needs that goes on with another node's, or begins on an input.
    fn push_chain_needs(&mut self, signal: u32, inner: u32, base: u32) -> Result<(), AllocError> {
        for i in 0..self.needs(signal).len() {
            let need = at(self.needs(signal), i, NONE);
            if need != inner && need != base {
                self.push_chain_need(need)?;
            }
        }
        for i in 0..self.chain_needs(inner).len() {
            let need = at(self.chain_needs(inner), i, NONE);
            self.push_chain_need(need)?;
        }
        Ok(())
    }

    // The nodes of the chain of a signal that goes on with another node's.
    fn push_chain(&mut self, signal: u32, inner: u32) -> Result<(), AllocError> {
        self.chains.push(signal)?;
        for i in 0..self.chain(inner).len() {
            let node = at(self.chain(inner), i, NONE);
            self.chains.push(node)?;
        }
        Ok(())
    }

    // The nodes that are made with a node on one line.
    fn set_chain(&mut self, signal: u32, operands: &[u32]) -> Result<(), AllocError> {
        let mut facts = self.facts(signal);
        let mut inner = NONE;
        facts.start = self.start_of(signal, operands);
        if let Some(i) = facts.start {
            let operand = at(operands, usize::from(i), NONE);
            if (operand as usize) < self.inputs {
                facts.base = operand;
            } else {
                inner = operand;
                facts.base = self.base(operand);
            }
        }
        self.put(signal, facts);
        self.push_chain(signal, inner)?;
        self.push_chain_needs(signal, inner, facts.base)
    }

    // The next signal has its chain.
    fn close_chain(&mut self) -> Result<(), AllocError> {
        self.chains.close()?;
        self.chain_needs.close()
    }

    fn push_chains(&mut self, logic: &Logic) -> Result<(), AllocError> {
        for _ in 0..self.inputs {
            self.close_chain()?;
        }
        let nodes = logic.nodes();
        for k in 0..nodes.len() {
            let signal = number_of(self.inputs.saturating_add(k));
            if self.cone(signal) != 0 {
                self.set_chain(signal, nodes[k].operands())?;
            }
            self.close_chain()?;
        }
        Ok(())
    }

    fn fill(&mut self, alloc: Global, logic: &Logic) -> Result<(), AllocError> {
        self.push_outputs(logic)?;
        self.push_inputs()?;
        self.push_nodes(alloc, logic)?;
        self.set_cones();
        self.push_users()?;
        self.set_weights();
        self.push_chains(logic)
    }

    /// The products that a step adds: those of the node, without the one that is its start.
    pub fn products_for(
        &self,
        alloc: Global,
        signal: u32,
        start: Option<u8>,
    ) -> Result<Vec<Product>, AllocError> {
        let mut products = Vec::new(alloc);
        for product in self.sums.get(signal as usize) {
            let is_start = match start {
                Some(i) => product.care == 1u16 << (u32::from(i) % 16),
                None => false,
            };
            if !is_start {
                products.push(*product)?;
            }
        }
        Ok(products)
    }
}

/// The network of a logic network.
pub fn net_of(alloc: Global, logic: &Logic) -> Result<Net, AllocError> {
    let mut net = Net::new(alloc, logic.input_count() as usize);
    net.fill(alloc, logic)?;
    Ok(net)
}
