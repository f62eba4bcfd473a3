// A network by fewer products.
use crate::form::{FIRST, Form};
use crate::group::Group;
use crate::lists::{at, put_at};
use crate::long_chains::LongChains;
use crate::net::Net;
use crate::random::Random;
use crate::regroup::regrouped;
use crate::rewrite::cleaned;
use crate::span::Span;
use std::alloc::{AllocError, Global};

// A group grows to so many products, and its span to so many forms.
const MOST_GROWN: usize = 5;

const MOST_FORMS: u8 = 5;

// From one product so many groups are looked at.
const MOST_QUEUED: usize = 120;

const MOST_SEEN: usize = 1 << 16;

// So many rounds bring no gain at the end, at most.
const MOST_FAILURES: u32 = 30;

const MOST_ROUNDS: usize = 1 << 12;

// So much work for each unit of effort.
const WORK: u64 = 1 << 23;

// Looks for groups that a shorter chain can stand for.
#[derive(Drop)]
struct Regrouper {
    chains: LongChains,
    random: Random,
    // the groups that were met, most likely
    seen: Vec<u64>,
    queue: Vec<Group>,
    ancestors: Vec<Form>,
    order: Vec<usize>,
    // whether as many products are enough
    equal: bool,
    work: u64,
    most: u64,
}

// Of each product those that it needs, and itself.
fn push_ancestors(net: &Net, ancestors: &mut Vec<Form>) -> Result<(), AllocError> {
    ancestors.clear();
    for number in 0..net.products.len() {
        let mut above = Form::of(number.saturating_add(FIRST));
        let needs = net.product(number).needs();
        for other in 0..number {
            if needs.has(other.saturating_add(FIRST)) {
                above = above.either(at(ancestors, other, Form::zero()));
            }
        }
        ancestors.push(above)?;
    }
    Ok(())
}

// Whether two networks have the same products.
fn are_same(one: &Net, other: &Net) -> bool {
    for number in 0..one.products.len() {
        let factors = other.product(number);
        if !one.product(number).are(&factors.one, &factors.other) {
            return false;
        }
    }
    true
}

impl Regrouper {
    fn new(alloc: Global, seed: u16, effort: u32) -> Result<Regrouper, AllocError> {
        Ok(Regrouper {
            chains: LongChains::new(alloc)?,
            random: Random::new(seed),
            seen: vec![in alloc; 0; MOST_SEEN]?,
            queue: Vec::new(alloc),
            ancestors: Vec::new(alloc),
            order: Vec::new(alloc),
            equal: false,
            work: 0,
            most: u64::from(effort).saturating_mul(WORK),
        })
    }

    // Whether there is work left.
    fn is_on(&self) -> bool {
        self.work.saturating_add(self.chains.work) < self.most
    }

    fn spend(&mut self, work: usize) {
        self.work = self.work.saturating_add(work as u64);
    }

    // Whether a group is met for the first time, most likely.
    fn is_new(&mut self, group: &Group) -> bool {
        let hash = group.hash();
        let slot = (hash >> 48) as usize;
        let is_new = at(&self.seen, slot, 0) != hash;
        put_at(&mut self.seen, slot, hash);
        is_new
    }

    // The network with a group made in another way, if that is better.
    fn try_group(
        &mut self,
        alloc: Global,
        net: &Net,
        group: &Group,
        span: &Span,
    ) -> Result<Option<Net>, AllocError> {
        let count = net.products.len();
        self.spend(count.saturating_mul(8));
        let limit = group.count().saturating_add(usize::from(self.equal));
        let made = regrouped(
            alloc,
            net,
            group,
            span,
            &self.ancestors,
            &mut self.chains,
            limit,
        )?;
        let Some(made) = made else {
            return Ok(None);
        };
        self.spend(count.saturating_mul(count));
        let fewer = made.products.len() < count;
        let other = self.equal && made.products.len() == count && !are_same(net, &made);
        Ok(if fewer || other { Some(made) } else { None })
    }

    // The same of a group and of all that its span has.
    fn try_both(
        &mut self,
        alloc: Global,
        net: &Net,
        group: &Group,
        span: &Span,
    ) -> Result<Option<Net>, AllocError> {
        let made = self.try_group(alloc, net, group, span)?;
        if made.is_some() {
            return Ok(made);
        }
        self.spend(net.products.len().saturating_mul(8));
        let closed = group.closed(net, span);
        if closed.count() == group.count() || !self.is_new(&closed) {
            return Ok(None);
        }
        self.try_group(alloc, net, &closed, span)
    }

    // The same of a group with a product more, which may grow from then on.
    fn try_with(
        &mut self,
        alloc: Global,
        net: &Net,
        group: &Group,
        product: usize,
    ) -> Result<Option<Net>, AllocError> {
        let grown = group.with(product);
        if !self.is_new(&grown) {
            return Ok(None);
        }
        let span = grown.span(net);
        if span.count() > MOST_FORMS + 1 {
            return Ok(None);
        }
        if grown.count() < MOST_GROWN {
            self.queue.push(grown)?;
        }
        if span.count() > MOST_FORMS {
            return Ok(None);
        }
        self.try_both(alloc, net, &grown, &span)
    }

    // The same of the groups with a product more.
    fn grow(&mut self, alloc: Global, net: &Net, group: &Group) -> Result<Option<Net>, AllocError> {
        let span = group.span(net);
        self.spend(net.products.len().saturating_mul(4));
        for product in 0..net.products.len() {
            if !group.has(product) && group.touches(net, &span, product) {
                let made = self.try_with(alloc, net, group, product)?;
                if made.is_some() {
                    return Ok(made);
                }
            }
        }
        Ok(None)
    }

    // The same of the groups around a product.
    fn around(
        &mut self,
        alloc: Global,
        net: &Net,
        product: usize,
    ) -> Result<Option<Net>, AllocError> {
        self.queue.clear();
        self.queue.push(Group::none().with(product))?;
        for place in 0..MOST_QUEUED {
            let group = at(&self.queue, place, Group::none());
            if group.count() == 0 || self.queue.len() >= MOST_QUEUED || !self.is_on() {
                return Ok(None);
            }
            let made = self.grow(alloc, net, &group)?;
            if made.is_some() {
                return Ok(made);
            }
        }
        Ok(None)
    }

    // The products in an order by chance.
    fn shuffle(&mut self, count: usize) -> Result<(), AllocError> {
        self.order.clear();
        for product in 0..count {
            let place = self.random.below(product + 1);
            let there = at(&self.order, place, product);
            self.order.push(there)?;
            put_at(&mut self.order, place, product);
        }
        Ok(())
    }

    // The first better network that is found.
    fn pass(&mut self, alloc: Global, net: &Net, equal: bool) -> Result<Option<Net>, AllocError> {
        self.equal = equal;
        push_ancestors(net, &mut self.ancestors)?;
        for slot in 0..MOST_SEEN {
            put_at(&mut self.seen, slot, 0);
        }
        self.spend(MOST_SEEN / 4);
        self.shuffle(net.products.len())?;
        for place in 0..net.products.len() {
            let product = at(&self.order, place, 0);
            let made = self.around(alloc, net, product)?;
            if made.is_some() {
                return Ok(made);
            }
        }
        Ok(None)
    }

    // The network after all gains.
    fn gained(&mut self, alloc: Global, net: Net) -> Result<Net, AllocError> {
        let mut net = net;
        for _ in 0..MOST_ROUNDS {
            match self.pass(alloc, &net, false)? {
                Some(made) => net = made,
                None => return Ok(net),
            }
        }
        Ok(net)
    }

    // A network with as many products, made in other ways.
    fn exchanged(&mut self, alloc: Global, net: &Net) -> Result<Net, AllocError> {
        let mut made = cleaned(alloc, net)?;
        for _ in 0..self.random.below(4).saturating_add(1) {
            if let Some(other) = self.pass(alloc, &made, true)? {
                made = other;
            }
        }
        Ok(made)
    }
}

/// A network with the same outputs by fewer products, as far as they are found.
pub(crate) fn fewer(alloc: Global, net: &Net, seed: u16, effort: u32) -> Result<Net, AllocError> {
    let mut regrouper = Regrouper::new(alloc, seed, effort)?;
    let first = cleaned(alloc, net)?;
    let mut best = regrouper.gained(alloc, first)?;
    let mut current = cleaned(alloc, &best)?;
    let mut failures = 0u32;
    for _ in 0..MOST_ROUNDS {
        if failures >= MOST_FAILURES || !regrouper.is_on() {
            return Ok(best);
        }
        let other = regrouper.exchanged(alloc, &current)?;
        current = regrouper.gained(alloc, other)?;
        if current.products.len() < best.products.len() {
            best = cleaned(alloc, &current)?;
            failures = 0;
        } else {
            failures = failures.saturating_add(1);
        }
    }
    Ok(best)
}
