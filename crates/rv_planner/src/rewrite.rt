// A network in which a chain stands for a group of products.
use crate::form::{FIRST, Form};
use crate::group::Group;
use crate::lists::{at, put_at};
use crate::long_chains::{LongChain, MOST_IN_CHAIN};
use crate::net::Net;
use crate::signs::substituted;
use crate::span::Span;
use crate::tables::OPERANDS;
use std::alloc::{AllocError, Global};

/// The sum that stands for members of a group: of a chain's products, and of forms of its span.
#[derive(Clone, Copy)]
pub(crate) struct Part {
    pub(crate) pattern: u16,
    pub(crate) products: u8,
    pub(crate) operands: u8,
    pub(crate) constant: bool,
}

/// A chain over a span that stands for a group.
#[derive(Drop)]
pub(crate) struct Change {
    pub(crate) group: Group,
    pub(crate) span: Span,
    pub(crate) chain: LongChain,
    pub(crate) parts: Vec<Part>,
}

// The network that is made, and the forms in it of the products of the old one, as far as they are known; the forms of
// the span, and the products of the chain.
#[derive(Drop)]
struct Rewriter {
    net: Net,
    forms: Vec<Form>,
    known: Form,
    operands: [Form; OPERANDS],
    products: [Form; MOST_IN_CHAIN],
    is_made: bool,
}

// The sum of forms.
fn sum_of(forms: &[Form], set: u16) -> Form {
    let mut sum = Form::zero();
    for place in 0..16usize {
        if set >> place & 1 == 1 {
            sum = sum.plus(at(forms, place, Form::zero()));
        }
    }
    sum
}

impl Rewriter {
    fn new(alloc: Global, old: &Net) -> Result<Rewriter, AllocError> {
        Ok(Rewriter {
            net: Net::new(alloc, old.inputs),
            forms: vec![in alloc; Form::zero(); old.products.len()]?,
            known: Form::zero(),
            operands: [Form::zero(); OPERANDS],
            products: [Form::zero(); MOST_IN_CHAIN],
            is_made: false,
        })
    }

    // A form of the old network without members of the group, if all that it needs is known.
    fn plain(&self, form: &Form) -> Option<Form> {
        if form.products().is_within(&self.known) {
            Some(substituted(&self.forms, *form))
        } else {
            None
        }
    }

    // The sum for members.
    fn part(&self, change: &Change, pattern: u16) -> Form {
        for part in &change.parts {
            if part.pattern == pattern {
                let products = sum_of(&self.products, u16::from(part.products));
                let operands = sum_of(&self.operands, u16::from(part.operands));
                return products.plus(operands).turned(part.constant);
            }
        }
        Form::zero()
    }

    // A form of the old network, if all that it needs is known.
    fn form(&self, change: &Change, form: &Form) -> Option<Form> {
        let pattern = change.group.pattern(form);
        if pattern != 0 && !self.is_made {
            return None;
        }
        let plain = self.plain(&form.without(&change.group.columns))?;
        Some(if pattern == 0 {
            plain
        } else {
            plain.plus(self.part(change, pattern))
        })
    }

    // The product of two sets of forms of the span and products of the chain.
    fn chain_product(&mut self, change: &Change, number: usize) -> Result<Form, AllocError> {
        let operands = u32::from(change.span.count().min(5));
        let (one, other) = change.chain.factors(number);
        let low = (1u16 << operands).wrapping_sub(1);
        let a = sum_of(&self.operands, one & low).plus(sum_of(&self.products, one >> operands));
        let b = sum_of(&self.operands, other & low).plus(sum_of(&self.products, other >> operands));
        self.net.multiply_forms(a, b)
    }

    // Makes the chain, if all that it needs is known.
    fn make(&mut self, change: &Change) -> Result<(), AllocError> {
        if self.is_made {
            return Ok(());
        }
        for place in 0..OPERANDS {
            match self.plain(&change.span.form(place)) {
                Some(form) => self.operands[place] = form,
                None => return Ok(()),
            }
        }
        for number in 0..usize::from(change.chain.count).min(MOST_IN_CHAIN) {
            let product = self.chain_product(change, number)?;
            self.products[number] = product;
        }
        self.is_made = true;
        Ok(())
    }

    // Makes a product of the old network, if all that it needs is known.
    fn step(&mut self, old: &Net, change: &Change, number: usize) -> Result<(), AllocError> {
        let column = number.saturating_add(FIRST);
        if self.known.has(column) || change.group.has(number) {
            return Ok(());
        }
        self.make(change)?;
        let factors = old.product(number);
        let (one, other) = (
            self.form(change, &factors.one),
            self.form(change, &factors.other),
        );
        if let (Some(one), Some(other)) = (one, other) {
            let form = self.net.multiply_forms(one, other)?;
            put_at(&mut self.forms, number, form);
            self.known = self.known.with(column);
        }
        Ok(())
    }

    // Makes all products that are needed.
    fn steps(&mut self, old: &Net, change: &Change) -> Result<(), AllocError> {
        let needed = old.needed();
        for _ in 0..old.products.len() {
            let before = self.known;
            for number in 0..old.products.len() {
                if needed.has(number.saturating_add(FIRST)) {
                    self.step(old, change, number)?;
                }
            }
            if self.known.is(&before) {
                break;
            }
        }
        self.make(change)
    }

    // Whether the outputs could be made.
    fn push_outs(&mut self, old: &Net, change: &Change) -> Result<bool, AllocError> {
        for out in &old.outs {
            match self.form(change, out) {
                Some(form) => self.net.push_out(form)?,
                None => return Ok(false),
            }
        }
        Ok(true)
    }
}

/// A network with a change, if it can be made.
pub(crate) fn changed(
    alloc: Global,
    old: &Net,
    change: &Change,
) -> Result<Option<Net>, AllocError> {
    let mut rewriter = Rewriter::new(alloc, old)?;
    rewriter.steps(old, change)?;
    if !rewriter.push_outs(old, change)? {
        return Ok(None);
    }
    Ok(Some(cleaned(alloc, &rewriter.net)?))
}

/// The products that the outputs need.
pub(crate) fn cleaned(alloc: Global, net: &Net) -> Result<Net, AllocError> {
    let needed = net.needed();
    let mut made = Net::new(alloc, net.inputs);
    let mut forms = Vec::new(alloc);
    for number in 0..net.products.len() {
        let mut form = Form::zero();
        if needed.has(number.saturating_add(FIRST)) {
            let factors = net.product(number);
            let one = substituted(&forms, factors.one);
            let other = substituted(&forms, factors.other);
            form = made.multiply_forms(one, other)?;
        }
        forms.push(form)?;
    }
    for out in &net.outs {
        made.push_out(substituted(&forms, *out))?;
    }
    Ok(made)
}
