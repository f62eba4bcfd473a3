// Nodes by products.
use crate::chains::{Chains, polynomial};
use crate::form::Form;
use crate::lists::at;
use crate::net::{Both, Net};
use rv_blif::Node;
use std::alloc::{AllocError, Global};

// A table of up to so many operands is one number.
const SMALL: usize = 6;

// What a table, or a part of it, is made of.
type Operands = [Both; SMALL];

// The bit of a node at a set of operands.
fn value(node: &Node, set: u32) -> bool {
    let mut holds = false;
    for product in node.products() {
        if (set ^ u32::from(product.want)) & u32::from(product.care) == 0 {
            holds = true;
        }
    }
    holds == node.on()
}

// The first bits of a table of so many operands, again and again.
fn repeated(table: u64, count: u32) -> u64 {
    let places = 1u32 << count.min(6);
    let mut whole = 0u64;
    for set in 0..64u32 {
        whole |= (table >> (set % places.max(1)) & 1) << set;
    }
    whole
}

// The half of a table that has a bit at an operand, over the operands after it moved down by one.
fn half(table: u64, operand: usize, bit: bool) -> u64 {
    let operand = (operand % 6) as u32;
    let low = (1u32 << operand) - 1;
    let mut half = 0u64;
    for set in 0..32u32 {
        let place = set & low | (set & !low) << 1 | u32::from(bit) << operand;
        half |= (table >> (place % 64) & 1) << set;
    }
    repeated(half, 5)
}

// The operands without one.
fn without(operands: &Operands, operand: usize) -> Operands {
    let mut rest = [Both::zero(); SMALL];
    for place in 0..SMALL {
        let from = if place < operand {
            place
        } else {
            place.saturating_add(1)
        };
        rest[place] = at(operands, from, Both::zero());
    }
    rest
}

// How a table is taken apart by an operand: the half for it or against it, and the two halves' sum times the operand,
// or its opposite; and the products that this takes.
#[derive(Clone, Copy)]
struct Split {
    operand: usize,
    turned: bool,
    price: u32,
}

// The split by an operand, of which there are so many others.
#[cycle(pricing)]
fn split_by(chains: &mut Chains, table: u64, others: u8, operand: usize) -> Split {
    let (low, high) = (half(table, operand, false), half(table, operand, true));
    let both = low ^ high;
    let (x, y) = (price(chains, low, others), price(chains, high, others));
    let more = if both == 0 || both == u64::MAX {
        0
    } else {
        price(chains, both, others).saturating_add(1)
    };
    Split {
        operand,
        turned: y < x,
        price: x.min(y).saturating_add(more),
    }
}

// The cheapest split by an operand, of which there are so many others.
#[cycle(pricing)]
fn best_split(chains: &mut Chains, table: u64, others: u8) -> Split {
    let mut best = Split {
        operand: 0,
        turned: false,
        price: u32::MAX,
    };
    for operand in 0..usize::from(others).saturating_add(1) {
        let split = split_by(chains, table, others, operand);
        if split.price < best.price {
            best = split;
        }
    }
    best
}

// How many products a table of so many operands takes.
#[cycle(pricing)]
fn price(chains: &mut Chains, table: u64, count: u8) -> u32 {
    if count <= 4 {
        return u32::from(chains.chain((table & 0xFFFF) as u16).count);
    }
    best_split(chains, table, count - 1).price
}

// The sum of a set of forms.
fn sum_of(forms: &[Both], set: u8) -> Both {
    let mut sum = Both::zero();
    for place in 0..8usize {
        if set >> place & 1 == 1 {
            sum = sum.plus(at(forms, place, Both::zero()));
        }
    }
    sum
}

// A linear function of operands.
fn linear(table: u16, operands: &[Both]) -> Both {
    let form = polynomial(table);
    let mut sum = Both::zero().turned(form & 1 == 1);
    for (place, bit) in [2u16, 4, 16, 256].into_iter().enumerate() {
        if form & bit != 0 {
            sum = sum.plus(at(operands, place, Both::zero()));
        }
    }
    sum
}

// The form of a table of four operands.
fn small(
    net: &mut Net,
    chains: &mut Chains,
    table: u16,
    operands: &Operands,
) -> Result<Both, AllocError> {
    let chain = chains.chain(table);
    chains.follow(chain);
    let mut forms = [Both::zero(); 7];
    for place in 0..4 {
        forms[place] = operands[place];
    }
    let (mut rest, mut sum) = (table, Both::zero());
    for number in 0..3usize {
        if number < usize::from(chain.count) {
            let (one, other) = chain.factors(number);
            let product = net.multiply(sum_of(&forms, one), sum_of(&forms, other))?;
            forms[4 + number] = product;
            if chain.out >> number & 1 == 1 {
                sum = sum.plus(product);
                rest ^= chains.sum(16 << number);
            }
        }
    }
    Ok(sum.plus(linear(rest, operands)))
}

// The form of a table of so many operands.
fn build(
    net: &mut Net,
    chains: &mut Chains,
    table: u64,
    count: u8,
    operands: &Operands,
) -> Result<Both, AllocError> {
    if count <= 4 {
        return small(net, chains, (table & 0xFFFF) as u16, operands);
    }
    let others = count - 1;
    let split = best_split(chains, table, others);
    let (low, high) = (
        half(table, split.operand, false),
        half(table, split.operand, true),
    );
    let rest = without(operands, split.operand);
    let base = if split.turned { high } else { low };
    let sum = build(net, chains, base, others, &rest)?;
    let factor = build(net, chains, low ^ high, others, &rest)?;
    let operand = at(operands, split.operand, Both::zero());
    let product = net.multiply(operand.turned(split.turned), factor)?;
    Ok(sum.plus(product))
}

// How many bits of a table are 1, or 0 where that is fewer.
fn ones(table: &[bool]) -> usize {
    let ones = table.iter().filter(|bit| **bit).count();
    ones.min((table.len().saturating_sub(ones)).saturating_add(1))
}

// The exclusive or of two tables.
fn both_of(alloc: Global, low: &[bool], high: &[bool]) -> Result<Vec<bool>, AllocError> {
    let mut both = Vec::new(alloc);
    for (a, b) in low.iter().zip(high.iter()) {
        both.push(*a != *b)?;
    }
    Ok(both)
}

// A table of few operands as a number.
fn packed(table: &[bool]) -> u64 {
    let mut bits = 0u64;
    for set in 0..64usize {
        bits |= u64::from(at(table, set, false)) << set;
    }
    bits
}

// The first operands.
fn first_of(operands: &[Both]) -> Operands {
    let mut first = [Both::zero(); SMALL];
    for place in 0..SMALL {
        first[place] = at(operands, place, Both::zero());
    }
    first
}

// The form of a table, by its last operands first.
fn build_large(
    alloc: Global,
    net: &mut Net,
    chains: &mut Chains,
    table: &[bool],
    operands: &[Both],
) -> Result<Both, AllocError> {
    let count = operands.len().min(SMALL) as u8;
    let first = first_of(operands);
    let Some((last, rest)) = operands.split_last() else {
        return build(net, chains, repeated(packed(table), 0), 0, &first);
    };
    if rest.len() < SMALL {
        let table = repeated(packed(table), u32::from(count));
        return build(net, chains, table, count, &first);
    }
    let (low, high) = table.split_at(table.len() / 2);
    if low == high {
        return build_large(alloc, net, chains, low, rest);
    }
    let both = both_of(alloc, low, high)?;
    let turned = ones(high) < ones(low);
    let base = if turned { high } else { low };
    let sum = build_large(alloc, net, chains, base, rest)?;
    let factor = build_large(alloc, net, chains, &both, rest)?;
    let product = net.multiply(last.turned(turned), factor)?;
    Ok(sum.plus(product))
}

// The table of a node.
fn table_of(alloc: Global, node: &Node) -> Result<Vec<bool>, AllocError> {
    let count = node.operands().len();
    let mut table = Vec::new(alloc);
    for set in 0..1u32 << (count % 32) {
        table.push(value(node, set))?;
    }
    Ok(table)
}

/// Adds a node to a network.
pub(crate) fn push_node(
    alloc: Global,
    net: &mut Net,
    chains: &mut Chains,
    node: &Node,
) -> Result<(), AllocError> {
    let mut operands = Vec::new(alloc);
    for signal in node.operands() {
        let operand = Both {
            node: Form::of(operands.len()),
            network: net.signal(*signal),
        };
        operands.push(operand)?;
    }
    let table = table_of(alloc, node)?;
    let form = build_large(alloc, net, chains, &table, &operands)?;
    net.close(form)
}
