// A group of products by a shorter chain.
use crate::form::{FIRST, Form};
use crate::group::{Group, MOST_MEMBERS};
use crate::lists::at;
use crate::long_chains::{LongChain, LongChains, MOST_IN_CHAIN};
use crate::net::Net;
use crate::rewrite::{Change, Part, changed};
use crate::rows::Rows;
use crate::span::Span;
use crate::tables::{key_of, linear_table, operands_of, polynomial};
use std::alloc::{AllocError, Global};

// Whether a form of the span needs a member of the group.
fn is_entangled(group: &Group, span: &Span, ancestors: &[Form]) -> bool {
    for place in 0..usize::from(span.count()) {
        let mut rest = span.form(place).products();
        for _ in 0..ancestors.len() {
            let Some(column) = rest.first() else {
                break;
            };
            rest = rest.with(column);
            let above = at(ancestors, column.saturating_sub(FIRST), Form::zero());
            if !above.within(group.columns).is_empty() {
                return true;
            }
        }
    }
    false
}

// The exclusive or of the tables of some members.
fn sum_of(tables: &[u32], pattern: u16) -> u32 {
    let mut sum = 0;
    for place in 0..16usize {
        if pattern >> place & 1 == 1 {
            sum ^= at(tables, place, 0);
        }
    }
    sum
}

// The tables of the members over a span.
fn tables_of(net: &Net, group: &Group, span: &Span) -> [u32; MOST_MEMBERS] {
    let mut tables = [0; MOST_MEMBERS];
    for place in 0..group.count().min(MOST_MEMBERS) {
        let factors = net.product(group.member(place));
        let one = table_of(group, span, &tables, &factors.one);
        let other = table_of(group, span, &tables, &factors.other);
        tables[place] = one & other;
    }
    tables
}

// The table of a form over a span and members.
fn table_of(group: &Group, span: &Span, tables: &[u32], form: &Form) -> u32 {
    let (_, set) = span.reduced(&form.without(&group.columns));
    let table = linear_table(set) ^ sum_of(tables, group.pattern(form));
    if form.constant { !table } else { table }
}

// Notes which members a form has, if these weren't met before.
fn note(group: &Group, form: &Form, patterns: &mut Vec<u16>) -> Result<(), AllocError> {
    let pattern = group.pattern(form);
    if pattern != 0 && !patterns.iter().any(|other| *other == pattern) {
        patterns.push(pattern)?;
    }
    Ok(())
}

// The sums of members that are needed outside of the group.
fn patterns_of(alloc: Global, net: &Net, group: &Group) -> Result<Vec<u16>, AllocError> {
    let mut patterns = Vec::new(alloc);
    for number in 0..net.products.len() {
        if !group.has(number) {
            let factors = net.product(number);
            note(group, &factors.one, &mut patterns)?;
            note(group, &factors.other, &mut patterns)?;
        }
    }
    for out in &net.outs {
        note(group, out, &mut patterns)?;
    }
    Ok(patterns)
}

// The products of a chain whose sum is a table, up to a linear function.
fn part_of(chain: &LongChain, tables: &[u32], pattern: u16, table: u32) -> Option<Part> {
    for products in 0..1u16 << u32::from(chain.count.min(7)) {
        let rest = table ^ sum_of(tables, products);
        if key_of(rest) == 0 {
            return Some(Part {
                pattern,
                products: (products & 255) as u8,
                operands: operands_of(rest),
                constant: polynomial(rest) & 1 == 1,
            });
        }
    }
    None
}

// The sums of a chain for all that is needed.
fn parts_of(
    alloc: Global,
    chain: &LongChain,
    tables: &[u32],
    patterns: &[u16],
    members: &[u32],
) -> Result<Option<Vec<Part>>, AllocError> {
    let mut parts = Vec::new(alloc);
    for pattern in patterns {
        match part_of(chain, tables, *pattern, sum_of(members, *pattern)) {
            Some(part) => parts.push(part)?,
            None => return Ok(None),
        }
    }
    Ok(Some(parts))
}

/// A network in which a group is made by a chain of fewer products than so many, if one is found.
pub(crate) fn regrouped(
    alloc: Global,
    net: &Net,
    group: &Group,
    span: &Span,
    ancestors: &[Form],
    chains: &mut LongChains,
    limit: usize,
) -> Result<Option<Net>, AllocError> {
    if is_entangled(group, span, ancestors) {
        return Ok(None);
    }
    let members = tables_of(net, group, span);
    let patterns = patterns_of(alloc, net, group)?;
    let mut keys = Rows::none();
    for pattern in &patterns {
        keys = keys.with(key_of(sum_of(&members, *pattern)));
    }
    let Some(chain) = chains.find(&keys, span.count(), limit) else {
        return Ok(None);
    };
    let tables = chains.follow(&chain, span.count());
    let Some(parts) = parts_of(alloc, &chain, &tables, &patterns, &members)? else {
        return Ok(None);
    };
    let change = Change {
        group: *group,
        span: *span,
        chain,
        parts,
    };
    changed(alloc, net, &change)
}
