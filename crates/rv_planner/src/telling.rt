// What is told of plans.
use crate::flip::Flip;
use crate::form::{COLUMNS, FIRST, Form};
use crate::lists::at;
use crate::net::{Factors, NONE, Net};
use crate::plan::Plan;
use rv_blif::Logic;
use rv_forms::{Form as Sum, Recipe, Term};
use rv_gate::Gate;
use std::alloc::{AllocError, Global};

// A form, where the products come after so many columns.
fn sum_of(alloc: Global, form: &Form, first: usize) -> Result<Sum, AllocError> {
    let mut columns = Vec::new(alloc);
    for column in 0..COLUMNS {
        if form.has(column) {
            let number = if column < FIRST {
                column
            } else {
                first.min(FIRST) + (column - FIRST)
            };
            columns.push(number as u32)?;
        }
    }
    Ok(Sum {
        columns,
        constant: form.constant,
    })
}

fn term_of(alloc: Global, factors: &Factors, first: usize) -> Result<Term, AllocError> {
    let mut sums = Vec::new(alloc);
    sums.push(sum_of(alloc, &factors.one, first)?)?;
    sums.push(sum_of(alloc, &factors.other, first)?)?;
    Ok(Term { factors: sums })
}

/// The terms of a network.
pub(crate) fn terms_of(alloc: Global, net: &Net) -> Result<Vec<Term>, AllocError> {
    let mut terms = Vec::new(alloc);
    for factors in &net.products {
        terms.push(term_of(alloc, factors, net.inputs)?)?;
    }
    Ok(terms)
}

/// The sums of the outputs.
pub(crate) fn outs_of(alloc: Global, net: &Net) -> Result<Vec<Sum>, AllocError> {
    let mut outs = Vec::new(alloc);
    for out in &net.outs {
        outs.push(sum_of(alloc, out, net.inputs)?)?;
    }
    Ok(outs)
}

// The recipe of a node of so many operands.
fn recipe_of(alloc: Global, net: &Net, node: usize, operands: usize) -> Result<Recipe, AllocError> {
    let mut terms = Vec::new(alloc);
    let mut numbers = Vec::new(alloc);
    for told in net.told(node) {
        terms.push(term_of(alloc, &told.factors, operands)?)?;
        numbers.push(told.number)?;
    }
    let form = sum_of(alloc, &net.form(node), operands)?;
    Ok(Recipe {
        terms,
        numbers,
        form,
    })
}

/// The recipes of the nodes.
pub(crate) fn recipes_of(
    alloc: Global,
    net: &Net,
    logic: &Logic,
) -> Result<Vec<Recipe>, AllocError> {
    let mut recipes = Vec::new(alloc);
    let nodes = logic.nodes();
    for node in 0..nodes.len() {
        let operands = nodes[node].operands().len();
        recipes.push(recipe_of(alloc, net, node, operands)?)?;
    }
    Ok(recipes)
}

/// The plan of flips, if each is a gate.
pub(crate) fn plan_of(
    alloc: Global,
    flips: &[Flip],
    work: u8,
    price: u64,
) -> Result<Option<Plan>, AllocError> {
    let mut gates = Vec::new(alloc);
    let mut numbers = Vec::new(alloc);
    for place in 0..flips.len() {
        let flip = at(flips, place, Flip::not(0));
        let Some(gate) = Gate::flip(flip.care, flip.want, flip.target) else {
            return Ok(None);
        };
        gates.push(gate)?;
        numbers.push(if flip.number == NONE {
            None
        } else {
            Some(flip.number)
        })?;
    }
    Ok(Some(Plan {
        work,
        gates,
        numbers,
        price,
    }))
}
