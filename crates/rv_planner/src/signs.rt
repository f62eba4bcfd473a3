// The signs of factors by which forms are short.
use crate::form::{FIRST, Form, MOST_PRODUCTS};
use crate::lists::{at, put_at};
use crate::net::Net;
use std::alloc::{AllocError, Global};

// All products are gone through at most so often.
const MOST_ROUNDS: usize = 4;

// The columns of all factors and outputs that are needed.
fn weight_of(net: &Net, needed: &Form) -> u32 {
    let mut weight = 0u32;
    for number in 0..net.products.len() {
        if needed.has(number.saturating_add(FIRST)) {
            let factors = net.product(number);
            weight = weight
                .saturating_add(factors.one.weight())
                .saturating_add(factors.other.weight());
        }
    }
    for out in &net.outs {
        weight = weight.saturating_add(out.weight());
    }
    weight
}

/// A form in which each product is a form.
pub(crate) fn substituted(forms: &[Form], form: Form) -> Form {
    let mut sum = form.inputs_of();
    let mut rest = form.products();
    for _ in 0..MOST_PRODUCTS {
        let Some(column) = rest.first() else {
            return sum;
        };
        rest = rest.with(column);
        sum = sum.plus(at(forms, column.saturating_sub(FIRST), Form::zero()));
    }
    sum
}

/// The same products with these signs.
pub(crate) fn signed(alloc: Global, net: &Net, signs: &[u8]) -> Result<Net, AllocError> {
    let mut made = Net::new(alloc, net.inputs);
    made.set_signs(signs)?;
    let mut forms = Vec::new(alloc);
    for number in 0..net.products.len() {
        let factors = net.product(number);
        let one = substituted(&forms, factors.one);
        let other = substituted(&forms, factors.other);
        forms.push(made.multiply_forms(one, other)?)?;
    }
    for out in &net.outs {
        made.push_out(substituted(&forms, *out))?;
    }
    Ok(made)
}

/// Signs for the products of a network, with which its forms are short.
pub(crate) fn best_signs(alloc: Global, net: &Net) -> Result<Vec<u8>, AllocError> {
    let needed = net.needed();
    let mut signs = vec![in alloc; 0; net.products.len()]?;
    let mut least = weight_of(net, &needed);
    for _ in 0..MOST_ROUNDS {
        let before = least;
        for number in 0..net.products.len() {
            for sign in 0..4 {
                let old = at(&signs, number, 0);
                put_at(&mut signs, number, sign);
                let made = signed(alloc, net, &signs)?;
                let weight = weight_of(&made, &needed);
                if weight < least {
                    least = weight;
                } else {
                    put_at(&mut signs, number, old);
                }
            }
        }
        if least == before {
            return Ok(signs);
        }
    }
    Ok(signs)
}
