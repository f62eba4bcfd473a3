// Products for a table whose outputs tell of a word only how many ones it has: those that count them.
use crate::cells::{at, bit, has, number_of, put_at, size_of};
use crate::step::{MOST_FORMS, Step};
use crate::task::Task;
use std::alloc::{AllocError, Global};

// Products on coordinates of their own, and how many coordinates there are.
#[derive(Drop)]
struct Products {
    steps: Vec<Step>,
    dimension: usize,
}

// The lowest bit of a sum, and what is carried.
#[derive(Drop)]
struct Sum {
    low: u32,
    carries: Vec<u32>,
}

impl Products {
    // Makes a product of forms. Gives the form of its coordinate.
    fn add(&mut self, forms: &[u32]) -> Result<u32, AllocError> {
        self.steps.push(Step::of(forms, u32::MAX))?;
        let own = bit(self.dimension);
        self.dimension = self.dimension.saturating_add(1);
        Ok(own)
    }

    // Makes the product of some bits, if they are two at least.
    fn add_term(&mut self, bits: &[u32], term: usize) -> Result<(), AllocError> {
        let mut forms = [0u32; MOST_FORMS];
        let mut count = 0usize;
        for k in 0..bits.len() {
            if has(number_of(term), k) {
                put_at(&mut forms, count, at(bits, k, 0));
                count = count.saturating_add(1);
            }
        }
        if count > 1 && count <= MOST_FORMS {
            let _ = self.add(forms.get(..count).unwrap_or(&[]))?;
        }
        Ok(())
    }

    // Makes the products of bits that outputs have among their terms.
    fn add_terms(&mut self, terms: &[u32], bits: &[u32]) -> Result<(), AllocError> {
        for term in 0..terms.len() {
            if at(terms, term, 0) != 0 {
                self.add_term(bits, term)?;
            }
        }
        Ok(())
    }

    // Adds forms: the first two or three of them, and their sum comes last.
    fn sum(&mut self, alloc: Global, forms: Vec<u32>) -> Result<Sum, AllocError> {
        let mut forms = forms;
        let mut carries = Vec::new(alloc);
        for k in 0..forms.len() / 2 {
            let place = k.saturating_mul(3);
            let a = at(&forms, place, 0);
            let b = at(&forms, place.saturating_add(1), 0);
            let c = at(&forms, place.saturating_add(2), 0);
            let own = self.add(&[a ^ b, a ^ c])?;
            carries.push(own ^ a)?;
            forms.push(a ^ b ^ c)?;
        }
        Ok(Sum {
            low: at(&forms, forms.len().saturating_sub(1), 0),
            carries,
        })
    }

    // So many of the lowest bits of how many forms hold, the lowest first.
    fn count(&mut self, alloc: Global, forms: Vec<u32>, most: u32) -> Result<Vec<u32>, AllocError> {
        let mut left = forms;
        let mut bits = Vec::new(alloc);
        for _ in 1..most {
            let sum = self.sum(alloc, left)?;
            bits.push(sum.low)?;
            left = sum.carries;
        }
        bits.push(sum_of(&left))?;
        Ok(bits)
    }
}

fn sum_of(forms: &[u32]) -> u32 {
    let mut sum = 0u32;
    for form in forms {
        sum ^= *form;
    }
    sum
}

// A word with so many ones.
fn word_of(count: usize) -> usize {
    size_of(count).saturating_sub(1)
}

pub(crate) fn is_symmetric(task: &Task) -> bool {
    for word in 0..task.ones.len() {
        let same = word_of(word.count_ones() as usize);
        if at(&task.ones, word, 0) != at(&task.ones, same, 0) {
            return false;
        }
    }
    true
}

// Of each count, the outputs that have the product of its bits among their terms.
pub(crate) fn terms_of(alloc: Global, task: &Task) -> Result<Vec<u32>, AllocError> {
    let mut terms = vec![in alloc; 0u32; task.inputs.saturating_add(1)]?;
    for count in 0..terms.len() {
        let mut term = at(&task.ones, word_of(count), 0);
        for part in 0..count {
            if part & count == part {
                term ^= at(&terms, part, 0);
            }
        }
        put_at(&mut terms, count, term);
    }
    Ok(terms)
}

// How many bits of the count the terms have.
fn most_bits(terms: &[u32]) -> u32 {
    let mut all = 0usize;
    for count in 0..terms.len() {
        if at(terms, count, 0) != 0 {
            all |= count;
        }
    }
    usize::BITS - all.leading_zeros()
}

/// Steps after which all outputs are forms, if they tell only how many ones a word has.
pub(crate) fn counted(alloc: Global, task: &Task) -> Result<Option<Vec<Step>>, AllocError> {
    if !is_symmetric(task) {
        return Ok(None);
    }
    let mut products = Products {
        steps: Vec::new(alloc),
        dimension: task.inputs,
    };
    let terms = terms_of(alloc, task)?;
    let mut forms = vec![in alloc; 0u32; task.inputs]?;
    for place in 0..task.inputs {
        put_at(&mut forms, place, bit(place));
    }
    let bits = products.count(alloc, forms, most_bits(&terms))?;
    products.add_terms(&terms, &bits)?;
    Ok(Some(products.steps))
}
