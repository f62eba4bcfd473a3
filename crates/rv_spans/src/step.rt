// Steps of a search: a product of forms is added to a direction.
use crate::cells::{at, bit, has, is_odd, put_at, top_place, without};

// A product has at most so many forms.
pub(crate) const MOST_FORMS: usize = 8;

// Where each form of a word has its wanted value, the coordinates of `lambda` change; a new one is the product, if
// there are none. After it the sum of the coordinates of `drop` is constant, if there are any, and the highest of them
// goes.
#[derive(Clone, Copy)]
pub(crate) struct Step {
    pub(crate) count: usize,
    pub(crate) forms: [u32; MOST_FORMS],
    pub(crate) want: u32,
    pub(crate) lambda: u32,
    pub(crate) drop: u32,
}

pub(crate) const NO_STEP: Step = Step {
    count: 0,
    forms: [0; MOST_FORMS],
    want: 0,
    lambda: 0,
    drop: 0,
};

impl Step {
    // A product of forms on a new coordinate.
    pub(crate) fn of(forms: &[u32], want: u32) -> Step {
        let mut own = [0; MOST_FORMS];
        let count = forms.len().min(MOST_FORMS);
        for i in 0..count {
            put_at(&mut own, i, at(forms, i, 0));
        }
        Step {
            count,
            forms: own,
            want,
            lambda: 0,
            drop: 0,
        }
    }

    pub(crate) fn form(&self, i: usize) -> u32 {
        at(&self.forms, i, 0)
    }

    pub(crate) fn holds(&self, word: u32) -> bool {
        for i in 0..self.count.min(MOST_FORMS) {
            if is_odd(self.form(i) & word) != has(self.want, i) {
                return false;
            }
        }
        true
    }

    // The values of the forms at a word.
    pub(crate) fn values(&self, word: u32) -> u32 {
        let mut values = 0u32;
        for i in 0..self.count.min(MOST_FORMS) {
            if is_odd(self.form(i) & word) {
                values |= bit(i);
            }
        }
        values
    }

    // Whether a direction changes one of the forms.
    pub(crate) fn is_changed_by(&self, lambda: u32) -> bool {
        for i in 0..self.count.min(MOST_FORMS) {
            if is_odd(self.form(i) & lambda) {
                return true;
            }
        }
        false
    }

    // How many coordinates there are after the step.
    pub(crate) fn dimension(&self, before: usize) -> usize {
        let mut after = before;
        if self.lambda == 0 {
            after = after.saturating_add(1);
        }
        if self.drop != 0 {
            after = after.saturating_sub(1);
        }
        after
    }

    // How much a product counts in the search.
    pub(crate) fn units(&self) -> usize {
        self.count.saturating_sub(1)
    }

    fn after(&self, word: u32, lambda: u32) -> u32 {
        let next = if self.holds(word) {
            word ^ lambda
        } else {
            word
        };
        if self.drop == 0 {
            return next;
        }
        without(next, top_place(self.drop))
    }

    // Makes the words over so many coordinates those after the step.
    pub(crate) fn change(&self, words: &mut [u32], dimension: usize) {
        let lambda = if self.lambda == 0 {
            bit(dimension)
        } else {
            self.lambda
        };
        for k in 0..words.len() {
            let word = self.after(at(words, k, 0), lambda);
            put_at(words, k, word);
        }
    }
}

// T gates of a flip of so many controls, about.
pub(crate) fn t_of(controls: usize) -> i64 {
    match controls {
        0 | 1 => 0,
        2 => 7,
        _ => (controls.min(64) as i64) * 8 - 8,
    }
}
