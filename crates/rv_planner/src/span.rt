// Few forms that span others.
use crate::form::{COLUMNS, Form};
use crate::lists::{at, put_at};

// No more forms than this are told apart.
const MOST: usize = 7;

// A sum of the forms that has its first column alone, and which forms these are.
#[derive(Clone, Copy)]
struct Row {
    form: Form,
    first: usize,
    set: u8,
}

/// Forms that don't depend on one another, without their constants.
#[derive(Clone, Copy)]
pub(crate) struct Span {
    forms: [Form; MOST],
    rows: [Row; MOST],
    count: u8,
}

impl Span {
    pub(crate) fn none() -> Span {
        let row = Row {
            form: Form::zero(),
            first: COLUMNS,
            set: 0,
        };
        Span {
            forms: [Form::zero(); MOST],
            rows: [row; MOST],
            count: 0,
        }
    }

    /// How many forms there are.
    pub(crate) fn count(&self) -> u8 {
        self.count
    }

    /// A form by its number.
    pub(crate) fn form(&self, number: usize) -> Form {
        at(&self.forms, number, Form::zero())
    }

    /// What is left of a form without its constant, and the forms whose sum was taken off.
    pub(crate) fn reduced(&self, form: &Form) -> (Form, u8) {
        let (mut rest, mut set) = (form.linear(), 0);
        for place in 0..usize::from(self.count).min(MOST) {
            let row = &self.rows[place];
            if rest.has(row.first) {
                rest = rest.plus(row.form);
                set ^= row.set;
            }
        }
        (rest, set)
    }

    /// Whether a form is a sum of these.
    pub(crate) fn spans(&self, form: &Form) -> bool {
        self.reduced(form).0.is_empty()
    }

    /// A form more, if it isn't a sum of these.
    pub(crate) fn push(&mut self, form: &Form) {
        let (rest, set) = self.reduced(form);
        let Some(first) = rest.first() else {
            return;
        };
        let place = usize::from(self.count);
        let row = Row {
            form: rest,
            first,
            set: set | 1 << place.min(7),
        };
        put_at(&mut self.forms, place, form.linear());
        put_at(&mut self.rows, place, row);
        self.count = self.count.saturating_add(1).min(7);
    }
}
