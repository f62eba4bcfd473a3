use crate::slots::Slots;
use rv_forms::Form;
use rv_net::Op;

/// The operations so far, what the lines hold after them, and the powers of w that they brought.
#[derive(Drop)]
pub(crate) struct State {
    pub(crate) ops: Vec<Op>,
    pub(crate) held: Vec<Form>,
    pub(crate) slots: Slots,
}
