use rv_forms::{Form, Recipe, Term};
use rv_gate::Gate;

/// Gates on the lines of inputs, of outputs and so many work lines, each flip under two controls with the number of the
/// term that it adds; and the T gates that they take, about.
#[derive(Drop)]
pub struct Plan {
    pub work: u8,
    pub gates: Vec<Gate>,
    pub numbers: Vec<Option<u32>>,
    pub price: u64,
}

/// Plans for a network, on fewer lines first: more lines take fewer T gates.
///
/// Columns are the inputs and then the terms. A term is over columns before its own.
#[derive(Drop)]
pub struct Plans {
    pub terms: Vec<Term>,
    pub recipes: Vec<Recipe>,
    pub outs: Vec<Form>,
    pub plans: Vec<Plan>,
}
