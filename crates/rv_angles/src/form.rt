ghost use Rattle.std.specs.Prelude.{◌≡◌, ◌≤◌, IfSome};
ghost use Rattle.rv_angles.specs.Form.{form_of, is_diagonal, is_even_split, is_exchange, is_none, is_root, is_twice};
ghost use Rattle.rv_angles.specs.Form.{phased_of, root_power, size_of, split, turn_of};
ghost use Rattle.rv_angles.specs.Exact.{IsExact};

use crate::gate::Gate;
use crate::matrix::{Entry, Matrix};

/// What stands between the phases of a gate on one qubit.
#[derive(Clone, Copy)]
pub enum Middle {
    Nothing,
    X,
    H,
}

/// A gate on one qubit: a power of w for each of its values, then an X or an H, then a power of w where it is 1.
#[derive(Clone, Copy)]
pub struct Turn {
    pub zero: u8,
    pub one: u8,
    pub middle: Middle,
    pub after: u8,
}

/// Powers of w where the first qubit is 1, where the second is 1, and taken back where they differ.
#[derive(Clone, Copy)]
pub struct Phased {
    pub control: u8,
    pub target: u8,
}

/// How operations make a gate.
#[derive(Clone, Copy)]
pub enum Form {
    Turned(Turn),
    Sx,
    Sxdg,
    Phased(Phased),
    Cy,
    Ch,
    Ccz,
}

// Twice a power of w.
fn is_twice(entry: Entry) -> bool
    ensures { result ≡ is_twice entry }
{
    entry.second % 8 == entry.first % 8
}

// Nothing.
fn is_none(entry: Entry) -> bool
    ensures { result ≡ is_none entry }
{
    entry.second % 8 == (entry.first % 8 + 4) % 8
}

// The root of two, times a power of w.
fn is_root(entry: Entry) -> bool
    ensures { result ≡ is_root entry }
{
    entry.second % 8 == (entry.first % 8 + 2) % 8 || entry.second % 8 == (entry.first % 8 + 6) % 8
}

// This power.
fn root_power(entry: Entry) -> u8
    ensures { result ≡ root_power entry }
{
    if entry.second % 8 == (entry.first % 8 + 2) % 8 {
        (entry.first % 8 + 1) % 8
    } else {
        (entry.first % 8 + 7) % 8
    }
}

// An H between phases, if the last entry is what it then has to be.
fn split(zero: u8, one: u8, to_one: u8, last: u8) -> Option<Turn>
    ensures { result ≡ split zero one to_one last }
{
    let after = (to_one % 8 + 7 * (zero % 8)) % 8;
    if (one % 8 + after + 4) % 8 != last % 8 {
        return None;
    }
    Some(Turn {
        zero,
        one,
        middle: Middle::H,
        after,
    })
}

fn is_diagonal(matrix: Matrix) -> bool
    ensures { result ≡ is_diagonal matrix }
{
    is_twice(matrix.e00) && is_none(matrix.e01) && is_none(matrix.e10) && is_twice(matrix.e11)
}

fn is_exchange(matrix: Matrix) -> bool
    ensures { result ≡ is_exchange matrix }
{
    is_none(matrix.e00) && is_twice(matrix.e01) && is_twice(matrix.e10) && is_none(matrix.e11)
}

fn is_even_split(matrix: Matrix) -> bool
    ensures { result ≡ is_even_split matrix }
{
    is_root(matrix.e00) && is_root(matrix.e01) && is_root(matrix.e10) && is_root(matrix.e11)
}

fn turn_of(matrix: Matrix) -> Option<Turn>
    ensures { result ≡ turn_of matrix }
{
    if is_diagonal(matrix) {
        return Some(Turn {
            zero: matrix.e00.first,
            one: matrix.e11.first,
            middle: Middle::Nothing,
            after: 0,
        });
    }
    if is_exchange(matrix) {
        return Some(Turn {
            zero: matrix.e10.first,
            one: matrix.e01.first,
            middle: Middle::X,
            after: 0,
        });
    }
    if is_even_split(matrix) {
        return split(
            root_power(matrix.e00),
            root_power(matrix.e01),
            root_power(matrix.e10),
            root_power(matrix.e11),
        );
    }
    None
}

// A diagonal gate under a control, if its entries differ by an even power.
fn phased_of(matrix: Matrix) -> Option<Phased>
    ensures { result ≡ phased_of matrix }
{
    let apart = (matrix.e11.first % 8 + 7 * (matrix.e00.first % 8)) % 8;
    if !is_diagonal(matrix) || apart % 2 != 0 {
        return None;
    }
    Some(Phased {
        control: matrix.e00.first % 8 + apart / 2,
        target: apart / 2,
    })
}

/// The form of a gate, if there is an exact one.
pub fn form_of(gate: Gate) -> Option<Form>
    ensures value { result ≡ form_of gate }

    // Its operations have the amplitudes of the gate, whatever comes after.
    ensures exact { IfSome result (IsExact gate) }
{
    match gate {
        Gate::One(matrix) => match turn_of(matrix) {
            Some(turn) => Some(Form::Turned(turn)),
            None => None,
        },
        Gate::Controlled(matrix) => match phased_of(matrix) {
            Some(phased) => Some(Form::Phased(phased)),
            None => None,
        },
        Gate::Sx => Some(Form::Sx),
        Gate::Sxdg => Some(Form::Sxdg),
        Gate::Cy => Some(Form::Cy),
        Gate::Ch => Some(Form::Ch),
        Gate::Ccz => Some(Form::Ccz),
    }
}

impl Form {
    /// On how many qubits it is.
    pub fn size(self) -> usize
        ensures value { result ≡ size_of self }
        ensures few { (1 ≤ result) × (result ≤ 3) }
    {
        match self {
            Form::Turned(_) | Form::Sx | Form::Sxdg => 1,
            Form::Phased(_) | Form::Cy | Form::Ch => 2,
            Form::Ccz => 3,
        }
    }
}
