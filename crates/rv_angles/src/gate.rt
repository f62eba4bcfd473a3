use crate::matrix::Matrix;

/// A gate as a standard defines it.
#[derive(Clone, Copy)]
pub enum Gate {
    /// On one qubit.
    One(Matrix),
    /// The root of X.
    Sx,
    /// Its inverse.
    Sxdg,
    /// A gate on the second qubit where the first is 1.
    Controlled(Matrix),
    /// The controlled Y.
    Cy,
    /// The controlled H.
    Ch,
    /// Z where the first two qubits are 1.
    Ccz,
}
