ghost use Rattle.std.specs.Prelude.{◌≡◌, ◌<◌};
ghost use Rattle.rv_angles.specs.Matrix.{cosine, none, rx_matrix, ry_matrix, rz_matrix, sine, twice, u_matrix};

/// The sum of two powers of w = e^(i pi/4).
#[derive(Clone, Copy)]
pub struct Entry {
    pub first: u8,
    pub second: u8,
}

/// The matrix of a gate on one qubit, times 2. Its entry `e10` is that with which 0 becomes 1.
#[derive(Clone, Copy)]
pub struct Matrix {
    pub e00: Entry,
    pub e01: Entry,
    pub e10: Entry,
    pub e11: Entry,
}

fn twice(power: u8) -> Entry
    ensures { result ≡ twice power }
{
    Entry {
        first: power,
        second: power,
    }
}

fn none() -> Entry
    ensures { result ≡ none }
{
    Entry {
        first: 0,
        second: 4,
    }
}

fn cosine(half: u8, power: u8) -> Entry
    requires half { half < 8 }
    requires power { power < 16 }
    ensures { result ≡ cosine half power }
{
    Entry {
        first: power + half,
        second: power + 7 * half,
    }
}

fn sine(half: u8, power: u8) -> Entry
    requires half { half < 8 }
    requires power { power < 16 }
    ensures { result ≡ sine half power }
{
    Entry {
        first: power + half + 6,
        second: power + 7 * half + 2,
    }
}

impl Matrix {
    /// `U(theta, phi, lambda)` with theta = half pi/2, phi = phi pi/4 and lambda = lambda pi/4.
    pub fn u(half: u8, phi: u8, lambda: u8) -> Matrix
        requires half { half < 8 }
        requires phi { phi < 8 }
        requires lambda { lambda < 8 }
        ensures { result ≡ u_matrix half phi lambda }
    {
        Matrix {
            e00: cosine(half, 0),
            e01: sine(half, lambda + 4),
            e10: sine(half, phi),
            e11: cosine(half, phi + lambda),
        }
    }

    /// `rx(half pi/2)`.
    pub fn rx(half: u8) -> Matrix
        requires half { half < 8 }
        ensures { result ≡ rx_matrix half }
    {
        Matrix::u(half, 6, 2)
    }

    /// `ry(half pi/2)`.
    pub fn ry(half: u8) -> Matrix
        requires half { half < 8 }
        ensures { result ≡ ry_matrix half }
    {
        Matrix::u(half, 0, 0)
    }

    /// `rz(half pi/2)`.
    pub fn rz(half: u8) -> Matrix
        requires half { half < 8 }
        ensures { result ≡ rz_matrix half }
    {
        Matrix {
            e00: twice(7 * half),
            e01: none(),
            e10: none(),
            e11: twice(half),
        }
    }
}
