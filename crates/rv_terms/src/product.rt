// Products of lines and path bits.
ghost use Rattle.std.specs.Prelude.{◌≡◌, ◌<◌, ◌&&◌, List, Bool, true, IsTrue};
ghost use Rattle.rv_gate.specs.Word.{bit_of, has};
ghost use Rattle.rv_gate.specs.declared.word.TheConstants.{MOST_LINES};
ghost use Rattle.rv_terms.specs.Products.{value, less, meets, line_alone, path_alone};

use rv_gate::{LineSet, MOST_LINES};

/// A product of bits: 1 where each line of a set has the bit 1 in the word of the lines, and each path bit of a set is 1.
#[derive(Clone, Copy, Debug, PartialEq, Eq, PartialOrd, Ord)]
pub struct Product {
    pub lines: LineSet,
    pub paths: LineSet,
}

impl Product {
    /// No line and no path bit: always 1.
    pub const ONE: Product = Product { lines: 0, paths: 0 };

    /// The bit of a line.
    pub fn of_line(line: u8) -> Product
        requires { line < MOST_LINES }
        ensures alone { result ≡ line_alone line }
        ensures bit { (x v : List Bool) → value result x v ≡ bit_of x line }
    {
        Product {
            lines: 1 << line,
            paths: 0,
        }
    }

    /// A path bit.
    pub fn of_path(path: u8) -> Product
        requires { path < MOST_LINES }
        ensures alone { result ≡ path_alone path }
        ensures bit { (x v : List Bool) → value result x v ≡ bit_of v path }
    {
        Product {
            lines: 0,
            paths: 1 << path,
        }
    }

    /// The product of two.
    pub fn times(self, other: Product) -> Product
        ensures { (x v : List Bool) → value result x v ≡ (value self x v && value other x v) }
    {
        Product {
            lines: self.lines | other.lines,
            paths: self.paths | other.paths,
        }
    }

    /// Whether it asks for a path bit.
    pub fn has_path(self, path: u8) -> bool
        requires { path < MOST_LINES }
        ensures { result ≡ has self.paths path }
    {
        rv_gate::has(self.paths, path)
    }

    // Whether two products ask for one bit.
    pub(crate) fn meets(self, other: Product) -> bool
        ensures { result ≡ meets self other }
    {
        self.lines & other.lines != 0 || self.paths & other.paths != 0
    }

    // What a product asks for and the other one doesn't.
    pub(crate) fn less(self, other: Product) -> Product
        ensures { result ≡ less self other }
    {
        Product {
            lines: self.lines ^ self.lines & other.lines,
            paths: self.paths ^ self.paths & other.paths,
        }
    }
}
