ghost use Rattle.std.specs.Prelude.{◌≡◌, ℕ, ◌<◌};
ghost use Rattle.rv_gate.specs.declared.word.TheConstants.{MOST_LINES};
ghost use Rattle.rv_draw.specs.Symbols.{op_symbol_on, symbol_on};
ghost use Rattle.rv_draw.specs.declared.symbol.Symbol.{Symbol};

use crate::{Symbol, op_symbol_on, symbol_on};
use rv_gate::{Gate, MOST_LINES};
use rv_net::Op;

/// What is drawn as a column: a symbol on each line.
pub trait Drawn: Copy {
    /// The symbol on a line.
    ghost draws: { Self → ℕ → Symbol };

    fn symbol_on(self, line: u8) -> Symbol
        requires { line < MOST_LINES }
        ensures { result ≡ draws self line };
}

impl Drawn for Gate {
    ghost draws = { symbol_on };

    fn symbol_on(self, line: u8) -> Symbol {
        symbol_on(self, line)
    }
}

impl Drawn for Op {
    ghost draws = { op_symbol_on };

    fn symbol_on(self, line: u8) -> Symbol {
        op_symbol_on(self, line)
    }
}
