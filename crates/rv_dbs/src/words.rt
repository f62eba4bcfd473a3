// Words by their numbers.
ghost use Rattle.std.specs.Prelude.{◌≡◌, ◌<◌, ◌≤◌, ◌^◌};
ghost use Rattle.rv_gate.specs.Word.{has};
ghost use Rattle.rv_perm.specs.declared.perm.TheConstants.{MOST_PERM_LINES};
ghost use Rattle.rv_dbs.specs.Walk.{other};

use rv_perm::MOST_PERM_LINES;

/// How many words there are.
pub fn word_count(lines: u8) -> u32
    requires { lines ≤ MOST_PERM_LINES }
    ensures { result ≡ 2 ^ lines }
{
    1 << lines
}

/// The word with bit `k` changed.
pub fn other(k: u8, x: u32) -> u32
    requires { k < MOST_PERM_LINES }
    ensures { result ≡ other k x }
{
    x ^ 1 << k
}

/// Bit `k` of a word.
pub fn bit(x: u32, k: u8) -> bool
    requires { k < MOST_PERM_LINES }
    ensures { result ≡ has x k }
{
    x >> k & 1 == 1
}
