ghost use Rattle.std.specs.Prelude.{◌≡◌, ℕ, Option, Some};
ghost use Rattle.rv_marks.specs.Row.{constant_of, constant_byte, garbage_of, garbage_byte};
ghost use Rattle.rv_marks.specs.inside.laws.RowLaws.{constant_of-constant_byte, garbage_of-garbage_byte};

use rv_gate::Mark;

/// A mark of a line that a row has as one byte.
pub trait RowMark: Copy {
    /// The mark that a byte is, if it is one.
    ghost mark_of: { ℕ → Option Self };

    /// The byte of a mark.
    ghost byte_of: { Self → ℕ };

    fn from_byte(byte: u8) -> Option<Self>
        ensures { result ≡ mark_of byte };

    fn byte(self) -> u8
        ensures { result ≡ byte_of self };

    /// A mark reads back.
    ghost reads_back: { (mark : Self) → mark_of (byte_of mark) ≡ Some mark };
}

/// What is put in on a line: `-` for a bit of the input, `0` and `1` for constants.
impl RowMark for Mark {
    ghost mark_of = { constant_of };

    ghost byte_of = { constant_byte };

    ghost reads_back = { constant_of-constant_byte };

    fn from_byte(byte: u8) -> Option<Mark> {
        match byte {
            b'-' => Some(Mark::Input),
            b'0' => Some(Mark::Zero),
            b'1' => Some(Mark::One),
            _ => None,
        }
    }

    fn byte(self) -> u8 {
        match self {
            Mark::Input => b'-',
            Mark::Zero => b'0',
            Mark::One => b'1',
        }
    }
}

/// Whether the output of a line is garbage: `1` where it is, else `-`.
impl RowMark for bool {
    ghost mark_of = { garbage_of };

    ghost byte_of = { garbage_byte };

    ghost reads_back = { garbage_of-garbage_byte };

    fn from_byte(byte: u8) -> Option<bool> {
        match byte {
            b'-' => Some(false),
            b'1' => Some(true),
            _ => None,
        }
    }

    fn byte(self) -> u8 {
        if self { b'1' } else { b'-' }
    }
}
