ghost use Rattle.std.specs.Prelude.{◌≡◌, ℕ, ◌-◌, ◌<◌, ◌≤◌, [], ◌∷◌, ◌++◌, bytes_eq, false, length, take, drop};
ghost use Rattle.std.specs.Prelude.{slice_get, Some, OnOk};
ghost use Rattle.std.specs.List.{list_any};
ghost use Rattle.rv_qasm.specs.Tokens.{is_string};
ghost use Rattle.rv_qasm.specs.inside.Flat.{with_byte};

use std::alloc::{AllocError, Global};
use std::marker::Model;

/// The tokens of a statement, the last of which may grow.
///
/// After want of memory they are not used again.
#[derive(Drop)]
pub(crate) struct Tokens {
    bytes: Vec<u8>,
    starts: Vec<u32>,
}

impl Model for Tokens {
    ghost use Rattle.std.specs.Prelude.{ℕ, List, length};
    ghost use Rattle.rv_qasm.specs.inside.Flat.{cut_at, Ascend};

    ghost Value = { List (List ℕ) };

    ghost view = { λ t. cut_at t.starts.items t.bytes.items };

    ghost invariant = { λ t. Ascend (length t.bytes.items) t.starts.items };
}

// The bytes between two places.
#[inline(always)]
fn part(bytes: &[u8], start: usize, end: usize) -> &[u8]
    requires order { start ≤ end }
    requires end { end ≤ length bytes.now }
    ensures { result.now ≡ take (end - start) (drop start bytes.now) }
{
    &bytes[start..end]
}

/// Whether bytes are the same. It is quick where they are one byte each.
#[inline(always)]
pub(crate) fn same_bytes(a: &[u8], b: &[u8]) -> bool
    ensures { result ≡ bytes_eq a.now b.now }
{
    match a {
        [x] => match b {
            [y] => *x == *y,
            _ => false,
        },
        _ => a == b,
    }
}

impl Tokens {
    /// No tokens. Takes no memory.
    pub(crate) fn new(alloc: Global) -> Tokens
        ensures { result ≡ [] }
    {
        Tokens {
            bytes: Vec::new(alloc),
            starts: Vec::new(alloc),
        }
    }

    pub(crate) fn len(&self) -> usize
        ensures { result ≡ length self.now }
    {
        self.starts.len()
    }

    /// A token.
    #[inline(always)]
    pub(crate) fn get(&self, index: usize) -> &[u8]
        requires { index < length self.now }
        ensures { slice_get self.now index ≡ Some result.now }
    {
        let count = self.starts.len();
        let start = self.starts[index] as usize;
        let after = index + 1;
        if after < count {
            part(&self.bytes, start, self.starts[after] as usize)
        } else {
            part(&self.bytes, start, self.bytes.len())
        }
    }

    /// Whether there is a quote in them.
    pub(crate) fn may_have_string(&self) -> bool
        ensures { result ≡ false → list_any is_string self.now ≡ false }
    {
        self.bytes.contains(&b'"')
    }

    /// A new token, of one byte.
    #[inline]
    pub(crate) fn begin(&mut self, byte: u8) -> Result<(), AllocError>
        ensures { OnOk result (self.new ≡ self.old ++ (byte ∷ []) ∷ []) }
    {
        let start = self.bytes.len();
        if start > u32::MAX as usize {
            return Err(AllocError);
        }
        self.starts.push(start as u32)?;
        self.bytes.push(byte)?;
        Ok(())
    }

    /// One byte more in the last token.
    pub(crate) fn grow(&mut self, byte: u8) -> Result<(), AllocError>
        ensures { OnOk result (self.new ≡ with_byte self.old byte) }
    {
        self.bytes.push(byte)?;
        Ok(())
    }

    /// Lets the tokens go, and keeps their room.
    pub(crate) fn clear(&mut self)
        ensures { self.new ≡ [] }
    {
        self.bytes.clear();
        self.starts.clear();
    }
}
