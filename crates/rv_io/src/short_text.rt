ghost use Rattle.std.specs.Prelude.{◌≡◌, ◌+◌, ◌<◌, ◌≤◌, ◌++◌, [], length, take, MatchOption};
ghost use Rattle.rv_io.specs.declared.short_text.TheConstants.{SHORT};

/// The length of the longest short text, in bytes.
pub const SHORT: usize = 16;

/// A text of at most [`SHORT`] bytes, which a writer takes in one step.
#[derive(Clone, Copy)]
pub struct ShortText {
    pub(crate) bytes: [u8; SHORT],
    pub(crate) len: usize,
    ghost few: { len ≤ SHORT },
}

impl ShortText {
    /// No bytes.
    pub fn new() -> ShortText
        ensures { take result.len result.bytes ≡ [] }
    {
        ShortText {
            bytes: [0; SHORT],
            len: 0,
        }
    }

    /// The first bytes and then the second ones. `None` where they are more than [`SHORT`].
    pub fn joined(first: &[u8], second: &[u8]) -> Option<ShortText>
        ensures { MatchOption result (SHORT < length first.now + length second.now) (λ text.
            take text.len text.bytes ≡ first.now ++ second.now) }
    {
        if first.len() > SHORT || second.len() > SHORT - first.len() {
            return None;
        }
        let mut bytes = [0; SHORT];
        let len = first.len() + second.len();
        bytes[..first.len()].copy_from_slice(first);
        bytes[first.len()..len].copy_from_slice(second);
        Some(ShortText { bytes, len })
    }

    /// The bytes of the text.
    pub fn as_slice(&self) -> &[u8]
        ensures { result.now ≡ take self.now.len self.now.bytes }
    {
        &self.bytes[..self.len]
    }
}
