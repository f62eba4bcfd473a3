ghost use Rattle.std.specs.Prelude.{◌≡◌, ◌==◌};
ghost use Rattle.std.specs.List.{list_any, position};
ghost use Rattle.rv_text.specs.Bytes.{begins_with_dot, bit_byte, quote};

use memchr::memchr;

/// Whether the first byte is a dot, as that of a directive is.
pub fn begins_with_dot(name: &[u8]) -> bool
    ensures { result ≡ begins_with_dot name.now }
{
    !name.is_empty() && name[0] == b'.'
}

/// The byte that a bit is written as.
pub fn bit_byte(bit: bool) -> u8
    ensures { result ≡ bit_byte bit }
{
    if bit { b'1' } else { b'0' }
}

/// Where the first of such bytes stands.
pub fn first_place(byte: u8, bytes: &[u8]) -> Option<usize>
    ensures { result ≡ position (λ b. b == byte) bytes.now }
{
    memchr(byte, bytes)
}

/// Whether a line has a quote.
pub fn has_quote(line: &[u8]) -> bool
    ensures { result ≡ list_any (λ b. b == quote) line.now }
{
    first_place(b'"', line).is_some()
}
