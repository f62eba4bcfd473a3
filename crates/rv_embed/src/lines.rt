// The number of lines.
ghost use Rattle.std.specs.Prelude.{◌≡◌, ◌≤◌, ◌^◌};
ghost use Rattle.rv_perm.specs.declared.perm.TheConstants.{MOST_PERM_LINES};
ghost use Rattle.rv_embed.specs.Embedding.{least_power};

// How many bits tell apart so many words.
pub(crate) fn least_power(words: u32) -> u8
    requires { words ≤ 2 ^ MOST_PERM_LINES }
    ensures value { result ≡ least_power words }
    ensures few { result ≤ MOST_PERM_LINES }
{
    let mut bits: u8 = 0;
    while 1u32 << bits < words {
        bits += 1;
    }
    bits
}
