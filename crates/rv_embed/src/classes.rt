// The input words that share an output word.
ghost use Rattle.std.specs.Prelude.{◌≡◌, ◌<◌, ◌≤◌, ◌^◌, length, All, IfOk};
ghost use Rattle.rv_perm.specs.declared.perm.TheConstants.{MOST_PERM_LINES};
ghost use Rattle.rv_embed.specs.Classes.{largest_class};
ghost use Rattle.rv_embed.specs.inside.Ranks.{ranks_of};

use std::alloc::{AllocError, Global};

// For each input word its rank among those with its output word, and the size of the largest class.
#[derive(Drop)]
pub(crate) struct Classes {
    pub(crate) ranks: Vec<u32>,
    pub(crate) largest: u32,
}

// There are `words` output words.
pub(crate) fn classes_of(
    alloc: Global,
    words: usize,
    outputs: &[u32],
) -> Result<Classes, AllocError>
    requires few { length outputs.now ≤ 2 ^ MOST_PERM_LINES }
    requires below { All (λ y. y < words) outputs.now }
    ensures ranks { IfOk result (λ c. c.ranks.items ≡ ranks_of outputs.now) }
    ensures largest { IfOk result (λ c. c.largest ≡ largest_class outputs.now) }
{
    let mut sizes = vec![in alloc; 0u32; words]?;
    let mut ranks = Vec::new(alloc);
    let mut largest: u32 = 0;
    for output in outputs {
        let rank = sizes[*output as usize];
        ranks.push(rank)?;
        sizes[*output as usize] = rank + 1;
        largest = largest.max(rank + 1);
    }
    Ok(Classes { ranks, largest })
}
