ghost use Rattle.std.specs.Prelude.{◌≡◌, ◌<◌, ◌≤◌, ◌^◌, All, IfOk};
ghost use Rattle.rv_perm.specs.declared.perm.TheConstants.{MOST_PERM_LINES};
ghost use Rattle.rv_embed.specs.Embedding.{completed};

use std::alloc::{AllocError, Global};

// The list, and then the numbers below `count` that don't stand in it, in ascending order.
pub(crate) fn completed(
    alloc: Global,
    numbers: Vec<u32>,
    count: usize,
) -> Result<Vec<u32>, AllocError>
    requires few { count ≤ 2 ^ MOST_PERM_LINES }
    requires below { All (λ x. x < count) numbers.items }
    ensures { IfOk result (λ v. v.items ≡ completed count numbers.items) }
{
    let mut stands = vec![in alloc; false; count]?;
    for x in &numbers {
        stands[*x as usize] = true;
    }
    let mut list = numbers;
    for (y, is_there) in stands.iter().enumerate() {
        if !*is_there {
            list.push(y as u32)?;
        }
    }
    Ok(list)
}
