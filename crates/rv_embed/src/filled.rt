// The function of a PLA whose free entries are filled.
ghost use Rattle.std.specs.Prelude.{◌≡◌, ◌<◌, ◌^◌, All, IfOk};
ghost use Rattle.rv_embed.specs.Filled.{filled};
ghost use Rattle.rv_embed.specs.Classes.{largest_class};
ghost use Rattle.rv_embed.specs.inside.Ranks.{ranks_of};

use super::classes::{Classes, classes_of};
use super::greedy::greedy;
use super::row::rows_of;
use super::zeros::zeros;
use rv_pla::Pla;
use std::alloc::{AllocError, Global};

// The number of the output word of each input word, and the words that share one.
#[derive(Drop)]
pub(crate) struct Filling {
    pub(crate) outputs: Vec<u32>,
    pub(crate) classes: Classes,
}

pub(crate) fn filled(alloc: Global, pla: &Pla) -> Result<Filling, AllocError>
    ensures table { IfOk result (λ f. f.outputs.items ≡ filled pla.now) }
    ensures below { IfOk result (λ f. All (λ y. y < 2 ^ pla.now.outputs) f.outputs.items) }
    ensures ranks { IfOk result (λ f. f.classes.ranks.items ≡ ranks_of (filled pla.now)) }
    ensures largest { IfOk result (λ f. f.classes.largest ≡ largest_class (filled pla.now)) }
{
    let words = 1usize << pla.outputs();
    let rows = rows_of(alloc, pla)?;
    let outputs = zeros(alloc, pla, &rows)?;
    let classes = classes_of(alloc, words, &outputs)?;
    let others = greedy(alloc, pla, &rows)?;
    let other_classes = classes_of(alloc, words, &others)?;
    if other_classes.largest < classes.largest {
        Ok(Filling {
            outputs: others,
            classes: other_classes,
        })
    } else {
        Ok(Filling { outputs, classes })
    }
}
