// How many lines steps take.
use crate::order::{NONE, Order};

/// Lines above a limit, summed over the steps; all lines, summed over the steps; and the most at a time.
#[derive(Clone, Copy)]
pub(crate) struct Load {
    pub(crate) over: i64,
    pub(crate) sum: i64,
    pub(crate) most: i64,
}

/// The lines that steps take, by a limit.
pub(crate) fn load_of(order: &Order, limit: i64) -> Load {
    let mut load = Load {
        over: 0,
        sum: 0,
        most: 0,
    };
    let mut lines = 0i64;
    for place in 0..order.len() {
        let step = order.step(place);
        let is_make = order.is_make(place);
        if is_make && step.own {
            lines = lines.saturating_add(1);
        }
        load.over = load.over.saturating_add(lines.saturating_sub(limit).max(0));
        load.sum = load.sum.saturating_add(lines);
        load.most = load.most.max(lines);
        if step.partner != NONE && !is_make && order.step(step.partner as usize).own {
            lines = lines.saturating_sub(1);
        }
    }
    load
}
