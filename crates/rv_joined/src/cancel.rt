// Which flips cancel: found, and not promised to be right.
use crate::planner::Draft;
use crate::setup::Setup;
use crate::slots::mixed;
use rv_forms::Term;
use rv_gate::{Gate, MOST_LINES, Shape, has};
use std::alloc::{AllocError, Global};
use std::collections::HashMap;

// More flips than this are not looked at.
const MOST_FLIPS: usize = 1 << 16;

const MOST_ROUNDS: u32 = 32;

/// The flips that go, and the term that each flip adds: of all flips, and of those that stay.
#[derive(Drop)]
pub(crate) struct Cancelling {
    pub(crate) terms: Vec<Term>,
    pub(crate) claims: Vec<Option<u32>>,
    pub(crate) gone: Vec<bool>,
    pub(crate) left: Vec<Option<u32>>,
}

// Where flips that add the same meet: by the line, and how often it has been read.
#[derive(Drop)]
struct Meeting {
    reads: Vec<u64>,
    waiting: HashMap<u64, usize>,
}

impl Meeting {
    fn read(&mut self, line: u8) {
        if let Some(reads) = self.reads.get_mut(usize::from(line)) {
            *reads = reads.wrapping_add(1);
        }
    }

    fn key(&self, line: u8, added: u64) -> u64 {
        let reads = match self.reads.get(usize::from(line)) {
            Some(reads) => *reads,
            None => 0,
        };
        let stay = reads.wrapping_mul(64).wrapping_add(u64::from(line));
        added ^ mixed(stay.wrapping_add(1))
    }
}

// Takes the flips away that meet one which adds the same, before their line is read. Whether there are any.
fn round(
    alloc: Global,
    flips: &[Gate],
    added: &[u64],
    gone: &mut Vec<bool>,
) -> Result<bool, AllocError> {
    let mut meeting = Meeting {
        reads: vec![in alloc; 0; usize::from(MOST_LINES)]?,
        waiting: HashMap::new(alloc),
    };
    let mut any = false;
    for k in 0..flips.len() {
        if k >= added.len() || k >= gone.len() || gone[k] {
            continue;
        }
        let Shape::Flip { care, target, .. } = flips[k].shape() else {
            continue;
        };
        for line in 0..MOST_LINES {
            if has(care, line) {
                meeting.read(line);
            }
        }
        let key = meeting.key(target, added[k]);
        let other = match meeting.waiting.remove(&key) {
            Some(other) => other,
            None => k,
        };
        if other == k && added[k] != 0 {
            let _old = meeting.waiting.insert(key, k)?;
            continue;
        }
        any = true;
        gone[k] = true;
        if let Some(also) = gone.get_mut(other) {
            *also = true;
        }
    }
    Ok(any)
}

/// Flips that cancel, if there are any.
pub(crate) fn cancelled(
    alloc: Global,
    setup: Setup,
    flips: &[Gate],
) -> Result<Option<Cancelling>, AllocError> {
    if flips.len() > MOST_FLIPS {
        return Ok(None);
    }
    let mut draft = Draft::new(alloc, setup)?;
    if !draft.steps(alloc, flips)? {
        return Ok(None);
    }
    let mut added = Vec::new(alloc);
    let mut claims = Vec::new(alloc);
    for step in &draft.steps {
        added.push(step.added())?;
        claims.push(step.claim)?;
    }
    let mut gone = vec![in alloc; false; flips.len()]?;
    let mut any = false;
    for _ in 0..MOST_ROUNDS {
        if !round(alloc, flips, &added, &mut gone)? {
            break;
        }
        any = true;
    }
    if !any {
        return Ok(None);
    }
    let mut left = Vec::new(alloc);
    for k in 0..claims.len() {
        if k < gone.len() && !gone[k] {
            left.push(claims[k])?;
        }
    }
    Ok(Some(Cancelling {
        terms: draft.terms,
        claims,
        gone,
        left,
    }))
}
