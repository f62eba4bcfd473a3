// Gates that a circuit's marks make needless: what stands on a line is known, or nobody asks for it.
use rv_gate::{Circuit, Gate, LineSet, Mark, Shape};
use std::alloc::{AllocError, Global};

// The lines whose bit is known, and those of them that have the bit 1.
#[derive(Clone, Copy)]
struct Known {
    lines: LineSet,
    ones: LineSet,
}

// What is known at the beginning.
fn known_at_start(circuit: &Circuit) -> Known {
    let mut known = Known { lines: 0, ones: 0 };
    let marks = circuit.constant_row();
    for line in 0..marks.len().min(64) {
        match marks[line] {
            Mark::Input => {}
            Mark::Zero => known.lines |= 1 << line,
            Mark::One => {
                known.lines |= 1 << line;
                known.ones |= 1 << line;
            }
        }
    }
    known
}

// The flip without the controls that always hold; none if one never holds.
fn narrowed(known: Known, care: LineSet, want: LineSet, target: u8) -> Option<Gate> {
    let told = care & known.lines;
    if (want ^ known.ones) & told != 0 {
        return None;
    }
    Gate::flip(care & !told, want & !told, target)
}

// What is known after a gate.
fn known_after(known: Known, gate: Gate) -> Known {
    let targets = gate.targets();
    if gate.is_flip() && gate.controls() == 0 {
        return Known {
            lines: known.lines,
            ones: known.ones ^ (known.lines & targets),
        };
    }
    Known {
        lines: known.lines & !targets,
        ones: known.ones & !targets,
    }
}

// The gates without controls that always hold, and without those that never act.
fn without_known(alloc: Global, circuit: &Circuit) -> Result<Vec<Gate>, AllocError> {
    let mut known = known_at_start(circuit);
    let mut gates = Vec::new(alloc);
    for gate in circuit.gates() {
        let kept = match gate.shape() {
            Shape::Flip { care, want, target } => narrowed(known, care, want, target),
            _ => Some(*gate),
        };
        if let Some(gate) = kept {
            gates.push(gate)?;
            known = known_after(known, gate);
        }
    }
    Ok(gates)
}

// The lines that are asked for at the end.
fn asked_at_end(circuit: &Circuit) -> LineSet {
    let mut asked = 0u64;
    let garbage = circuit.garbage_row();
    for line in 0..garbage.len().min(64) {
        if !garbage[line] {
            asked |= 1 << line;
        }
    }
    asked
}

// Leaves the gates without those that change only what nobody asks for.
fn keep_asked_for(circuit: &Circuit, gates: &mut Vec<Gate>) {
    let mut asked = asked_at_end(circuit);
    let mut kept = 0usize;
    gates.reverse();
    for place in 0..gates.len() {
        let gate = gates[place];
        if gate.targets() & asked != 0 {
            asked |= gate.touched();
            if kept < gates.len() {
                gates[kept] = gate;
            }
            kept = kept.wrapping_add(1);
        }
    }
    gates.truncate(kept);
    gates.reverse();
}

/// The gates that a circuit's marks leave. They may have its function by the marks; nothing is promised of them.
pub fn pruned(alloc: Global, circuit: &Circuit) -> Result<Vec<Gate>, AllocError> {
    let mut gates = without_known(alloc, circuit)?;
    keep_asked_for(circuit, &mut gates);
    Ok(gates)
}
