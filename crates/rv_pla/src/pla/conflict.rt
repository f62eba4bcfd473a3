// The first conflict of a PLA: the least word, and there the least output, of which ON and OFF are said.
ghost use Rattle.std.specs.Prelude.{◌≡◌, ◌<◌, ◌≤◌, ◌^◌, true};
ghost use Rattle.rv_gate.specs.Word.{word_of};
ghost use Rattle.rv_gate.specs.Gate.{WantsControls};
ghost use Rattle.rv_pla.specs.Pla.{conflict_at, conflict_of, first_line, covers};
ghost use Rattle.rv_reader.specs.FirstFault.{first_below};
ghost use Rattle.rv_pla.specs.inside.Table.{off_or_on, has_off_set};

use super::Pla;
use crate::fault::PlaFault;
use crate::join::matches;
use crate::kind::{Kind, has_off_set};
use crate::sets::has;
use crate::term::Term;

impl Pla {
    pub(super) fn conflict(&self) -> Option<PlaFault>
        ensures { result ≡ conflict_of self.now }
    {
        if !has_off_set(self.kind) {
            return None;
        }
        for x in 0..1u32 << self.inputs {
            let fault = self.conflict_at(x);
            if fault.is_some() {
                return fault;
            }
        }
        None
    }

    // The conflict at the word with a number, at the least output.
    fn conflict_at(&self, x: u32) -> Option<PlaFault>
        requires x_in { x < 2 ^ self.now.inputs }
        requires off { has_off_set self.now.kind ≡ true }
        ensures { result ≡ first_below (conflict_at self.now x) self.now.outputs }
    {
        if self.ones[x as usize] & self.others[x as usize] == 0 {
            return None;
        }
        for output in 0..self.outputs {
            let fault = self.conflict_on(x, output);
            if fault.is_some() {
                return fault;
            }
        }
        None
    }

    fn conflict_on(&self, x: u32, output: u8) -> Option<PlaFault>
        requires x_in { x < 2 ^ self.now.inputs }
        requires output_in { output < self.now.outputs }
        ensures { result ≡ conflict_at self.now x output }
    {
        let on_line = self.first_line(x, output, false);
        let off_line = self.first_line(x, output, true);
        match (on_line, off_line) {
            (Some(on_line), Some(off_line)) => Some(PlaFault::Conflict {
                on_line,
                off_line,
                inputs: self.inputs,
                word: x,
                output,
            }),
            _ => None,
        }
    }

    // The line of the first term that says OFF or ON.
    fn first_line(&self, x: u32, output: u8, off: bool) -> Option<u32>
        requires x_in { x < 2 ^ self.now.inputs }
        requires output_in { output < self.now.outputs }
        ensures { result ≡ first_line (off_or_on off self.now.kind) (word_of self.now.inputs x) output self.now.terms }
    {
        for term in &self.terms {
            if self.covers(term, x, output, off) {
                return Some(term.line);
            }
        }
        None
    }

    // Whether a term says OFF or ON.
    fn covers(&self, term: &Term, x: u32, output: u8, off: bool) -> bool
        requires wanted { WantsControls term.now.cube.care term.now.cube.want }
        requires output_in { output < self.now.outputs }
        ensures { result ≡ covers (off_or_on off self.now.kind) (word_of self.now.inputs x) output term.now }
    {
        matches(term.cube, self.inputs, x) && has(off_or_on(off, self.kind, term), output)
    }
}

// The outputs of which a term says OFF or ON.
fn off_or_on(off: bool, kind: Kind, term: &Term) -> u16
    ensures { result ≡ off_or_on off kind term.now }
{
    if !off {
        term.cube.outs
    } else if has_off_set(kind) {
        term.zero_outs
    } else {
        0
    }
}
