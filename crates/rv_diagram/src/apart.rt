// Where two sides differ.
ghost use Rattle.std.specs.Prelude.{◌≡◌, ℕ, ◌<◌, ◌≤◌, ◌^◌, ◌&&◌, Bool, true, List, All, length, IfOk, IfSome};
ghost use Rattle.rv_gate.specs.Gate.{all_below, same};
ghost use Rattle.rv_gate.specs.Word.{bit_of, number_of};
ghost use Rattle.rv_gate.specs.declared.word.TheConstants.{MOST_LINES};
ghost use Rattle.rv_diagram.specs.declared.edge.Node.{Node as AnyNode};
ghost use Rattle.rv_diagram.specs.Diagram.{IsEdge, IsFirstApart, IsNarrowed, Keeps, value, word_at};

use crate::diagram::Diagram;
use crate::edge::{DiagramFault, Edge};
use rv_gate::{MOST_LINES, Word};
use std::alloc::{AllocError, Global};

/// A function where a bit of the input word is this one.
#[derive(Clone, Copy, Debug, PartialEq, Eq)]
pub(crate) struct Narrowed {
    pub(crate) left: Edge,
    pub(crate) bit: bool,
}

/// So many lines that hold 0.
pub fn blank_lines(alloc: Global, count: usize) -> Result<Vec<Edge>, AllocError>
    ensures count { IfOk result (λ lines. length lines.items ≡ count) }
    ensures edges { IfOk result (λ lines. (nodes : List AnyNode) → All (IsEdge nodes) lines.items) }
{
    let lines = vec![in alloc; Edge::ZERO; count]?;
    Ok(lines)
}

impl Diagram {
    // Where this holds and two functions are the same.
    fn and_same(&mut self, agree: Edge, f: Edge, g: Edge) -> Result<Edge, DiagramFault>
        requires agree { IsEdge self.old agree }
        requires f { IsEdge self.old f }
        requires g { IsEdge self.old g }
        ensures keeps { Keeps self.old self.new }
        ensures edge { IfOk result (IsEdge self.new) }
        ensures value { IfOk result (λ e. (x : List Bool)
            → value self.new e x ≡ (same (value self.old f x) (value self.old g x) && value self.old agree x)) }
    {
        let apart = self.xor(f, g)?;
        let both = self.and(apart.turn(true), agree)?;
        Ok(both)
    }

    // Where all functions are the same.
    fn agreement(&mut self, a: &[Edge], b: &[Edge]) -> Result<Edge, DiagramFault>
        requires count { length a.now ≡ length b.now }
        requires a { All (IsEdge self.old) a.now }
        requires b { All (IsEdge self.old) b.now }
        ensures keeps { Keeps self.old self.new }
        ensures edge { IfOk result (IsEdge self.new) }
        ensures value { IfOk result (λ e. (x : List Bool) → value self.new e x
            ≡ all_below (λ i. same (bit_of (word_at self.old a.now x) i) (bit_of (word_at self.old b.now x) i)) (length a.now)) }
    {
        let mut agree = Edge::ONE;
        for line in 0..a.len() {
            agree = self.and_same(agree, a[line], b[line])?;
        }
        Ok(agree)
    }

    // Words of a function, and the bit that the first of them have there.
    fn narrow(&mut self, left: Edge, input: u8) -> Result<Narrowed, DiagramFault>
        requires left { IsEdge self.old left }
        requires input { input < MOST_LINES }
        ensures keeps { Keeps self.old self.new }
        ensures narrowed { IfOk result (IsNarrowed self.old self.new left input) }
    {
        let literal = self.literal(input)?;
        let zero = self.and(left, literal.turn(true))?;
        let empty = zero.is_same(Edge::ZERO);
        if !empty {
            return Ok(Narrowed {
                left: zero,
                bit: false,
            });
        }
        let one = self.and(left, literal)?;
        Ok(Narrowed {
            left: one,
            bit: true,
        })
    }

    // A number that no word at which a function is 1 is below.
    fn first_word(&mut self, differ: Edge, inputs: u8) -> Result<u64, DiagramFault>
        requires differ { IsEdge self.old differ }
        requires inputs { inputs ≤ MOST_LINES }
        ensures keeps { Keeps self.old self.new }
        ensures below { IfOk result (λ number. number < 2 ^ inputs) }
        ensures least { IfOk result (λ number. (x : List Bool) → length x ≡ inputs → value self.old differ x ≡ true
            → number ≤ number_of x) }
    {
        let mut left = differ;
        let mut number: u64 = 0;
        for input in 0..inputs {
            let narrowed = self.narrow(left, input)?;
            left = narrowed.left;
            number = 2 * number + u64::from(narrowed.bit);
        }
        Ok(number)
    }

    /// The bit of a function at a word.
    pub fn value_at(&self, edge: Edge, word: Word) -> bool
        requires { IsEdge self.now edge }
        ensures { result ≡ value self.now edge word }
    {
        if edge.node == 0 {
            return edge.turned;
        }
        let node = self.node(edge.node);
        let bit = node.input < word.len() && word.bit(node.input);
        let next = if bit { node.high } else { node.low };
        self.value_at(next, word) != edge.turned
    }

    /// The number of the first word, of so many bits, at which two sides differ; none, where they are the same.
    pub fn first_apart(
        &mut self,
        alloc: Global,
        a: &mut [Edge],
        b: &mut [Edge],
        inputs: u8,
    ) -> Result<Option<u64>, DiagramFault>
        requires count { length a.old ≡ length b.old }
        requires a { All (IsEdge self.old) a.old }
        requires b { All (IsEdge self.old) b.old }
        requires inputs { inputs ≤ MOST_LINES }
        ensures { IfOk result (IsFirstApart inputs (word_at self.old a.old) (word_at self.old b.old)) }
    {
        self.make_room(alloc, a, b)?;
        let agree = self.agreement(a, b)?;
        let whole = agree.is_same(Edge::ONE);
        if whole {
            return Ok(None);
        }
        let mut differ = [agree.turn(true)];
        self.make_room(alloc, &mut differ, &mut [])?;
        let number = self.first_word(differ[0], inputs)?;
        let Some(word) = Word::new(inputs, number) else {
            unreachable!()
        };
        if !self.value_at(differ[0], word) {
            return Err(DiagramFault::TooLarge);
        }
        Ok(Some(number))
    }
}
