ghost use Rattle.std.specs.Prelude.{◌≡◌, ◌<◌, ◌≤◌, ◌↔◌, ◌++◌, ◌∷◌, [], length, map, All, IsTrue};
ghost use Rattle.rv_gate.specs.Gate.{run};
ghost use Rattle.rv_many.specs.declared.words.TheConstants.{MOST_WORDS};

use rv_gate::{Circuit, Word};
use rv_many::{MOST_WORDS, run_words};
use std::marker::Model;

/// Words that wait to be run together, in the order in which they came.
#[derive(Drop)]
pub(crate) struct Waiting {
    room: [Word; MOST_WORDS],
    count: usize,
}

impl Model for Waiting {
    ghost use Rattle.std.specs.Prelude.{Bool, List, ◌≤◌, take};
    ghost use Rattle.rv_many.specs.declared.words.TheConstants.{MOST_WORDS};

    ghost Value = { List (List Bool) };

    ghost view = { λ w. take w.count w.room };

    ghost invariant = { λ w. w.count ≤ MOST_WORDS };
}

impl Waiting {
    /// No words.
    pub fn new() -> Waiting
        ensures { result ≡ [] }
    {
        let Some(word) = Word::new(1, 0) else {
            unreachable!()
        };
        Waiting {
            room: [word; MOST_WORDS],
            count: 0,
        }
    }

    /// Whether there are as many as may run together.
    pub fn is_full(&self) -> bool
        ensures full { IsTrue result ↔ (length self.now ≡ MOST_WORDS) }
        ensures few { length self.now ≤ MOST_WORDS }
    {
        self.words().len() == MOST_WORDS
    }

    /// Adds a word.
    pub fn push(&mut self, word: Word)
        requires { length self.old < MOST_WORDS }
        ensures { self.new ≡ self.old ++ word ∷ [] }
    {
        let room = &mut self.room[..];
        room[self.count] = word;
        self.count += 1;
    }

    /// Lets the circuit run the words.
    pub fn run(&mut self, circuit: &Circuit)
        requires { All (λ word. length word ≡ length circuit.now.names) self.old }
        ensures { self.new ≡ map (λ word. run circuit.now.gates word) self.old }
    {
        run_words(circuit, &mut self.room[..self.count]);
    }

    /// The words.
    pub fn words(&self) -> &[Word]
        ensures words { result.now ≡ self.now }
        ensures few { length self.now ≤ MOST_WORDS }
    {
        &self.room[..self.count]
    }

    /// Drops all words.
    pub fn clear(&mut self)
        ensures { self.new ≡ [] }
    {
        self.count = 0;
    }
}
