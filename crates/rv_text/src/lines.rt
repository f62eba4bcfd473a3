ghost use Rattle.std.specs.Prelude.{◌≡◌, ◌≤◌, ◌<◌, ◌+◌, ◌++◌, ◌↔◌, ◌==◌, ℕ, List, [], ◌∷◌, true, false, length, take};
ghost use Rattle.std.specs.Prelude.{max, IfOk, OnOk, OnErr, IsTrue, if◌then◌else◌};
ghost use Rattle.std.specs.List.{position};
ghost use Rattle.rv_text.specs.Bytes.{line_feed};
ghost use Rattle.rv_text.specs.Lines.{first_end, lines_of};
ghost use Rattle.rv_text.specs.Cut.{IsCut};
ghost use Rattle.rv_text.specs.Held.{TakesPiece, HasTaken, HasGivenAll, IsLine};
ghost use Rattle.rv_text.specs.inside.Kept.{with_bytes};

use crate::bytes::first_place;
use std::alloc::{AllocError, Global};
use std::marker::Model;

/// The length of the longest text, in bytes.
pub const MOST_BYTES: u32 = 1 << 27;

/// What a piece gave.
#[derive(Clone, Copy, Debug, PartialEq, Eq)]
pub struct Fed {
    /// How many bytes of the piece were taken, from its front.
    pub used: usize,
    /// Whether a line is ready now.
    pub ready: bool,
}

/// Cuts a text that comes in pieces into its lines.
///
/// Feed each piece until all of it is used. Where a line gets ready, look at it, and ask for the
/// next one before the rest of the piece is fed. At the end of the text `finish` makes the last
/// line ready where it lacks its line feed.
///
/// ```text
/// while at < piece.len() {
///     let fed = lines.feed(&piece[at..])?;
///     at += fed.used;
///     if fed.ready {
///         look(lines.number(), lines.text());
///         lines.next_line();
///     }
/// }
/// ```
///
/// Only a line that is longer than each one before takes memory.
#[derive(Drop)]
pub struct Lines {
    bytes: Vec<u8>,
    ready: bool,
    number: u32,
    taken: usize,
    greatest: usize,
}

impl Model for Lines {
    ghost use Rattle.std.specs.Prelude.{vec_capacity};
    ghost use Rattle.rv_text.specs.Held.{Held};
    ghost use Rattle.rv_text.specs.inside.Kept.{IsHeld};

    ghost Value = { Held };

    ghost view = { λ s.
        record {
          line = s.bytes.items;
          is_ready = s.ready;
          number = s.number;
          taken = s.taken;
          greatest = s.greatest;
        } };

    ghost invariant = { λ s.
        IsHeld
        (record {
          line = s.bytes.items;
          is_ready = s.ready;
          number = s.number;
          taken = s.taken;
          greatest = s.greatest;
        })
        (vec_capacity s.bytes) };
}

impl Lines {
    /// A value that has taken nothing.
    pub fn new(alloc: Global) -> Lines
        ensures empty { result ≡ record { line = []; is_ready = false; number = 0; taken = 0; greatest = 0 } }
        ensures text { HasTaken result [] }
    {
        Lines {
            bytes: Vec::new(alloc),
            ready: false,
            number: 0,
            taken: 0,
            greatest: 0,
        }
    }

    /// Takes the bytes of a piece up to and with its first line feed, and then a line is ready.
    /// Takes all of a piece without a line feed.
    pub fn feed(&mut self, piece: &[u8]) -> Result<Fed, AllocError>
        requires not_ready { self.old.is_ready ≡ false }
        requires limit { self.old.taken + length piece.now ≤ MOST_BYTES }
        ensures ok { IfOk result (λ fed. TakesPiece self.old piece.now fed.used fed.ready self.new) }
        ensures text { (text : List ℕ) → HasTaken self.old text
            → IfOk result (λ fed. HasTaken self.new (text ++ take fed.used piece.now)) }

        // Want of memory comes only where the line would get longer than each line so far.
        ensures err { OnErr result (self.new ≡ self.old) }
        ensures grows { OnErr result (self.old.greatest < length self.old.line + first_end piece.now) }
    {
        match line_end(piece) {
            Some(end) => {
                self.hold(&piece[..end])?;
                self.taken += 1;
                self.number += 1;
                self.ready = true;
                Ok(Fed {
                    used: end + 1,
                    ready: true,
                })
            }
            None => {
                self.hold(piece)?;
                Ok(Fed {
                    used: piece.len(),
                    ready: false,
                })
            }
        }
    }

    // Takes bytes without a line feed.
    fn hold(&mut self, bytes: &[u8]) -> Result<(), AllocError>
        requires not_ready { self.old.is_ready ≡ false }
        requires limit { self.old.taken + length bytes.now ≤ MOST_BYTES }
        ensures ok { OnOk result (self.new ≡ with_bytes self.old bytes.now) }
        ensures err { OnErr result (self.new ≡ self.old) }
        ensures grows { OnErr result (self.old.greatest < length self.old.line + length bytes.now) }
    {
        self.bytes.extend_from_slice(bytes)?;
        self.taken += bytes.len();
        self.greatest = self.greatest.max(self.bytes.len());
        Ok(())
    }

    /// Makes the last line ready where it lacks its line feed. Says whether there is such a line.
    pub fn finish(&mut self) -> bool
        requires { self.old.is_ready ≡ false }
        ensures held { IsTrue result ↔ (0 < length self.old.line) }
        ensures new { self.new
            ≡ record self.old { is_ready = result; number = self.old.number + (if result then 1 else 0) } }
        ensures text { (text : List ℕ) → HasTaken self.old text → HasGivenAll self.new text }

        // The lines of a text are those that make it again, and no others.
        ensures lines { (text : List ℕ) (lines : List (List ℕ)) → IsCut text lines ↔ (lines ≡ lines_of text) }
    {
        let held = !self.bytes.is_empty();
        self.ready = held;
        self.number += u32::from(held);
        held
    }

    /// The line that is ready, without its line feed.
    pub fn text(&self) -> &[u8]
        requires { self.now.is_ready ≡ true }
        ensures line { result.now ≡ self.now.line }

        // It is this line of the text that was taken, whatever follows.
        ensures text { (text more : List ℕ) → HasTaken self.now text
            → IsLine (text ++ more) self.now.number result.now }
    {
        self.bytes.as_slice()
    }

    /// How many lines were ready so far: the number of the line that is ready, counted from 1.
    pub fn number(&self) -> u32
        ensures { result ≡ self.now.number }
    {
        self.number
    }

    /// Lets the ready line go.
    pub fn next_line(&mut self)
        requires { self.old.is_ready ≡ true }
        ensures new { self.new ≡ record self.old { line = []; is_ready = false } }
        ensures text { (text : List ℕ) → HasTaken self.old text → HasTaken self.new text }
    {
        self.bytes.clear();
        self.ready = false;
    }
}

// Where the first line feed stands.
fn line_end(piece: &[u8]) -> Option<usize>
    ensures { result ≡ position (λ b. b == line_feed) piece.now }
{
    first_place(b'\n', piece)
}
