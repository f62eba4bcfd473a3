ghost use Rattle.std.specs.Prelude.{◌≡◌, ◌≤◌, ◌+◌, ◌⊎◌, ℕ, List, [], ◌++◌, length, Option, Some, Result, Err, IfErr};
ghost use Rattle.std.specs.Prelude.{OnOk};
ghost use Rattle.rv_text.specs.declared.lines.TheConstants.{MOST_BYTES};
ghost use Rattle.rv_reader.specs.Feeding.{Answers, unless_refused};

use std::alloc::Global;

/// A reader that is fed a text in pieces of any size.
///
/// It takes at most [`MOST_BYTES`](rv_text::MOST_BYTES) bytes in all. Once a piece is refused, the
/// reader answers that refusal to all that follows, want of memory too.
pub trait TextReader: Drop {
    /// What a text denotes.
    type Object: Drop;

    /// Why a text is refused.
    type Fault: Drop;

    /// What a text denotes, or its first fault.
    ghost denoted: { List ℕ → Result Self.Object Self.Fault };

    /// The first fault in the ended lines or statements of a text, if there is one.
    ghost ended: { List ℕ → Result (Unit {0}) Self.Fault };

    /// Want of memory.
    ghost mem: { Self.Fault };

    /// Whether a reader stands for the bytes that it was fed, in whatever pieces.
    ghost Stands: { Self → List ℕ → Type 0 };

    /// How many bytes a reader was fed.
    ghost fed: { Self → ℕ };

    /// The refusal that a reader keeps.
    ghost refusal: { Self → Option Self.Fault };

    /// A reader that was fed nothing. Takes no memory.
    fn new(alloc: Global) -> Self
        ensures fed { fed result ≡ 0 }
        ensures stands { Stands result [] };

    /// Takes the next piece of the text. What ends in it is read at once.
    fn feed(&mut self, piece: &[u8]) -> Result<(), Self::Fault>
        requires { fed self.old + length piece.now ≤ MOST_BYTES }
        ensures fed { OnOk result (fed self.new ≡ fed self.old + length piece.now) }
        ensures fed_most { fed self.new ≤ fed self.old + length piece.now }

        // However the text was cut.
        ensures stands { (text : List ℕ) → Stands self.old text → OnOk result (Stands self.new (text ++ piece.now)) }

        // A fault is answered exactly where an ended line or statement holds the text's first one.
        ensures first { (text : List ℕ) → Stands self.old text → Answers mem result (ended (text ++ piece.now)) }

        // It is that of each text that goes on so.
        ensures holds { (text : List ℕ) → Stands self.old text
            → IfErr result (λ fault.
            (fault ≡ mem) ⊎ ((more : List ℕ) → denoted ((text ++ piece.now) ++ more) ≡ Err fault)) }

        // A refusal is kept, want of memory too.
        ensures tells { result ≡ unless_refused (refusal self.new) }
        ensures stays { (fault : Self.Fault) → refusal self.old ≡ Some fault → self.new ≡ self.old };

    /// What the text denotes, or its first fault.
    fn finish(self) -> Result<Self::Object, Self::Fault>
        ensures stands { (text : List ℕ) → Stands self text → Answers mem result (denoted text) }
        ensures stays { (fault : Self.Fault) → refusal self ≡ Some fault → result ≡ Err fault };
}
