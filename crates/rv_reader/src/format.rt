ghost use Rattle.std.specs.Prelude.{◌≡◌, ◌≤◌, ◌+◌, ℕ, List, length, Option, Result, OnOk};
ghost use Rattle.std.specs.Result.{result_err};
ghost use Rattle.rv_text.specs.declared.lines.TheConstants.{MOST_BYTES};
ghost use Rattle.rv_text.specs.Spelled.{IsOneLine};
ghost use Rattle.rv_reader.specs.declared.text_refusal.TextRefusal.{TextRefusal};
ghost use Rattle.rv_reader.specs.declared.text_refusal.TextRefusal.TheVariants.{Mem};
ghost use Rattle.rv_reader.specs.declared.whole.Whole.{Whole};
ghost use Rattle.rv_text.specs.declared.fault.TextFault.{TextFault};
ghost use Rattle.rv_reader.specs.Rules.{Rules, lines_read};
ghost use Rattle.rv_reader.specs.Gives.{StepGives};
ghost use Rattle.rv_reader.specs.Feeding.{Answers, object_of};

use crate::{Stop, TextRefusal};
use std::alloc::Global;

/// A format that is read line by line: what its lines gave so far.
pub trait Format: Drop {
    /// What a text denotes.
    type Object: Drop;

    /// Why a text is refused.
    type Fault: Drop;

    /// What a text denotes, or its first fault: the format's definition, on all lines of the text.
    ghost denoted: { List ℕ → Result Self.Object Self.Fault };

    /// The first fault in lines: the rules of the format's definition, on all of them.
    ghost fault_in: { List (List ℕ) → Option TextFault };

    /// The rules of the lines, one by one.
    ghost rules: { Rules Self };

    /// What all lines give.
    ghost end_of: { Whole Self → Result Self.Object Self.Fault };

    /// Why a text was refused before its end.
    ghost as_fault: { TextRefusal → Self.Fault };

    /// How much a state holds. A line adds no more than its bytes and its line feed.
    ghost size: { Self → ℕ } = { λ _. 0 };

    /// The state in which a text begins. Takes no memory.
    fn new(alloc: Global) -> Self
        ensures start { result ≡ rules.start }
        ensures size { size result ≡ 0 };

    /// Reads a line: its number, counted from 1, and its bytes without the line feed.
    ///
    /// A fault is the first rule that the line breaks. After a stop the state is not used again.
    fn read_line(&mut self, number: u32, line: &[u8]) -> Result<(), Stop>
        requires one { IsOneLine line.now }
        requires len { length line.now ≤ MOST_BYTES }
        requires room { size self.old + length line.now ≤ MOST_BYTES }
        ensures gives { StepGives result self.new (rules.line_of self.old number line.now) }
        ensures size { OnOk result (size self.new ≤ size self.old + length line.now + 1) };

    /// The object of all lines, which are so many, or the first fault of the end.
    fn end(self, lines: u32) -> Result<Self::Object, Self::Fault>
        requires room { size self ≤ MOST_BYTES + 1 }
        ensures { Answers (as_fault Mem) result (end_of (record { state = self; lines = lines })) };

    /// A refusal in the words of the format.
    fn fault(refusal: TextRefusal) -> Self::Fault
        ensures { result ≡ as_fault refusal };

    /// Line by line the rules find the first fault.
    ghost finds: { (lines : List (List ℕ)) → result_err (lines_read rules 0 rules.start lines) ≡ fault_in lines };

    /// Line by line a text gives what it denotes.
    ghost denotes: { (text : List ℕ) → object_of rules as_fault end_of text ≡ denoted text };
}
