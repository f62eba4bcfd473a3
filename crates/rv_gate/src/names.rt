ghost use Rattle.std.specs.Prelude.{◌≡◌, ◌↔◌, ℕ, ◌+◌, ◌<◌, ◌≤◌, [], ◌∷◌, ◌++◌, length, slice_get, Contains, IfOk, OnOk};
ghost use Rattle.std.specs.Prelude.{OnErr};
ghost use Rattle.std.specs.List.{list_all};
ghost use Rattle.rv_gate.specs.Names.{AreNames, is_name_byte, is_name, IsName, IsPrefixByte, numbered, numbered_name};
ghost use Rattle.rv_gate.specs.declared.names.NameFault.TheVariants.{Mem};

use crate::MOST_LINES;
use indexmap::IndexSet;
use itoa::Buffer;
use std::alloc::{AllocError, Global};
use std::marker::Model;
use thiserror::Error;

/// How many hints there are: a byte each.
const HINTS: usize = 256;

/// The names of a circuit's lines, in their order: [`MOST_LINES`] at most, and no two the same.
///
/// A name is one or more bytes by the rule of RevLib's `.variables`: no space, tab, CR, LF, `#` or `"`,
/// and the first is neither `-` nor `.`.
#[derive(Drop)]
pub struct Names {
    set: IndexSet<Vec<u8>>,
    // For each hint that a name gives, the last line whose name gives it.
    hints: [u8; HINTS],
}

impl Model for Names {
    ghost use Rattle.std.specs.Prelude.{ℕ, List};
    ghost use Rattle.rv_gate.specs.Names.{AreNames};
    ghost use Rattle.rv_gate.specs.inside.NamesView.{names_view};

    ghost Value = { List (List ℕ) };

    ghost view = { λ n. names_view n.set };

    ghost invariant = { λ n. AreNames (names_view n.set) };
}

/// Why a name was not added.
#[derive(Clone, Copy, Debug, PartialEq, Eq, Error)]
pub enum NameFault {
    /// The bytes are no name.
    #[error("not a name")]
    NotAName,
    /// This line has the name.
    #[error("line {0} has the name")]
    Taken(u8),
    /// There are [`MOST_LINES`] names.
    #[error("too many names")]
    TooMany,
    #[error("out of memory")]
    Mem,
}

impl From<AllocError> for NameFault {
    ghost from_gives = { λ _ fault. fault ≡ Mem };

    fn from(_: AllocError) -> Self {
        NameFault::Mem
    }
}

fn is_name_byte(byte: u8) -> bool
    ensures { result ≡ is_name_byte byte }
{
    !matches!(byte, b' ' | b'\t' | b'\r' | b'\n' | b'#' | b'"')
}

fn are_name_bytes(name: &[u8]) -> bool
    ensures { result ≡ list_all is_name_byte name.now }
{
    name.iter().all(|byte| is_name_byte(*byte))
}

fn is_name(name: &[u8]) -> bool
    ensures { result ≡ is_name name.now }
{
    !name.is_empty() && name[0] != b'-' && name[0] != b'.' && are_name_bytes(name)
}

// The hint of a name: its last two bytes, so that names that end in numbers have each their own.
fn hint_of(name: &[u8]) -> u8
    ensures { result < HINTS }
{
    let len = name.len();
    if len == 0 {
        return 0;
    }
    let last = name[len - 1];
    if len == 1 {
        return last;
    }
    name[len - 2].wrapping_mul(10).wrapping_add(last)
}

impl Names {
    /// No names. Takes no memory.
    pub fn new(alloc: Global) -> Names
        ensures { result ≡ [] }
    {
        Names {
            set: IndexSet::new(alloc),
            hints: [0; HINTS],
        }
    }

    /// The names `prefix` followed by 0, 1, and so on, as `x0`, `x1`. Fails only for want of memory.
    pub fn numbered(alloc: Global, prefix: u8, count: u8) -> Result<Names, AllocError>
        requires letter { IsPrefixByte prefix }
        requires few { count ≤ MOST_LINES }
        ensures { IfOk result (λ names. names ≡ numbered prefix count) }
    {
        let mut names = Names::new(alloc);
        for line in 0..count {
            names.append_numbered(prefix, line)?;
        }
        Ok(names)
    }

    /// The same names. Fails only for want of memory.
    pub fn copy(&self) -> Result<Names, AllocError>
        ensures { IfOk result (λ names. names ≡ self.now) }
    {
        let mut names = Names::new(self.allocator());
        for line in 0..self.len() {
            names.append_copy(self.name(line))?;
        }
        Ok(names)
    }

    /// How many lines are named.
    pub fn len(&self) -> u8
        ensures len { result ≡ length self.now }
        ensures valid { AreNames self.now }
    {
        self.set.len() as u8
    }

    /// For proofs: recalls what every list of names keeps. Does nothing when it runs.
    pub fn recall_invariant(&self)
        ensures { AreNames self.now }
    {
        let _ = &self.hints;
    }

    /// The name of a line.
    pub fn name(&self, line: u8) -> &[u8]
        requires { line < length self.now }
        ensures { slice_get self.now line ≡ Some result.now }
    {
        &self.set[usize::from(line)]
    }

    /// The line that has this name.
    pub fn find(&self, name: &[u8]) -> Option<u8>
        ensures found { (line : ℕ) → (result ≡ Some line) ↔ (slice_get self.now line ≡ Some name.now) }
        ensures absent { (result ≡ None) ↔ (¬ Contains self.now name.now) }
    {
        let line = self.hints[usize::from(hint_of(name))];
        if line < self.len() && self.name(line) == name {
            return Some(line);
        }
        self.look_up(name)
    }

    // The line that has this name, by the set.
    #[inline(never)]
    fn look_up(&self, name: &[u8]) -> Option<u8>
        ensures found { (line : ℕ) → (result ≡ Some line) ↔ (slice_get self.now line ≡ Some name.now) }
        ensures absent { (result ≡ None) ↔ (¬ Contains self.now name.now) }
    {
        match self.set.get_index_of(name) {
            Some(line) => Some(line as u8),
            None => None,
        }
    }

    /// Names one more line. The first fault in the order of [`NameFault`] is answered.
    pub fn push(&mut self, name: &[u8]) -> Result<(), NameFault>
        ensures ok { OnOk result (self.new ≡ self.old ++ name.now ∷ []) }
        ensures err { OnErr result (self.new ≡ self.old) }
        ensures not_a_name { (result ≡ Err NameFault.NotAName) ↔ (¬ IsName name.now) }
        ensures taken { (line : ℕ) → (result ≡ Err (NameFault.Taken line))
            ↔ (IsName name.now × (slice_get self.old line ≡ Some name.now)) }
        ensures too_many { (result ≡ Err NameFault.TooMany)
            ↔ (IsName name.now × (¬ Contains self.old name.now) × (length self.old ≡ MOST_LINES)) }
    {
        if !is_name(name) {
            return Err(NameFault::NotAName);
        }
        if let Some(line) = self.find(name) {
            return Err(NameFault::Taken(line));
        }
        if self.len() == MOST_LINES {
            return Err(NameFault::TooMany);
        }
        self.append_copy(name)?;
        Ok(())
    }

    // Adds a name of these bytes that is not there yet.
    fn append_copy(&mut self, name: &[u8]) -> Result<(), AllocError>
        requires name { IsName name.now }
        requires free { ¬ Contains self.old name.now }
        requires room { length self.old < MOST_LINES }
        ensures ok { OnOk result (self.new ≡ self.old ++ name.now ∷ []) }
        ensures err { OnErr result (self.new ≡ self.old) }
    {
        let name = Vec::from_slice(self.allocator(), name)?;
        self.append(name)?;
        Ok(())
    }

    // Adds the numbered name of the next line.
    fn append_numbered(&mut self, prefix: u8, line: u8) -> Result<(), AllocError>
        requires letter { IsPrefixByte prefix }
        requires few { line < MOST_LINES }
        requires so_far { self.old ≡ numbered prefix line }
        ensures { OnOk result (self.new ≡ numbered prefix (line + 1)) }
    {
        let name = numbered_name(self.allocator(), prefix, line)?;
        self.append(name)?;
        Ok(())
    }

    // Adds a name that is not there yet.
    fn append(&mut self, name: Vec<u8>) -> Result<(), AllocError>
        requires name { IsName name.items }
        requires free { ¬ Contains self.old name.items }
        requires room { length self.old < MOST_LINES }
        ensures ok { OnOk result (self.new ≡ self.old ++ name.items ∷ []) }
        ensures err { OnErr result (self.new ≡ self.old) }
    {
        let line = self.set.len() as u8;
        let hint = hint_of(&name);
        self.set.insert(name)?;
        self.hints[usize::from(hint)] = line;
        Ok(())
    }

    pub(crate) fn allocator(&self) -> Global {
        *self.set.allocator()
    }
}

// The prefix, then the digits of the line.
fn numbered_name(alloc: Global, prefix: u8, line: u8) -> Result<Vec<u8>, AllocError>
    ensures { IfOk result (λ name. name.items ≡ numbered_name prefix line) }
{
    let mut buffer = Buffer::new();
    let mut name = Vec::from_slice(alloc, &[prefix])?;
    name.extend_from_slice(buffer.format(line).as_bytes())?;
    Ok(name)
}
