ghost use Rattle.std.specs.Prelude.{◌≡◌, ◌≤◌, ◌+◌, ◌∷◌, [], true, OnOk, IfOk, if◌then◌else◌};
ghost use Rattle.std.specs.Char.{is_ascii_digit};
ghost use Rattle.rv_text.specs.Bytes.{line_feed};
ghost use Rattle.rv_text.specs.Tokens.{is_blank};
ghost use Rattle.rv_text.specs.declared.lines.TheConstants.{MOST_BYTES};
ghost use Rattle.rv_qasm.specs.Tokens.{begins_name, is_in_name};
ghost use Rattle.rv_qasm.specs.inside.Lexing.{begun_on, goes_on, is_cut_by_mark, is_mark, with_new, with_more, in_mode};
ghost use Rattle.rv_qasm.specs.inside.Lexing.{continued, with_nothing_open, opened, with_first, next, ends};
ghost use Rattle.rv_qasm.specs.inside.Lexing.{statement_at};

use crate::tokens::Tokens;
use rv_text::MOST_BYTES;
use std::alloc::{AllocError, Global};
use std::marker::Model;

/// What is open in a statement.
#[derive(Clone, Copy)]
pub(crate) enum Mode {
    /// Nothing.
    Between,
    Name,
    /// The digits of a number.
    Digits,
    /// A dot after digits, which is part of the number if a digit follows.
    Point,
    /// A number with a dot.
    Decimals,
    /// A string.
    Quoted,
    /// A minus, which is part of an arrow if `>` follows.
    Minus,
    /// A token that takes no more bytes.
    Done,
    /// A slash, which begins a comment if another one follows.
    Slash,
    Comment,
}

/// Cuts a text that comes byte by byte into statements and their tokens.
///
/// After want of memory it is not used again.
#[derive(Drop)]
pub(crate) struct Lexer {
    tokens: Tokens,
    first: u32,
    line: u32,
    mode: Mode,
}

impl Model for Lexer {
    ghost use Rattle.rv_qasm.specs.inside.Lexing.{Begun};

    ghost Value = { Begun };

    ghost view = { λ l. record { tokens = l.tokens; first = l.first; line = l.line; mode = l.mode } };
}

fn begins_name(byte: u8) -> bool
    ensures { result ≡ begins_name byte }
{
    byte.is_ascii_alphabetic() || byte == b'_'
}

fn is_blank(byte: u8) -> bool
    ensures { result ≡ is_blank (line_feed ∷ []) byte }
{
    matches!(byte, b' ' | b'\t' | b'\r' | b'\n')
}

// Brackets and the comma.
fn is_mark(byte: u8) -> bool
    ensures { result ≡ is_mark byte }
{
    matches!(byte, b',' | b'[' | b']')
}

// Whether a mark ends what is open, and leaves no other token.
fn is_cut_by_mark(mode: Mode) -> bool
    ensures { result ≡ is_cut_by_mark mode }
{
    !matches!(
        mode,
        Mode::Point | Mode::Quoted | Mode::Slash | Mode::Comment
    )
}

// Whether a byte belongs to what is open.
fn goes_on(mode: Mode, byte: u8) -> bool
    ensures { result ≡ goes_on mode byte }
{
    match mode {
        Mode::Between | Mode::Done => false,
        Mode::Name => begins_name(byte) || byte.is_ascii_digit(),
        Mode::Digits => byte.is_ascii_digit() || byte == b'.',
        Mode::Point | Mode::Decimals => byte.is_ascii_digit(),
        Mode::Quoted | Mode::Comment => byte != b'\n',
        Mode::Minus => byte == b'>',
        Mode::Slash => byte == b'/',
    }
}

// What a byte opens.
fn opened(byte: u8) -> Mode
    ensures { result ≡ opened byte }
{
    if begins_name(byte) {
        Mode::Name
    } else if byte.is_ascii_digit() {
        Mode::Digits
    } else if byte == b'"' {
        Mode::Quoted
    } else if byte == b'-' {
        Mode::Minus
    } else {
        Mode::Done
    }
}

impl Lexer {
    /// A text begins. Takes no memory.
    pub(crate) fn new(alloc: Global) -> Lexer
        ensures { result ≡ begun_on 1 }
    {
        Lexer {
            tokens: Tokens::new(alloc),
            first: 0,
            line: 1,
            mode: Mode::Between,
        }
    }

    /// Takes a byte. Says whether it ends the statement, which is then there to be looked at.
    pub(crate) fn take(&mut self, byte: u8) -> Result<bool, AllocError>
        requires { self.old.line ≤ MOST_BYTES }
        ensures ended { IfOk result (λ ended. ended ≡ ends self.old.mode byte) }
        ensures next { IfOk result (λ ended.
            self.new ≡ (if ended then with_nothing_open self.old self.old.mode else next self.old byte)) }
        ensures line { self.new.line ≤ self.old.line + 1 }
    {
        if matches!(self.mode, Mode::Comment) && byte != b'\n' {
            return Ok(false);
        }
        if is_mark(byte) && is_cut_by_mark(self.mode) {
            self.put_new(byte, Mode::Done)?;
            return Ok(false);
        }
        if goes_on(self.mode, byte) {
            self.continue_with(byte)?;
            return Ok(false);
        }
        self.close()?;
        if byte == b';' {
            return Ok(true);
        }
        self.take_first(byte)?;
        Ok(false)
    }

    // A byte that belongs to what is open.
    fn continue_with(&mut self, byte: u8) -> Result<(), AllocError>
        ensures next { OnOk result (self.new ≡ continued self.old self.old.mode byte) }
        ensures line { self.new.line ≡ self.old.line }
    {
        match self.mode {
            Mode::Between | Mode::Done | Mode::Comment => Ok(()),
            Mode::Name | Mode::Decimals => self.tokens.grow(byte),
            Mode::Digits => self.continue_digits(byte),
            Mode::Point => {
                self.tokens.grow(b'.')?;
                self.put_more(byte, Mode::Decimals)
            }
            Mode::Quoted if byte == b'"' => self.put_more(byte, Mode::Done),
            Mode::Quoted => self.tokens.grow(byte),
            Mode::Minus => self.put_more(byte, Mode::Done),
            Mode::Slash => {
                self.mode = Mode::Comment;
                Ok(())
            }
        }
    }

    // A digit, or a dot, after digits.
    fn continue_digits(&mut self, byte: u8) -> Result<(), AllocError>
        ensures next { OnOk result (self.new ≡ continued self.old Mode.Digits byte) }
        ensures line { self.new.line ≡ self.old.line }
    {
        if byte == b'.' {
            self.mode = Mode::Point;
            Ok(())
        } else {
            self.put_more(byte, Mode::Digits)
        }
    }

    // Ends what is open.
    fn close(&mut self) -> Result<(), AllocError>
        ensures next { OnOk result (self.new ≡ with_nothing_open self.old self.old.mode) }
        ensures line { self.new.line ≡ self.old.line }
    {
        if matches!(self.mode, Mode::Point | Mode::Slash) {
            return self.close_last();
        }
        self.mode = Mode::Between;
        Ok(())
    }

    /// Ends what is open. A dot or a slash that was left is a token.
    #[cold]
    #[inline(never)]
    pub(crate) fn close_last(&mut self) -> Result<(), AllocError>
        ensures next { OnOk result (self.new ≡ with_nothing_open self.old self.old.mode) }
        ensures line { self.new.line ≡ self.old.line }
    {
        match self.mode {
            Mode::Point => self.put_new(b'.', Mode::Between),
            Mode::Slash => self.put_new(b'/', Mode::Between),
            _ => {
                self.mode = Mode::Between;
                Ok(())
            }
        }
    }

    // A byte where nothing is open.
    fn take_first(&mut self, byte: u8) -> Result<(), AllocError>
        requires { self.old.line ≤ MOST_BYTES }
        ensures next { OnOk result (self.new ≡ with_first self.old byte) }
        ensures line { self.new.line ≤ self.old.line + 1 }
    {
        if is_blank(byte) {
            self.line += u32::from(byte == b'\n');
            Ok(())
        } else if byte == b'/' {
            self.mode = Mode::Slash;
            Ok(())
        } else {
            self.put_new(byte, opened(byte))
        }
    }

    fn put_new(&mut self, byte: u8, mode: Mode) -> Result<(), AllocError>
        ensures next { OnOk result (self.new ≡ with_new self.old byte mode) }
        ensures line { self.new.line ≡ self.old.line }
    {
        if self.tokens.len() == 0 {
            self.first = self.line;
        }
        self.mode = mode;
        self.tokens.begin(byte)
    }

    fn put_more(&mut self, byte: u8, mode: Mode) -> Result<(), AllocError>
        ensures next { OnOk result (self.new ≡ with_more self.old byte mode) }
        ensures line { self.new.line ≡ self.old.line }
    {
        self.mode = mode;
        self.tokens.grow(byte)
    }

    /// The tokens of the statement.
    pub(crate) fn tokens(&self) -> &Tokens
        ensures { result.now ≡ self.now.tokens }
    {
        &self.tokens
    }

    /// The line of the statement's first token, or the line that is being read if it has none.
    pub(crate) fn line(&self) -> u32
        ensures { result ≡ (statement_at self.now).line }
    {
        if self.tokens.len() == 0 {
            self.line
        } else {
            self.first
        }
    }

    /// Whether a statement begins.
    pub(crate) fn is_at_start(&self) -> bool
        ensures { result ≡ true → self.now ≡ begun_on self.now.line }
    {
        self.tokens.len() == 0 && self.first == 0 && matches!(self.mode, Mode::Between)
    }

    /// Goes to the next line, where a statement begins.
    pub(crate) fn next_line(&mut self)
        requires { self.old.line ≤ MOST_BYTES }
        ensures { self.new ≡ record self.old { line = self.old.line + 1 } }
    {
        self.line += 1;
    }

    /// How many line feeds there were, and 1.
    pub(crate) fn line_read(&self) -> u32
        ensures { result ≡ self.now.line }
    {
        self.line
    }

    /// Lets the statement go.
    pub(crate) fn begin_next(&mut self)
        ensures { self.new ≡ begun_on self.old.line }
    {
        self.tokens.clear();
        self.first = 0;
        self.mode = Mode::Between;
    }
}
