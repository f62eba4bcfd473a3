ghost use Rattle.std.specs.Prelude.{◌≡◌, ◌+◌, ◌<◌, ◌≤◌, ◌++◌, ◌∷◌, ℕ, List, [], false, length, decimal};
ghost use Rattle.rv_io.specs.Sink.{Sends, SinkView};
ghost use Rattle.rv_io.specs.Writer.{Adds, Writes, short_bytes};
ghost use Rattle.rv_io.specs.declared.writer.TheConstants.{ROOM};
ghost use Rattle.rv_io.specs.declared.short_text.TheConstants.{SHORT};

use crate::{SHORT, ShortText, Sink, WriteFault, put_all};
use itoa::Buffer;
use std::marker::Model;

/// How many bytes a writer holds back.
const ROOM: usize = 4096;

/// Gathers a text in a fixed room and sends it in large pieces.
///
/// A put never fails by itself: after a fault of the sink nothing more is sent, and `finish`
/// answers the fault. Every call is to be given the same sink. No call takes memory, and the sink
/// is not flushed.
#[derive(Drop)]
pub struct Writer {
    room: [u8; ROOM],
    len: usize,
    failed: bool,
}

impl Model for Writer {
    ghost use Rattle.std.specs.Prelude.{◌≤◌, take};
    ghost use Rattle.rv_io.specs.declared.writer.TheConstants.{ROOM};
    ghost use Rattle.rv_io.specs.Writer.{Writer};

    ghost Value = { Writer };

    ghost view = { λ w. record { held = take w.len w.room; has_failed = w.failed } };

    ghost invariant = { λ w. w.len ≤ ROOM };
}

impl Writer {
    /// A writer that holds nothing.
    pub fn new() -> Writer
        ensures empty { result ≡ record { held = []; has_failed = false } }
        ensures begins { (base : SinkView) → Writes base [] result base }
    {
        Writer {
            room: [0; ROOM],
            len: 0,
            failed: false,
        }
    }

    /// Adds the bytes to the text.
    pub fn put<O: Sink>(&mut self, sink: &mut O, bytes: &[u8])
        ensures { Adds self.old (O.view sink.old) bytes.now self.new (O.view sink.new) }
    {
        if bytes.len() <= ROOM - self.len {
            self.hold(bytes);
        } else {
            self.put_after_sending(sink, bytes);
        }
    }

    // Sends what is held, and then adds the bytes.
    #[inline(never)]
    fn put_after_sending<O: Sink>(&mut self, sink: &mut O, bytes: &[u8])
        ensures { Adds self.old (O.view sink.old) bytes.now self.new (O.view sink.new) }
    {
        self.empty(sink);
        if bytes.len() <= ROOM {
            self.hold(bytes);
        } else {
            self.pass(sink, bytes);
        }
    }

    // Sends what is held.
    fn empty<O: Sink>(&mut self, sink: &mut O)
        ensures emptied { self.new.held ≡ [] }
        ensures writes { (base : SinkView) (text : List ℕ) → Writes base text self.old (O.view sink.old)
            → Writes base text self.new (O.view sink.new) }
    {
        self.failed = send(self.failed, sink, &self.room[..self.len]);
        self.len = 0;
    }

    // Sends the bytes at once.
    fn pass<O: Sink>(&mut self, sink: &mut O, bytes: &[u8])
        requires { self.old.held ≡ [] }
        ensures { (base : SinkView) (text : List ℕ) → Writes base text self.old (O.view sink.old)
            → Writes base (text ++ bytes.now) self.new (O.view sink.new) }
    {
        self.failed = send(self.failed, sink, bytes);
    }

    // Holds the bytes back.
    fn hold(&mut self, bytes: &[u8])
        requires { length self.old.held + length bytes.now ≤ ROOM }
        ensures { self.new ≡ record self.old { held = self.old.held ++ bytes.now } }
    {
        let end = self.len + bytes.len();
        self.room[self.len..end].copy_from_slice(bytes);
        self.len = end;
    }

    /// Adds one byte to the text.
    pub fn put_byte<O: Sink>(&mut self, sink: &mut O, byte: u8)
        ensures { Adds self.old (O.view sink.old) (byte ∷ []) self.new (O.view sink.new) }
    {
        if self.len < ROOM {
            self.hold_byte(byte);
        } else {
            self.put_after_sending(sink, &[byte]);
        }
    }

    // Holds the byte back.
    fn hold_byte(&mut self, byte: u8)
        requires { length self.old.held < ROOM }
        ensures { self.new ≡ record self.old { held = self.old.held ++ byte ∷ [] } }
    {
        self.room[self.len] = byte;
        self.len += 1;
    }

    /// Adds a short text to the text.
    pub fn put_short<O: Sink>(&mut self, sink: &mut O, text: &ShortText)
        ensures { Adds self.old (O.view sink.old) (short_bytes text.now) self.new (O.view sink.new) }
    {
        if SHORT <= ROOM - self.len {
            self.hold_short(text);
        } else {
            self.put_after_sending(sink, text.as_slice());
        }
    }

    // Holds the text back. So many bytes are copied whatever its length, which takes one step.
    fn hold_short(&mut self, text: &ShortText)
        requires { length self.old.held + SHORT ≤ ROOM }
        ensures { self.new ≡ record self.old { held = self.old.held ++ short_bytes text.now } }
    {
        let start = self.len;
        self.room[start..start + SHORT].copy_from_slice(&text.bytes);
        self.len = start + text.len;
    }

    /// Adds the decimal digits of a number to the text.
    pub fn put_number<O: Sink>(&mut self, sink: &mut O, n: u128)
        ensures { Adds self.old (O.view sink.old) (decimal n) self.new (O.view sink.new) }
    {
        if n < 10 {
            self.put_byte(sink, b'0' + n as u8);
        } else if n <= u128::from(u32::MAX) {
            let mut buffer = Buffer::new();
            self.put(sink, buffer.format(n as u32).as_bytes());
        } else {
            self.put_large(sink, n);
        }
    }

    // Adds the decimal digits of a number that takes more than 32 bits.
    #[inline(never)]
    fn put_large<O: Sink>(&mut self, sink: &mut O, n: u128)
        ensures { Adds self.old (O.view sink.old) (decimal n) self.new (O.view sink.new) }
    {
        let mut buffer = Buffer::new();
        self.put(sink, buffer.format(n).as_bytes());
    }

    /// Sends what is held, and answers whether the whole text was sent.
    pub fn finish<O: Sink>(self, sink: &mut O) -> Result<(), WriteFault>
        ensures { (base : SinkView) (text : List ℕ) → Writes base text self (O.view sink.old)
            → Sends base text result (O.view sink.new) }
    {
        if send(self.failed, sink, &self.room[..self.len]) {
            return Err(WriteFault);
        }
        Ok(())
    }
}

// Sends the bytes, unless a put has failed before. Answers whether one has failed.
fn send<O: Sink>(failed: bool, sink: &mut O, bytes: &[u8]) -> bool
    ensures { (base : SinkView) (text : List ℕ)
        → Writes base text (record { held = bytes.now; has_failed = failed }) (O.view sink.old)
        → Writes base text (record { held = []; has_failed = result }) (O.view sink.new) }
{
    failed || put_all(sink, bytes).is_err()
}
