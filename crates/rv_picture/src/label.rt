ghost use Rattle.std.specs.Prelude.{◌≡◌, ◌<◌, [], ◌∷◌, MatchOption, is_some};
ghost use Rattle.std.specs.List.{flat_map, list_all};
ghost use Rattle.std.specs.Str.{is_utf8};
ghost use Rattle.rv_io.specs.Writer.{Adds};
ghost use Rattle.rv_picture.specs.Labels.{digit, digits, escaped, is_printable, is_special, is_visible, written_label};
ghost use Rattle.rv_picture.specs.Markup.{escapes};
ghost use Rattle.rv_picture.specs.inside.Plain.{is_plain};

use rv_io::{Sink, Writer};
use std::str::from_utf8;

/// The language of a picture.
#[derive(Clone, Copy)]
pub(crate) enum Markup {
    Latex,
    Svg,
}

// What is written for a byte that has another meaning.
fn latex_escape(byte: u8) -> Option<&'static [u8]>
    ensures text { MatchOption result (escaped (escapes Markup.Latex) byte ≡ byte ∷ [])
        (λ text. text.now ≡ escaped (escapes Markup.Latex) byte) }
    ensures special { is_some result ≡ is_special (escapes Markup.Latex) byte }
{
    if byte == b' ' {
        Some(b"\\ ")
    } else if byte == b'"' {
        Some(b"\\symbol{34}")
    } else if byte == b'#' {
        Some(b"\\#")
    } else if byte == b'$' {
        Some(b"\\$")
    } else if byte == b'%' {
        Some(b"\\%")
    } else if byte == b'&' {
        Some(b"\\symbol{38}")
    } else if byte == b'\'' {
        Some(b"\\symbol{39}")
    } else if byte == b'-' {
        Some(b"\\symbol{45}")
    } else if byte == b'<' {
        Some(b"\\textless{}")
    } else if byte == b'>' {
        Some(b"\\textgreater{}")
    } else if byte == b'\\' {
        Some(b"\\textbackslash{}")
    } else if byte == b'^' {
        Some(b"\\textasciicircum{}")
    } else if byte == b'_' {
        Some(b"\\_")
    } else if byte == b'`' {
        Some(b"\\symbol{96}")
    } else if byte == b'{' {
        Some(b"\\{")
    } else if byte == b'|' {
        Some(b"\\textbar{}")
    } else if byte == b'}' {
        Some(b"\\}")
    } else if byte == b'~' {
        Some(b"\\textasciitilde{}")
    } else {
        None
    }
}

fn svg_escape(byte: u8) -> Option<&'static [u8]>
    ensures text { MatchOption result (escaped (escapes Markup.Svg) byte ≡ byte ∷ [])
        (λ text. text.now ≡ escaped (escapes Markup.Svg) byte) }
    ensures special { is_some result ≡ is_special (escapes Markup.Svg) byte }
{
    if byte == b'&' {
        Some(b"&amp;")
    } else if byte == b'<' {
        Some(b"&lt;")
    } else if byte == b'>' {
        Some(b"&gt;")
    } else if byte == b'"' {
        Some(b"&quot;")
    } else if byte == b'\'' {
        Some(b"&#39;")
    } else {
        None
    }
}

fn escape(markup: Markup, byte: u8) -> Option<&'static [u8]>
    ensures text { MatchOption result (escaped (escapes markup) byte ≡ byte ∷ [])
        (λ text. text.now ≡ escaped (escapes markup) byte) }
    ensures special { is_some result ≡ is_special (escapes markup) byte }
{
    match markup {
        Markup::Latex => latex_escape(byte),
        Markup::Svg => svg_escape(byte),
    }
}

// Adds a byte as it is written in a language.
fn put_byte<O: Sink>(writer: &mut Writer, sink: &mut O, markup: Markup, byte: u8)
    ensures { Adds writer.old (O.view sink.old) (escaped (escapes markup) byte) writer.new (O.view sink.new) }
{
    match escape(markup, byte) {
        Some(text) => writer.put(sink, text),
        None => writer.put_byte(sink, byte),
    }
}

/// Adds a label to the text.
pub(crate) fn put_label<O: Sink>(writer: &mut Writer, sink: &mut O, markup: Markup, label: &[u8])
    ensures { Adds writer.old (O.view sink.old)
        (written_label (escapes markup) label.now)
        writer.new (O.view sink.new) }
{
    if are_plain(markup, label) {
        writer.put(sink, label);
    } else {
        put_escaped(writer, sink, markup, label);
    }
}

// Whether each byte stands as it is: so do most labels, in one piece.
fn are_plain(markup: Markup, label: &[u8]) -> bool
    ensures { result ≡ list_all (is_plain (escapes markup)) label.now }
{
    label.iter().all(|byte| is_plain(markup, *byte))
}

// Whether a byte is of ASCII, and stands as it is.
fn is_plain(markup: Markup, byte: u8) -> bool
    ensures { result ≡ is_plain (escapes markup) byte }
{
    byte < 128 && is_visible(byte) && escape(markup, byte).is_none()
}

// Adds a label byte by byte.
fn put_escaped<O: Sink>(writer: &mut Writer, sink: &mut O, markup: Markup, label: &[u8])
    ensures { Adds writer.old (O.view sink.old)
        (written_label (escapes markup) label.now)
        writer.new (O.view sink.new) }
{
    if is_printable(label) {
        put_bytes(writer, sink, markup, label);
    } else {
        put_byte(writer, sink, markup, b'"');
        put_digits(writer, sink, markup, label);
        put_byte(writer, sink, markup, b'"');
    }
}

fn put_bytes<O: Sink>(writer: &mut Writer, sink: &mut O, markup: Markup, bytes: &[u8])
    ensures { Adds writer.old (O.view sink.old)
        (flat_map (escaped (escapes markup)) bytes.now)
        writer.new (O.view sink.new) }
{
    for byte in bytes {
        put_byte(writer, sink, markup, *byte);
    }
}

// Two digits for each byte.
fn put_digits<O: Sink>(writer: &mut Writer, sink: &mut O, markup: Markup, bytes: &[u8])
    ensures { Adds writer.old (O.view sink.old)
        (flat_map (escaped (escapes markup)) (flat_map digits bytes.now))
        writer.new (O.view sink.new) }
{
    for byte in bytes {
        put_two(writer, sink, markup, *byte);
    }
}

fn put_two<O: Sink>(writer: &mut Writer, sink: &mut O, markup: Markup, byte: u8)
    ensures { Adds writer.old (O.view sink.old)
        (flat_map (escaped (escapes markup)) (digits byte))
        writer.new (O.view sink.new) }
{
    put_byte(writer, sink, markup, digit(byte / 16));
    put_byte(writer, sink, markup, digit(byte % 16));
}

fn digit(n: u8) -> u8
    requires { n < 16 }
    ensures { result ≡ digit n }
{
    if n < 10 { b'0' + n } else { b'a' - 10 + n }
}

/// Whether a label can be shown as it is.
pub(crate) fn is_printable(label: &[u8]) -> bool
    ensures { result ≡ is_printable label.now }
{
    is_utf8(label) && are_visible(label)
}

fn is_utf8(label: &[u8]) -> bool
    ensures { result ≡ is_utf8 label.now }
{
    match from_utf8(label) {
        Ok(_) => true,
        Err(_) => false,
    }
}

fn are_visible(label: &[u8]) -> bool
    ensures { result ≡ list_all is_visible label.now }
{
    label.iter().all(|byte| is_visible(*byte))
}

fn is_visible(byte: u8) -> bool
    ensures { result ≡ is_visible byte }
{
    byte >= 32 && byte != 127
}
