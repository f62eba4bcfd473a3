// Contents that are read whole, numbers and long texts that are sent, and the files and streams of the system.
use super::expect_true;
use rv_io::{
    Files, Flushed, Got, HostFiles, HostSink, InFault, MemFiles, MemSink, Put, Sink, Started,
    WriteFault, Writer, flush_to, put_all, put_number, put_to, read_all, read_from,
};
use std::alloc::Global;
use std::process::Abort;

fn add(rt: &impl Abort, files: &mut MemFiles, name: &str, text: &[u8]) {
    files.add(name, text).expect(rt, "memory");
}

// Files that give a byte at a time.
fn word_and_empty(rt: &impl Abort, alloc: Global) -> MemFiles {
    let mut files = MemFiles::new(alloc);
    add(rt, &mut files, "word", b"older");
    add(rt, &mut files, "word", b"abc");
    add(rt, &mut files, "empty", b"");
    files.piece(1);
    files
}

// The content of a name up to a limit.
fn expect_content(
    rt: &impl Abort,
    alloc: Global,
    files: &mut MemFiles,
    (name, limit): (&str, u8),
    want: Result<&[u8], InFault>,
) {
    match read_all(alloc, files, name, u32::from(limit)) {
        Ok(bytes) => expect_true(rt, name, Ok(bytes.as_slice()) == want),
        Err(fault) => expect_true(rt, name, Err(fault) == want),
    }
}

#[test]
fn a_name_is_read_up_to_the_limit(rt: HostRuntime) {
    let cases: [(&str, u8, Result<&[u8], InFault>); 5] = [
        ("word", 3, Ok(b"abc")),
        ("word", 4, Ok(b"abc")),
        ("word", 2, Err(InFault::TooLong)),
        ("empty", 0, Ok(b"")),
        ("absent", 9, Err(InFault::Read)),
    ];
    for (name, limit, want) in cases {
        let mut files = word_and_empty(&rt, rt.alloc());
        expect_content(&rt, rt.alloc(), &mut files, (name, limit), want);
    }
}

#[test]
fn a_read_that_fails_is_answered_and_the_next_one_goes_on(rt: HostRuntime) {
    // Call 1 is the start, call 2 gives the first byte, and call 3 fails.
    let mut files = word_and_empty(&rt, rt.alloc());
    files.fail_call(3).expect(&rt, "memory");
    let failed = Err(InFault::Read);
    expect_content(&rt, rt.alloc(), &mut files, ("word", 3), failed);
    expect_content(&rt, rt.alloc(), &mut files, ("word", 3), Ok(b"abc"));
}

fn sink_of(rt: &impl Abort, alloc: Global, room: u32) -> MemSink {
    MemSink::new(alloc, room).expect(rt, "memory")
}

fn expect_decimal(rt: &impl Abort, alloc: Global, number: u128, want: &str) {
    let mut sink = sink_of(rt, alloc, 40);
    let is_put = put_number(&mut sink, number).is_ok();
    expect_true(rt, want, is_put && sink.bytes() == want.as_bytes());
}

#[test]
fn numbers_are_sent_in_decimal(rt: HostRuntime) {
    const CASES: [(u128, &str); 3] = [
        (0, "0"),
        (1024, "1024"),
        (u128::MAX, "340282366920938463463374607431768211455"),
    ];
    for (number, want) in CASES {
        expect_decimal(&rt, rt.alloc(), number, want);
    }
}

#[test]
fn a_writer_sends_a_text_longer_than_its_room(rt: HostRuntime) {
    let long = [b'x'; 5000];
    let mut sink = sink_of(&rt, rt.alloc(), 6000);
    let mut writer = Writer::new();
    writer.put(&mut sink, b"n ");
    writer.put_number(&mut sink, 7);
    writer.put(&mut sink, &long);
    writer.put(&mut sink, b"end");
    expect_true(&rt, "finish", writer.finish(&mut sink).is_ok());
    expect_true(&rt, "length", sink.bytes().len() == 5006);
    expect_true(&rt, "begin", sink.bytes().starts_with(b"n 7x"));
    expect_true(&rt, "end", sink.bytes().ends_with(b"xend"));
}

#[test]
fn a_writer_answers_a_fault_at_its_end(rt: HostRuntime) {
    // The first put of the sink is of the three bytes that were held.
    let mut sink = sink_of(&rt, rt.alloc(), 6000);
    sink.fail_call(1).expect(&rt, "memory");
    let mut writer = Writer::new();
    writer.put(&mut sink, b"n 7");
    writer.put(&mut sink, &[b'x'; 5000]);
    let end = writer.finish(&mut sink);
    expect_true(&rt, "finish", end == Err(WriteFault));
    expect_true(&rt, "bytes", sink.bytes().is_empty());
}

// How long a content is.
fn length_of<F: Files>(
    alloc: Global,
    files: &mut F,
    name: &str,
    limit: u16,
) -> Result<usize, InFault> {
    match read_all(alloc, files, name, u32::from(limit)) {
        Ok(bytes) => Ok(bytes.len()),
        Err(fault) => Err(fault),
    }
}

#[test]
fn the_system_is_read(rt: HostRuntime) {
    let mut files = HostFiles::new(&rt);
    let none = length_of(rt.alloc(), &mut files, "/dev/null", 0);
    expect_true(&rt, "/dev/null", none == Ok(0));
    let absent = files.start("/dev/null/absent");
    expect_true(&rt, "/dev/null/absent", absent == Started::Failed);
    expect_true(&rt, "-", files.start("-") == Started::Ready);
    let zeros = length_of(rt.alloc(), &mut files, "/dev/zero", 9);
    expect_true(&rt, "/dev/zero", zeros == Err(InFault::TooLong));
    // A folder can be started, and no read of it ends well.
    expect_true(&rt, "/", files.start("/") == Started::Ready);
    let folder = length_of(rt.alloc(), &mut files, "/", 9);
    expect_true(&rt, "/", folder == Err(InFault::Read));
}

#[test]
fn bytes_in_memory_are_read(rt: HostRuntime) {
    let mut left = b"abc".as_slice();
    let mut room = [0; 2];
    let first = read_from(&mut left, &mut room);
    expect_true(&rt, "first", matches!(first, Got::Bytes(2)));
    expect_true(&rt, "ab", room.as_slice() == b"ab".as_slice());
    let second = read_from(&mut left, &mut room);
    expect_true(&rt, "second", matches!(second, Got::Bytes(1)));
    let third = read_from(&mut left, &mut room);
    expect_true(&rt, "third", matches!(third, Got::End));
}

#[test]
fn bytes_in_memory_are_written(rt: HostRuntime) {
    let mut kept = Vec::new(rt.alloc());
    let put = put_to(&mut kept, b"abc");
    expect_true(&rt, "put", matches!(put, Put::Took(3)));
    expect_true(&rt, "flush", flush_to(&mut kept) == Flushed::Done);
    expect_true(&rt, "abc", kept.as_slice() == b"abc".as_slice());
    // A writer of no room takes no byte.
    let mut none = [0; 0];
    let put = put_to(&mut none.as_mut_slice(), b"abc");
    expect_true(&rt, "no room", matches!(put, Put::Failed));
}

#[test]
fn the_system_is_written(rt: HostRuntime) {
    let mut sink = HostSink::errors(&rt);
    let put = put_all(&mut sink, b"written to standard error\n");
    expect_true(&rt, "put", put.is_ok());
    expect_true(&rt, "flush", sink.flush() == Flushed::Done);
    let flushed = HostSink::output(&rt).flush();
    expect_true(&rt, "output", flushed == Flushed::Done);
}
