// Sources and sinks in memory, and what is read from them and written to them.
use outside_core::{
    Compare, Gate, MemSink, MemSource, NeverSource, OpenGate, ReadAll, WriteFault, read_all,
    write_all,
};
use std::alloc::{AllocError, Global};
use std::process::Abort;
use std::test::Fail;

const LIMIT: u64 = 4;

// The bytes of a source, how many it gives a call, and the number of the call that fails (0: none); what is read of it,
// and what is read of it then.
type Read<'a> = (&'a [u8], usize, u64, Result<&'a [u8], ReadAll>, &'a [u8]);

const READS: &[Read<'static>] = &[
    (b"abcd", 8, 0, Ok(b"abcd"), b""),
    (b"abcd", 1, 0, Ok(b"abcd"), b""),
    (b"", 1, 0, Ok(b""), b""),
    (b"abcde", 8, 0, Err(ReadAll::TooLong), b""),
    (b"abcdefg", 2, 0, Err(ReadAll::TooLong), b"fg"),
    (b"abcd", 2, 1, Err(ReadAll::ReadFault), b"abcd"),
    (b"abcd", 2, 2, Err(ReadAll::ReadFault), b"cd"),
    (b"abcd", 2, 3, Err(ReadAll::ReadFault), b""),
];

#[test]
fn a_source_is_read_whole_or_the_error_says_why(rt: HostRuntime) {
    for (text, piece, failing, first, second) in READS {
        assert!(rt;
            is_read_twice(&rt, rt.alloc(), (text, *piece, *failing, *first, second)),
            "{text:?} by {piece}"
        );
    }
}

fn is_read_twice(rt: &impl Abort, alloc: Global, row: Read) -> bool {
    let (text, piece, failing, first, second) = row;
    assert!(rt; piece > 0);
    let fails = [failing];
    let mut source = MemSource::new(text, piece, &fails);
    is_read(read_all(alloc, &mut source, LIMIT), first)
        && is_read(read_all(alloc, &mut source, LIMIT), Ok(second))
}

fn is_read(read: Result<Vec<u8>, ReadAll>, want: Result<&[u8], ReadAll>) -> bool {
    match (read, want) {
        (Ok(bytes), Ok(text)) => bytes.as_slice() == text,
        (Err(error), Err(wanted)) => error == wanted,
        _ => false,
    }
}

// Longer than the first piece of the buffer, and than the second.
#[test]
fn a_long_source_is_read_whole(rt: HostRuntime) -> Result<(), Fail> {
    let long = vec![in rt.alloc(); 7u8; 300_000]?;
    let whole = read_all(rt.alloc(), &mut NeverSource::new(&long), 300_000);
    assert!(rt; is_read(whole, Ok(long.as_slice())));
    let one_short = read_all(rt.alloc(), &mut NeverSource::new(&long), 299_999);
    assert!(rt; is_read(one_short, Err(ReadAll::TooLong)));
    Ok(())
}

// How many bytes a sink has room for, and the number of the call that fails (0: none); what the write of eight bytes,
// three a call, answers, and what the sink holds.
type Write<'a> = (usize, u64, Result<(), WriteFault>, &'a [u8]);

const WRITES: &[Write<'static>] = &[
    (8, 0, Ok(()), b"abcdefgh"),
    (9, 4, Ok(()), b"abcdefgh"),
    (8, 1, Err(WriteFault { written: 0 }), b""),
    (8, 2, Err(WriteFault { written: 3 }), b"abc"),
    (8, 3, Err(WriteFault { written: 6 }), b"abcdef"),
    (5, 0, Err(WriteFault { written: 5 }), b"abcde"),
    (0, 0, Err(WriteFault { written: 0 }), b""),
];

#[test]
fn bytes_are_written_whole_or_up_to_the_fault(rt: HostRuntime) -> Result<(), Fail> {
    for (room, failing, want, held) in WRITES {
        assert!(rt;
            is_written(rt.alloc(), *room, *failing, *want, held)?,
            "room {room}, failing {failing}"
        );
    }
    Ok(())
}

fn is_written(
    alloc: Global,
    room: usize,
    failing: u64,
    want: Result<(), WriteFault>,
    held: &[u8],
) -> Result<bool, AllocError> {
    let fails = [failing];
    let mut sink = MemSink::new(alloc, room, 3, &fails)?;
    let ended = write_all(&mut sink, b"abcdefgh");
    Ok(ended == want && sink.bytes() == held)
}

// What is written, and how many bytes of it agree with "abcd": what follows the first difference doesn't count.
const AGREEMENTS: &[(&[u8], u64)] = &[
    (b"abcd", 4),
    (b"abcdef", 4),
    (b"ab", 2),
    (b"abxd", 2),
    (b"xbcd", 0),
    (b"", 0),
];

#[test]
fn agreement_ends_at_the_first_difference(rt: HostRuntime) {
    for (text, agreed) in AGREEMENTS {
        assert!(rt;
            agreed_of_bytes(&rt, text) == *agreed,
            "{text:?}, byte by byte"
        );
        assert!(rt; agreed_of_whole(&rt, text) == *agreed, "{text:?}");
    }
}

fn agreed_of_bytes(rt: &impl Abort, text: &[u8]) -> u64 {
    let mut compare = Compare::new(b"abcd");
    for byte in text {
        assert!(rt; write_all(&mut compare, &[*byte]) == Ok(()));
    }
    compare.agreed()
}

fn agreed_of_whole(rt: &impl Abort, text: &[u8]) -> u64 {
    let mut compare = Compare::new(b"abcd");
    assert!(rt; write_all(&mut compare, text) == Ok(()));
    compare.agreed()
}

#[test]
fn an_open_gate_blocks_nobody() {
    let gate = OpenGate;
    gate.before_own(0);
    gate.before_put(1);
    gate.after_put(1);
}
