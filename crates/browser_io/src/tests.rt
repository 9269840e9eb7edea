use crate::ReadStop::{Fault, TooLarge};
use crate::{
    Failed, MemSink, MemSource, NeverSink, NeverSource, NoMemory, ReadStop, Sink, Source,
    WriteStop, read_all, write_all,
};
use std::alloc::{AllocError, Global};
use std::error::Error;
use std::test::Fail;

const TEXT: &[u8] = b"open 0\norder 0 0 a\n";

#[test]
fn reads_to_the_end_or_says_why_not(rt: HostRuntime) -> Result<(), Fail> {
    let cases: [(&str, usize, &[u64], usize, Result<&[u8], ReadStop>); 11] = [
        ("single bytes", 1, &[], 100, Ok(TEXT)),
        ("steps of eight", 8, &[], 100, Ok(TEXT)),
        ("one step", 4096, &[], 100, Ok(TEXT)),
        ("as many as may be", 8, &[], 19, Ok(TEXT)),
        ("one too many", 8, &[], 18, Err(TooLarge)),
        ("one too many at once", 4096, &[], 18, Err(TooLarge)),
        ("none may be", 1, &[], 0, Err(TooLarge)),
        ("any number may be", 8, &[], usize::MAX, Ok(TEXT)),
        ("first read fails", 8, &[0], 100, Err(Fault)),
        ("second read fails", 8, &[1], 100, Err(Fault)),
        ("a read past the end fails", 4096, &[2], 100, Ok(TEXT)),
    ];
    for (name, step, fails, max, want) in cases {
        let fails = Vec::from_slice(rt.alloc(), fails)?;
        let bytes = Vec::from_slice(rt.alloc(), TEXT)?;
        let mut source = MemSource::new(bytes, step.max(1), fails);
        let got = read_all(rt.alloc(), &mut source, max);
        match (&got, want) {
            (Ok(all), Ok(text)) => assert_eq!(rt; all.as_slice(), text, "at {name}"),
            (Err(stop), Err(reason)) => assert_eq!(rt; *stop, reason, "at {name}"),
            _ => assert!(rt; false, "another answer at {name}"),
        }
    }
    Ok(())
}

#[test]
fn a_source_that_never_fails_is_read_to_its_end(rt: HostRuntime) -> Result<(), Fail> {
    for step in [1_usize, 8, 4096] {
        let bytes = Vec::from_slice(rt.alloc(), TEXT)?;
        let mut source = NeverSource::new(bytes, step.max(1));
        let all = read_all(rt.alloc(), &mut source, 100)?;
        assert_eq!(rt; all.as_slice(), TEXT, "in steps of {step}");
    }
    let bytes = Vec::from_slice(rt.alloc(), TEXT)?;
    let mut source = NeverSource::new(bytes, 8);
    assert_eq!(rt; read_all(rt.alloc(), &mut source, 18), Err(TooLarge));
    Ok(())
}

#[test]
fn a_sink_that_never_fails_takes_all(rt: HostRuntime) -> Result<(), Fail> {
    for step in [1_usize, 8, 4096] {
        let mut sink = NeverSink::new(step.max(1));
        assert_eq!(rt; write_all(&mut sink, TEXT), Ok(()), "in steps of {step}");
        assert_eq!(rt; sink.write(TEXT), Ok(step.min(19)), "in steps of {step}");
    }
    Ok(())
}

#[test]
fn reads_more_than_one_chunk(rt: HostRuntime) -> Result<(), Fail> {
    let bytes = vec![in rt.alloc(); b'x'; 10_000]?;
    let mut source = MemSource::new(bytes, 5000, Vec::new(rt.alloc()));
    let all = read_all(rt.alloc(), &mut source, 10_000)?;
    assert_eq!(rt; all.len(), 10_000);
    let mut buf = [0; 8];
    assert_eq!(rt; source.read(&mut buf), Ok(0));
    Ok(())
}

// So many bytes, no two neighbours of which are equal.
pub(crate) fn numbered(alloc: Global, len: usize) -> Result<Vec<u8>, AllocError> {
    let mut bytes = Vec::new(alloc);
    for index in 0..len {
        bytes.push((index % 251) as u8)?;
    }
    Ok(bytes)
}

// A source of 10,000 bytes: its step, the read that fails, and how many bytes were read before it.
const FAILED_READS: &[(usize, u64, usize)] = &[
    (4_096, 0, 0),
    (4_096, 1, 4_096),
    (4_096, 2, 8_192),
    (4_096, 3, 10_000),
    (2_500, 1, 2_500),
    (10_000, 1, 4_096),
];

#[test]
fn a_failed_read_ends_the_reading_and_leaves_the_rest(rt: HostRuntime) -> Result<(), Fail> {
    let alloc = rt.alloc();
    for (step, failing, taken) in FAILED_READS {
        let bytes = numbered(alloc, 10_000)?;
        let fails = vec![in alloc; *failing; 1]?;
        let mut source = MemSource::new(bytes.clone()?, (*step).max(1), fails);
        let answer = read_all(alloc, &mut source, 10_000).err();
        assert_eq!(rt; answer, Some(Fault), "read {failing} in steps of {step}");
        let rest = read_all(alloc, &mut source, 10_000)?;
        let (_, left) = bytes.as_slice().split_at((*taken).min(bytes.len()));
        assert!(rt;
            rest.as_slice() == left,
            "read {failing} in steps of {step}"
        );
    }
    Ok(())
}

// A sink that gets 10,000 bytes: its step, the write that fails, and how many bytes were written before it.
const FAILED_WRITES: &[(usize, u64, usize)] = &[
    (4_096, 0, 0),
    (4_096, 1, 4_096),
    (4_096, 2, 8_192),
    (10_000, 0, 0),
    (2_500, 3, 7_500),
];

#[test]
fn a_failed_write_ends_the_writing(rt: HostRuntime) -> Result<(), Fail> {
    let alloc = rt.alloc();
    let bytes = numbered(alloc, 10_000)?;
    for (step, failing, sent) in FAILED_WRITES {
        let fails = vec![in alloc; *failing; 1]?;
        let mut sink = MemSink::new(alloc, 20_000, (*step).max(1), fails)?;
        let answer = write_all(&mut sink, bytes.as_slice());
        assert_eq!(rt;
            answer,
            Err(WriteStop { sent: *sent }),
            "write {failing} in steps of {step}"
        );
        let (first, _) = bytes.as_slice().split_at((*sent).min(bytes.len()));
        assert!(rt;
            sink.written() == first,
            "write {failing} in steps of {step}"
        );
    }
    Ok(())
}

#[test]
fn writes_all_or_says_how_much(rt: HostRuntime) -> Result<(), Fail> {
    let cases: [(&str, usize, usize, &[u64], usize); 8] = [
        ("single bytes", 100, 1, &[], 19),
        ("steps of eight", 100, 8, &[], 19),
        ("one step", 100, 4096, &[], 19),
        ("just enough room", 19, 8, &[], 19),
        ("room is full", 10, 8, &[], 10),
        ("no room", 0, 8, &[], 0),
        ("first write fails", 100, 8, &[0], 0),
        ("second write fails", 100, 8, &[1], 8),
    ];
    for (name, room, step, fails, sent) in cases {
        let fails = Vec::from_slice(rt.alloc(), fails)?;
        let mut sink = MemSink::new(rt.alloc(), room, step.max(1), fails)?;
        let want = if sent == TEXT.len() {
            Ok(())
        } else {
            Err(WriteStop { sent })
        };
        assert_eq!(rt; write_all(&mut sink, TEXT), want, "at {name}");
        assert_eq!(rt; sink.written(), &TEXT[..sent.min(TEXT.len())], "at {name}");
    }
    Ok(())
}

fn text_of<E: Error>(alloc: Global, error: &E) -> Result<String, AllocError> {
    error.to_string(alloc)
}

#[test]
fn errors_have_texts(rt: HostRuntime) -> Result<(), Fail> {
    let alloc = rt.alloc();
    let rows = [
        (text_of(alloc, &Failed)?, "the device failed"),
        (text_of(alloc, &NoMemory)?, "no memory"),
        (text_of(alloc, &Fault)?, "a read failed"),
        (text_of(alloc, &TooLarge)?, "there are too many bytes"),
        (text_of(alloc, &ReadStop::NoMemory)?, "no memory"),
        (
            text_of(alloc, &WriteStop { sent: 0 })?,
            "a write failed after 0 bytes",
        ),
        (
            text_of(alloc, &WriteStop { sent: 8 })?,
            "a write failed after 8 bytes",
        ),
    ];
    for (text, want) in &rows {
        assert_eq!(rt; text.as_str(), *want);
    }
    Ok(())
}
