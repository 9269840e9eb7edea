use crate::ReadStop::{Fault, TooLarge};
use crate::tests::numbered;
use crate::{
    Failed, InputSource, OutputSink, ReadStop, Sink, Source, WriteStop, read_all, write_all,
};
use std::alloc::{AllocError, Global};
use std::io;
use std::io::{Read, Write};
use std::test::Fail;

// Bytes that are read, or room that is written to, by at most `step` bytes a call. The call numbered `failing` from 0
// answers an error. A writer takes nothing once it holds `room` bytes.
#[derive(Drop)]
struct Device {
    bytes: Vec<u8>,
    read: usize,
    room: usize,
    step: usize,
    failing: Option<usize>,
    kind: io::ErrorKind,
    calls: usize,
}

impl Device {
    fn is_failing(&mut self) -> bool {
        let call = self.calls;
        self.calls = call.saturating_add(1);
        self.failing == Some(call)
    }
}

impl Read for Device {
    fn read(&mut self, buf: &mut [u8]) -> io::Result<usize> {
        if self.is_failing() {
            return Err(self.kind.into());
        }
        let (_, rest) = self
            .bytes
            .as_slice()
            .split_at(self.read.min(self.bytes.len()));
        let count = self.step.min(buf.len()).min(rest.len());
        buf[..count].copy_from_slice(&rest[..count]);
        self.read = self.read.saturating_add(count);
        Ok(count)
    }
}

impl Write for Device {
    fn write(&mut self, piece: &[u8]) -> io::Result<usize> {
        if self.is_failing() {
            return Err(self.kind.into());
        }
        let room = self.room.saturating_sub(self.bytes.len());
        let count = self.step.min(piece.len()).min(room);
        self.bytes.extend_from_slice(&piece[..count])?;
        Ok(count)
    }

    fn flush(&mut self) -> io::Result<()> {
        Ok(())
    }
}

fn reader(
    alloc: Global,
    len: usize,
    step: usize,
    failing: Option<usize>,
) -> Result<Device, AllocError> {
    Ok(Device {
        bytes: numbered(alloc, len)?,
        read: 0,
        room: 0,
        step,
        failing,
        kind: io::ErrorKind::Interrupted,
        calls: 0,
    })
}

fn writer(alloc: Global, room: usize, step: usize, failing: Option<usize>) -> Device {
    Device {
        bytes: Vec::new(alloc),
        read: 0,
        room,
        step,
        failing,
        kind: io::ErrorKind::BrokenPipe,
        calls: 0,
    }
}

// The answer of a whole read, whether its bytes are the reader's, how many the reader gave, and how often it was asked.
#[derive(Drop)]
struct Reading {
    answer: Result<usize, ReadStop>,
    is_exact: bool,
    taken: usize,
    calls: usize,
}

fn read_through(alloc: Global, mut device: Device, max: usize) -> Result<Reading, AllocError> {
    let result = read_all(alloc, &mut InputSource::new(&mut device), max);
    let (answer, is_exact) = match &result {
        Ok(all) => (Ok(all.len()), all.as_slice() == device.bytes.as_slice()),
        Err(stop) => (Err(*stop), true),
    };
    Ok(Reading {
        answer,
        is_exact,
        taken: device.read,
        calls: device.calls,
    })
}

// The reader's bytes, its step, its failing call and the limit; then the answer, the bytes taken and the calls. One read
// asks for at most 4,096 bytes.
type ReadRow = (
    usize,
    usize,
    Option<usize>,
    usize,
    Result<usize, ReadStop>,
    usize,
    usize,
);

const READS: &[ReadRow] = &[
    (5_000, 1_000, None, 100_000, Ok(5_000), 5_000, 6),
    (5_000, 100_000, None, 100_000, Ok(5_000), 5_000, 3),
    (100_000, 1_000, None, 100_000, Ok(100_000), 100_000, 101),
    (100_000, 100_000, None, 100_000, Ok(100_000), 100_000, 26),
    (5_000, 1_000, Some(0), 100_000, Err(Fault), 0, 1),
    (5_000, 1_000, Some(1), 100_000, Err(Fault), 1_000, 2),
    (100_000, 100_000, Some(1), 100_000, Err(Fault), 4_096, 2),
    (100_000, 1_000, Some(100), 100_000, Err(Fault), 100_000, 101),
    (5_000, 1_000, None, 4_999, Err(TooLarge), 5_000, 5),
    (100_000, 100_000, None, 4_999, Err(TooLarge), 5_000, 2),
];

#[test]
fn a_reader_is_asked_until_it_ends_or_fails(rt: HostRuntime) -> Result<(), Fail> {
    for (len, step, failing, max, answer, taken, calls) in READS {
        let device = reader(rt.alloc(), *len, *step, *failing)?;
        let reading = read_through(rt.alloc(), device, *max)?;
        assert_eq!(rt; reading.answer, *answer, "{len} bytes in steps of {step}");
        assert!(rt; reading.is_exact, "{len} bytes in steps of {step}");
        assert_eq!(rt; reading.taken, *taken, "{len} bytes in steps of {step}");
        assert_eq!(rt; reading.calls, *calls, "{len} bytes in steps of {step}");
    }
    Ok(())
}

#[test]
fn the_end_is_no_fault_for_a_buffer_of_any_size(rt: HostRuntime) -> Result<(), Fail> {
    for size in [1_usize, 4_096, 5_000, 100_000] {
        let mut buf = vec![in rt.alloc(); 0; size.max(1)]?;
        let mut source = InputSource::new(reader(rt.alloc(), 0, 1_000, None)?);
        assert_eq!(rt; source.read(buf.as_mut_slice()), Ok(0), "{size} bytes");
    }
    Ok(())
}

// The answer of a whole write, whether the writer holds exactly the first bytes sent, and how often it was asked.
#[derive(Drop)]
struct Writing {
    answer: Result<(), WriteStop>,
    is_exact: bool,
    calls: usize,
}

fn write_through(
    alloc: Global,
    mut device: Device,
    len: usize,
    sent: usize,
) -> Result<Writing, AllocError> {
    let bytes = numbered(alloc, len)?;
    let answer = write_all(&mut OutputSink::new(&mut device), bytes.as_slice());
    let (first, _) = bytes.as_slice().split_at(sent.min(bytes.len()));
    Ok(Writing {
        answer,
        is_exact: device.bytes.as_slice() == first,
        calls: device.calls,
    })
}

// The bytes to write, and the writer's room, step and failing call; then the bytes that went out, and the calls.
const WRITES: &[(usize, usize, usize, Option<usize>, usize, usize)] = &[
    (5_000, 100_000, 1_000, None, 5_000, 5),
    (5_000, 100_000, 100_000, None, 5_000, 1),
    (100_000, 100_000, 1_000, None, 100_000, 100),
    (100_000, 100_000, 100_000, None, 100_000, 1),
    (5_000, 100_000, 1_000, Some(0), 0, 1),
    (5_000, 100_000, 1_000, Some(1), 1_000, 2),
    (100_000, 100_000, 100_000, Some(0), 0, 1),
    (100_000, 100_000, 1_000, Some(99), 99_000, 100),
    (100_000, 50_000, 1_000, None, 50_000, 51),
    (5_000, 0, 1_000, None, 0, 1),
];

#[test]
fn a_writer_is_asked_until_it_has_all_or_fails(rt: HostRuntime) -> Result<(), Fail> {
    for (len, room, step, failing, sent, calls) in WRITES {
        let device = writer(rt.alloc(), *room, *step, *failing);
        let writing = write_through(rt.alloc(), device, *len, *sent)?;
        let answer = if *sent == *len {
            Ok(())
        } else {
            Err(WriteStop { sent: *sent })
        };
        assert_eq!(rt; writing.answer, answer, "{len} bytes in steps of {step}");
        assert!(rt; writing.is_exact, "{len} bytes in steps of {step}");
        assert_eq!(rt; writing.calls, *calls, "{len} bytes in steps of {step}");
    }
    Ok(())
}

#[test]
fn a_reader_goes_on_after_a_fault(rt: HostRuntime) -> Result<(), Fail> {
    let mut device = reader(rt.alloc(), 10_000, 1_000, Some(2))?;
    let mut source = InputSource::new(&mut device);
    assert_eq!(rt;
        read_all(rt.alloc(), &mut source, 10_000).err(),
        Some(Fault)
    );
    let rest = read_all(rt.alloc(), &mut source, 10_000)?;
    assert_eq!(rt; rest.len(), 8_000);
    Ok(())
}

#[test]
fn a_writer_goes_on_after_a_fault(rt: HostRuntime) -> Result<(), Fail> {
    let mut device = writer(rt.alloc(), 10, 3, Some(2));
    let mut sink = OutputSink::new(&mut device);
    let answer = write_all(&mut sink, b"0123456789");
    assert_eq!(rt; answer, Err(WriteStop { sent: 6 }));
    assert_eq!(rt; write_all(&mut sink, b"6789++"), Err(WriteStop { sent: 4 }));
    assert_eq!(rt; sink.write(b"+"), Err(Failed));
    assert_eq!(rt; device.bytes.as_slice(), b"0123456789".as_slice());
    Ok(())
}
