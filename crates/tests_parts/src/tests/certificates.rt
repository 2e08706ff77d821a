//! Certificates read and written, and what goes wrong.

use audit_cert::{CertFaultKind, read, write, write_parallel};
use audit_model::{Sink, SinkFailed, WriteFault};
use std::alloc::{AllocError, Global};
use std::process::Abort;
use std::test::Fail;

/// Of a Binding transaction.
const BINDING: &[u8; 124] = b"turnaudit-certificate 1
lane 198.51.100.7:40000 192.0.2.1:3478
in 0.0 1000000 0
act 0.0 0.1 1000000 1
out 0.1 1500000 0
end
";

/// Of an arrival that the server never acted on.
const DROPPED: &[u8; 48] = b"turnaudit-certificate 1
drop 64.0 1000000 0
end
";

/// Of two interfaces, with the greatest numbers.
const CUT: &[u8; 152] = b"turnaudit-certificate 2
skew 0 400
skew 4294967295 18446744073709551615
lane 198.51.100.7:40000 192.0.2.1:3478
in 0.0 1000000 0
drop 64.0 1000000 0
end
";

/// Takes some bytes, one by one, and then fails, once.
#[derive(Drop)]
struct Narrow {
    bytes: Vec<u8>,
    room: usize,
    has_failed: bool,
}

impl Sink for Narrow {
    ghost use Rattle.std.specs.Prelude.{Some, None, if◌then◌else◌};

    ghost taken = { λ _. None };

    ghost failures = { λ narrow. Some (if narrow.has_failed then 1 else 0) };

    fn put(&mut self, piece: &[u8]) -> Result<usize, SinkFailed> {
        if self.has_failed {
            return Ok(piece.len());
        }
        match piece {
            [] => Ok(0),
            [first, ..] => {
                if self.room == 0 || self.bytes.push(*first).is_err() {
                    self.has_failed = true;
                    return Err(SinkFailed);
                }
                self.room -= 1;
                Ok(1)
            }
        }
    }
}

fn sink_of(alloc: Global, room: usize) -> Narrow {
    Narrow {
        bytes: Vec::new(alloc),
        room,
        has_failed: false,
    }
}

/// What a sink with that much room is after the text is read and written.
fn through(
    alloc: Global,
    text: &[u8],
    room: usize,
) -> Result<(Result<(), WriteFault>, Narrow), Fail> {
    let certificate = read(alloc, text).ok().ok_or("the text is a certificate")?;
    let mut sink = sink_of(alloc, room);
    let written = write(alloc, &certificate, &mut sink);
    Ok((written, sink))
}

/// That a text which is read and written to a sink with that much room gives that much of itself.
fn assert_written(
    rt: &(impl Abort + AllocGlobal),
    text: &[u8],
    room: usize,
    wanted: Result<(), WriteFault>,
) -> Result<(), Fail> {
    let (written, sink) = through(rt.alloc(), text, room)?;
    let taken = text.get(..room).unwrap_or(text);
    assert_eq!(rt;
        (written, sink.bytes.as_slice(), sink.has_failed),
        (wanted, taken, wanted.is_err()),
        "room for {room} bytes"
    );
    Ok(())
}

#[test]
fn written_as_it_was_read(rt: HostRuntime) -> Result<(), Fail> {
    for text in [BINDING.as_slice(), DROPPED.as_slice(), CUT.as_slice()] {
        assert_written(&rt, text, text.len(), Ok(()))?;
        for room in 0..text.len() {
            assert_written(&rt, text, room, Err(WriteFault::Device))?;
        }
    }
    Ok(())
}

/// A text of a lane with that many events more than `CUT` has, and of a lane with none.
fn long_text(alloc: Global, events: usize) -> Result<Vec<u8>, AllocError> {
    let mut text = Vec::new(alloc);
    let (front, back) = CUT.split_at(CUT.len() - 24);
    text.extend_from_slice(front)?;
    for _ in 0..events {
        text.extend_from_slice(b"out 0.1 1500000 0\n")?;
    }
    text.extend_from_slice(b"lane 198.51.100.8:40000 192.0.2.1:3478\n")?;
    text.extend_from_slice(back)?;
    Ok(text)
}

#[test]
fn written_by_many_threads(rt: HostRuntime) -> Result<(), Fail> {
    let text = long_text(rt.alloc(), 20_000)?;
    let certificate = read(rt.alloc(), text.as_slice())
        .ok()
        .ok_or("the text is a certificate")?;
    for workers in [1, 2, 4] {
        for room in [200_000, 400_000] {
            let mut plain = sink_of(rt.alloc(), room);
            let mut sink = sink_of(rt.alloc(), room);
            let written = write_parallel(&rt, rt.alloc(), &certificate, workers, &mut sink);
            assert_eq!(rt; written, write(rt.alloc(), &certificate, &mut plain));
            assert_eq!(rt; sink.bytes.as_slice(), plain.bytes.as_slice());
        }
    }
    Ok(())
}

/// Texts, and the first fault of each with its line.
static FAULTS: [(&[u8], CertFaultKind, u64); 17] = [
    (b"", CertFaultKind::Heading, 1),
    (b"turnaudit-certificate 1", CertFaultKind::Heading, 1),
    (b"turnaudit-certificate 1\n", CertFaultKind::EndMissing, 2),
    (b"turnaudit-certificate 1\nend", CertFaultKind::Line, 2),
    (b"turnaudit-certificate 1\nend\n\n", CertFaultKind::Line, 3),
    (
        b"turnaudit-certificate 1\nin 0.0 1 0\nend\n",
        CertFaultKind::Line,
        2,
    ),
    (
        b"turnaudit-certificate 1\nlane 1.2.3.4:5 6.7.8.9:1\nin 0.0 01 0\nend\n",
        CertFaultKind::Number,
        3,
    ),
    (
        b"turnaudit-certificate 1\nlane 1.2.3.4:5 6.7.8.9:1\nlane 1.2.3.4:5 6.7.8.9:1\nend\n",
        CertFaultKind::LaneDouble,
        3,
    ),
    (
        b"turnaudit-certificate 1\ndrop 0.0 1 0\nlane 1.2.3.4:5 6.7.8.9:1\nend\n",
        CertFaultKind::Line,
        3,
    ),
    (
        b"turnaudit-certificate 1\nskew 0 1\nend\n",
        CertFaultKind::Line,
        2,
    ),
    (b"turnaudit-certificate 2\n", CertFaultKind::EndMissing, 2),
    (b"turnaudit-certificate 2\nend\n", CertFaultKind::Line, 2),
    (
        b"turnaudit-certificate 2\nskew 0 1\ndrop 0.0 1 0\nskew 1 1\nend\n",
        CertFaultKind::Line,
        4,
    ),
    (
        b"turnaudit-certificate 2\nskew 0 1\nskew 0 01\nend\n",
        CertFaultKind::Number,
        3,
    ),
    (
        b"turnaudit-certificate 2\nskew 4294967296 1\nend\n",
        CertFaultKind::Number,
        2,
    ),
    (
        b"turnaudit-certificate 2\nskew 1 1\nskew 1 1\nend\n",
        CertFaultKind::SkewOrder,
        3,
    ),
    (b"turnaudit-certificate 3\n", CertFaultKind::Heading, 1),
];

/// The fault of a text, with its line.
fn fault_of(alloc: Global, text: &[u8]) -> Option<(CertFaultKind, u64)> {
    let fault = read(alloc, text).err()?;
    Some((fault.kind, fault.line))
}

#[test]
fn first_fault(rt: HostRuntime) {
    for (text, kind, line) in &FAULTS {
        assert_eq!(rt;
            fault_of(rt.alloc(), text),
            Some((*kind, *line)),
            "{text:?}"
        );
    }
}
