// The machine's streams as a source and as sinks: the trusted edge. They tell nothing of what they gave or took.
ghost use Rattle.std.specs.Prelude.{◌≡◌, ◌≤◌, ◌<◌, ℕ, length, drop, IfOk, OnErr};

use std::io::{Read, Write};
use wx_types::{Failed, Sink, Source};

/// A reader as a source.
#[derive(Drop)]
pub struct StreamSource<R: Read + Drop> {
    reader: R,
    faults: u64,
}

impl<R: Read + Drop> StreamSource<R> {
    /// The bytes that come from the reader, with no fault counted.
    pub fn new(reader: R) -> StreamSource<R> {
        StreamSource { reader, faults: 0 }
    }
}

impl<R: Read + Drop> Source for StreamSource<R> {
    ghost use Rattle.std.specs.Prelude.{None};

    ghost faults = { λ source. source.faults };

    ghost left = { λ _. None };

    ghost given = { λ _. None };

    fn read(&mut self, out: &mut [u8]) -> Result<usize, Failed> {
        let mut buffer = [0u8; 4096];
        let most = out.len().min(buffer.len());
        match self.reader.read(&mut buffer[..most]) {
            Ok(n) => {
                out[..n].copy_from_slice(&buffer[..n]);
                Ok(n)
            }
            Err(_) => {
                self.faults = self.faults.saturating_add(1);
                Err(Failed)
            }
        }
    }
}

/// A writer as a sink.
#[derive(Drop)]
pub struct StreamSink<W: Write + Drop> {
    writer: W,
    faults: u64,
}

impl<W: Write + Drop> StreamSink<W> {
    /// What the writer takes, with no fault counted.
    pub fn new(writer: W) -> StreamSink<W> {
        StreamSink { writer, faults: 0 }
    }
}

impl<W: Write + Drop> Sink for StreamSink<W> {
    ghost use Rattle.std.specs.Prelude.{None};

    ghost faults = { λ sink. sink.faults };

    ghost taken = { λ _. None };

    fn write(&mut self, piece: &[u8]) -> Result<usize, Failed> {
        if piece.is_empty() {
            return Ok(0);
        }
        match self.writer.write(piece) {
            Ok(n) if n > 0 => Ok(n),
            _ => {
                self.faults = self.faults.saturating_add(1);
                Err(Failed)
            }
        }
    }
}
