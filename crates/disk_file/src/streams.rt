//! A source and a sink over the system's streams.
ghost use Rattle.std.specs.Prelude.{◌≡◌, [], false};

use disk_trait::{Sink, SinkFailed, Source, SourceFailed};
use std::io::{Read, Write};

/// A reader as a source.
#[derive(Drop)]
pub struct StreamSource<R: Read + Drop> {
    reader: R,
    faults: u64,
}

impl<R: Read + Drop> StreamSource<R> {
    /// A source that has not failed.
    pub fn new(reader: R) -> StreamSource<R>
        ensures { ⟦<StreamSource<R> as Source>⟧.fault_count result ≡ 0 }
    {
        StreamSource { reader, faults: 0 }
    }
}

impl<R: Read + Drop> Source for StreamSource<R> {
    ghost tells = { λ s. false };

    ghost left = { λ s. [] };

    ghost fault_count = { λ s. s.faults };

    fn take(&mut self, out: &mut [u8]) -> Result<usize, SourceFailed> {
        match self.reader.read(out) {
            Ok(count) => Ok(count),
            Err(_) => {
                self.faults = self.faults.saturating_add(1);
                Err(SourceFailed)
            }
        }
    }

    fn faults(&self) -> u64 {
        self.faults
    }
}

/// A writer as a sink. A writer that takes nothing has failed.
#[derive(Drop)]
pub struct StreamSink<W: Write + Drop> {
    writer: W,
    faults: u64,
}

impl<W: Write + Drop> StreamSink<W> {
    /// A sink that has not failed.
    pub fn new(writer: W) -> StreamSink<W>
        ensures { ⟦<StreamSink<W> as Sink>⟧.fault_count result ≡ 0 }
    {
        StreamSink { writer, faults: 0 }
    }
}

impl<W: Write + Drop> Sink for StreamSink<W> {
    ghost tells = { λ s. false };

    ghost received = { λ s. [] };

    ghost fault_count = { λ s. s.faults };

    fn put(&mut self, bytes: &[u8]) -> Result<usize, SinkFailed> {
        match self.writer.write(bytes) {
            Ok(count) if 0 < count || bytes.is_empty() => Ok(count),
            _ => {
                self.faults = self.faults.saturating_add(1);
                Err(SinkFailed)
            }
        }
    }

    fn faults(&self) -> u64 {
        self.faults
    }
}
