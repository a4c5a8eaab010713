//! A reader and a writer that note what a program has to say of them when it ends.
ghost use Rattle.std.specs.Prelude.{◌≡◌, None};

use std::io;
use std::io::{Read, Write};

/// Any reader, with the error of its last call that failed. It gives what the reader gives.
#[derive(Drop)]
pub struct NotedReader<R> {
    /// The reader.
    pub reader: R,
    /// The error of the last call that failed, if one has.
    pub error: Option<io::Error>,
}

impl<R: Read> NotedReader<R> {
    /// The reader, with nothing noted yet.
    pub fn new(reader: R) -> Self
        ensures { result ≡ record { reader = reader; error = None } }
    {
        NotedReader {
            reader,
            error: None,
        }
    }
}

impl<R: Read> Read for NotedReader<R> {
    ghost remaining = { λ noted. R.remaining noted.reader };

    fn read(&mut self, buf: &mut [u8]) -> io::Result<usize> {
        match self.reader.read(buf) {
            Ok(count) => Ok(count),
            Err(error) => {
                self.error = Some(error);
                Err(error)
            }
        }
    }
}

/// Any writer, with the error of its last call that failed. It takes what the writer takes.
#[derive(Drop)]
pub struct NotedWriter<W> {
    /// The writer.
    pub writer: W,
    /// The error of the last call that failed, if one has.
    pub error: Option<io::Error>,
}

impl<W: Write> NotedWriter<W> {
    /// The writer, with nothing noted yet.
    pub fn new(writer: W) -> Self
        ensures { result ≡ record { writer = writer; error = None } }
    {
        NotedWriter {
            writer,
            error: None,
        }
    }
}

impl<W: Write> Write for NotedWriter<W> {
    ghost contents = { λ noted. W.contents noted.writer };

    fn write(&mut self, buf: &[u8]) -> io::Result<usize> {
        match self.writer.write(buf) {
            Ok(count) => Ok(count),
            Err(error) => {
                self.error = Some(error);
                Err(error)
            }
        }
    }

    fn flush(&mut self) -> io::Result<()> {
        match self.writer.flush() {
            Ok(()) => Ok(()),
            Err(error) => {
                self.error = Some(error);
                Err(error)
            }
        }
    }
}
