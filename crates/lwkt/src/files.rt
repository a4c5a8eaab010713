//! What is read: the file that is named, opened, or standard input.
ghost use Rattle.std.specs.Prelude.{◌≡◌, None, false};

use lwkt_report::{NotedReader, ReaderSource};
use std::fs::{Files, OpenFile};
use std::io::Read;
use std::{fs, io};

// The number by which the system says that what is to be read is a folder.
const IS_A_FOLDER: i32 = 21;

/// Opens a file to be read. A folder is refused.
pub fn opened<R: Files>(rt: &R, path: &str) -> io::Result<R::File> {
    let file = fs::open(rt, path)?;
    if file.metadata()?.is_dir() {
        return Err(io::Error::from_raw_os_error(IS_A_FOLDER));
    }
    Ok(file)
}

/// A source that reads from this, and has made no call of it yet.
pub fn source_of<I: Read>(reader: I) -> ReaderSource<NotedReader<I>>
    ensures reader { result.reader.reader ≡ reader }
    ensures unfailed { result.failed ≡ false }
{
    ReaderSource::new(NotedReader::new(reader))
}
