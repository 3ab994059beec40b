//! The file of a record.

use std::fs::File;
use std::io::{self, ErrorKind, Write};

/// A file of lines that ends with a whole one, as far as it may be: where it can take no more, as on a full disk, it is
/// cut after its last line feed.
#[derive(Drop)]
pub(crate) struct RecordFile {
    file: File,
    /// How many octets were written.
    size: u64,
    /// How many up to the last line feed.
    whole: u64,
}

impl RecordFile {
    /// A file that was just created.
    pub(crate) fn new(file: File) -> RecordFile {
        RecordFile {
            file,
            size: 0,
            whole: 0,
        }
    }

    /// Counts octets that were written.
    fn count(&mut self, written: &[u8]) {
        let whole = match written.iter().rposition(|octet| *octet == b'\n') {
            Some(at) => self.size.saturating_add(at as u64).saturating_add(1),
            None => self.whole,
        };
        self.whole = whole;
        self.size = self.size.saturating_add(written.len() as u64);
    }
}

impl Write for RecordFile {
    fn write(&mut self, octets: &[u8]) -> io::Result<usize> {
        let written = self.file.write(octets);
        match &written {
            Ok(count) if *count > 0 => self.count(&octets[..*count]),
            Err(error) if error.kind() == ErrorKind::Interrupted => {}
            // A file that cannot be cut either stays as it is.
            _ => drop(self.file.set_len(self.whole)),
        }
        written
    }

    fn flush(&mut self) -> io::Result<()> {
        self.file.flush()
    }
}
