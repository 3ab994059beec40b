//! A reader or a writer that counts its failed calls.

ghost use Rattle.std.specs.Prelude.{◌≡◌, is_err};
ghost use Rattle.std.specs.Io.{ReadsAtMost, WritesAtMost};
ghost use Rattle.std.specs.Io.KnownBytes.{Keeps, ReadConsumes, WriteAppends};

use std::io;
use std::io::{Read, Write};

/// A reader or a writer that counts its failed calls, so that no failure inside a run is lost.
#[derive(Drop)]
pub struct Counted<T> {
    inner: T,
    failures: u64,
}

impl<T> Counted<T> {
    ghost use Rattle.rtcp_text.specs.Counted.{failures_of, inner_of};

    /// Counts the failed calls of `inner` from here on.
    pub fn new(inner: T) -> Self
        ensures inner { inner_of result ≡ inner }
        ensures none { failures_of result ≡ 0 }
    {
        Counted { inner, failures: 0 }
    }

    /// How many calls failed, but at most `u64::MAX`.
    pub fn failures(&self) -> u64
        ensures { result ≡ failures_of self.now }
    {
        self.failures
    }

    /// The reader or the writer whose calls were counted.
    pub fn into_inner(self) -> T
        ensures { result ≡ inner_of self }
    {
        let Counted { inner, failures: _ } = self;
        inner
    }
}

impl<R: Read> Read for Counted<R> {
    ghost use Rattle.rtcp_text.specs.Counted.{count_after, failures_of, inner_of};

    ghost remaining = { λ counted. R.remaining (inner_of counted) };

    fn read(&mut self, buf: &mut [u8]) -> io::Result<usize>
        ensures bound { ReadsAtMost result buf.new }
        ensures bytes { ReadConsumes (R.remaining (inner_of self.old)) (R.remaining (inner_of self.new))
            result buf.new }
        // A call failed where it returned an error.
        ensures counted { failures_of self.new ≡ count_after (is_err result) (failures_of self.old) }
    {
        let result = self.inner.read(buf);
        if result.is_err() {
            self.failures = self.failures.saturating_add(1);
        }
        result
    }
}

impl<W: Write> Write for Counted<W> {
    ghost use Rattle.rtcp_text.specs.Counted.{count_after, failures_of, inner_of, took_nothing};

    ghost contents = { λ counted. W.contents (inner_of counted) };

    fn write(&mut self, buf: &[u8]) -> io::Result<usize>
        ensures bound { WritesAtMost result buf.now }
        ensures bytes { WriteAppends (W.contents (inner_of self.old)) (W.contents (inner_of self.new))
            result buf.now }
        // A call failed where it returned an error, or took nothing of a buffer that is not empty.
        ensures counted { failures_of self.new
            ≡ count_after (took_nothing result buf.now) (failures_of self.old) }
    {
        let result = self.inner.write(buf);
        let failed = match &result {
            Ok(count) => *count == 0 && !buf.is_empty(),
            Err(_) => true,
        };
        if failed {
            self.failures = self.failures.saturating_add(1);
        }
        result
    }

    fn flush(&mut self) -> io::Result<()>
        ensures bytes { Keeps (W.contents (inner_of self.old)) (W.contents (inner_of self.new)) }
        // A call failed where it returned an error.
        ensures counted { failures_of self.new ≡ count_after (is_err result) (failures_of self.old) }
    {
        let result = self.inner.flush();
        if result.is_err() {
            self.failures = self.failures.saturating_add(1);
        }
        result
    }
}
