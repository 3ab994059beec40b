//! The lines of a text that is read in blocks, and their answers.

ghost use Rattle.std.specs.Prelude.{◌≡◌, ◌≢◌, ◌+◌, ◌<◌, ◌≤◌, ◌++◌, ◌↔◌, [], length, OnOk, vec_len};
ghost use Rattle.rtcp_text.specs.Counted.{failures_of, inner_of};
ghost use Rattle.rtcp_text.specs.Lines.{HasNoLineFeed};
ghost use Rattle.rtcp_text.specs.Progress.{Grows, IsBetween, IsAfterLine, Lengthens, LineLeaves, PartLeaves, EndLeaves};

use crate::answerer::Answerer;
use crate::counted::Counted;
use crate::fault::{LineFault, TextFault};
use crate::writing::write_whole;
use memchr::memchr;
use std::alloc::Global;
use std::io::Write;

/// The most octets of a line, its line feed not counted.
const MAX_LINE: usize = 131_200;

/// Cuts a text into its lines and has each answered as it comes. The buffers are kept from line to line.
#[derive(Drop)]
pub(crate) struct LineCutter<A> {
    answerer: A,
    /// The most lines that are answered.
    most: u32,
    answered: u64,
    pending: Vec<u8>,
    text: Vec<u8>,
}

impl<A: Answerer> LineCutter<A> {
    /// A cutter that has had no line answered, and answers so many at most.
    pub(crate) fn new(alloc: Global, most: u32, answerer: A) -> Self
        ensures answerer { result.answerer ≡ answerer }
        ensures most { result.most ≡ most }
        ensures answered { result.answered ≡ 0 }
        ensures pending { result.pending.items ≡ [] }
    {
        LineCutter {
            answerer,
            most,
            answered: 0,
            pending: Vec::new(alloc),
            text: Vec::new(alloc),
        }
    }

    /// Takes the next octets of the input, and answers each line that ends in them. What follows the last
    /// line feed is kept.
    ///
    /// # Errors
    ///
    /// Those of [`answer_blocks`](crate::blocks::answer_blocks) but for `Read`. The cutter is not to be used
    /// after one.
    pub(crate) fn take_block<W: Write>(
        &mut self,
        block: &[u8],
        writer: &mut Counted<W>,
    ) -> Result<(), TextFault>
        requires between { IsBetween self.old.most self.old.answered self.old.pending.items }
        requires unfailed { failures_of writer.old ≡ 0 }
        ensures written { Grows (W.contents (inner_of writer.old)) (W.contents (inner_of writer.new))
            (PartLeaves self.old.most A.answers A.refuses result
            self.old.answered self.old.answerer (self.old.pending.items ++ block.now)
            self.new.answered self.new.answerer self.new.pending.items) }
        ensures between { OnOk result (IsBetween self.new.most self.new.answered self.new.pending.items) }
        ensures most { self.new.most ≡ self.old.most }
        ensures failed { (result ≡ Err TextFault.Write) ↔ (failures_of writer.new ≢ 0) }
        ensures once { failures_of writer.new ≤ 1 }
    {
        let mut rest = block;
        while !rest.is_empty() {
            let (piece, after) = split_line(rest);
            let Some((_, others)) = after.split_first() else {
                self.append(piece)?;
                return Ok(());
            };
            self.answer_with(piece, writer)?;
            rest = others;
        }
        Ok(())
    }

    /// Answers the last line, where the input ends without a line feed.
    ///
    /// # Errors
    ///
    /// Those of [`answer_blocks`](crate::blocks::answer_blocks) but for `Read`. The cutter is not to be used
    /// after one.
    pub(crate) fn finish<W: Write>(&mut self, writer: &mut Counted<W>) -> Result<(), TextFault>
        requires between { IsBetween self.old.most self.old.answered self.old.pending.items }
        requires unfailed { failures_of writer.old ≡ 0 }
        ensures written { Grows (W.contents (inner_of writer.old)) (W.contents (inner_of writer.new))
            (EndLeaves self.old.most A.answers A.refuses result
            self.old.answered self.old.answerer self.old.pending.items) }
        ensures failed { (result ≡ Err TextFault.Write) ↔ (failures_of writer.new ≢ 0) }
        ensures once { failures_of writer.new ≤ 1 }
    {
        if self.pending.is_empty() {
            return Ok(());
        }
        self.answer(writer)
    }

    /// Answers the line that ends with a piece. It is copied only where a part of it is pending.
    ///
    /// # Errors
    ///
    /// Those of [`append`](Self::append) and [`answer`](Self::answer).
    fn answer_with<W: Write>(
        &mut self,
        piece: &[u8],
        writer: &mut Counted<W>,
    ) -> Result<(), TextFault>
        requires between { IsBetween self.old.most self.old.answered self.old.pending.items }
        requires unfailed { failures_of writer.old ≡ 0 }
        ensures written { Grows (W.contents (inner_of writer.old)) (W.contents (inner_of writer.new))
            (λ text. LineLeaves self.old.most A.answers A.refuses result (self.old.answered + 1) self.old.answerer
            (self.old.pending.items ++ piece.now) text self.new.answerer) }
        ensures answered { OnOk result (self.new.answered ≡ self.old.answered + 1) }
        ensures few { OnOk result (self.old.answered < self.old.most) }
        ensures most { self.new.most ≡ self.old.most }
        ensures pending { OnOk result (self.new.pending.items ≡ []) }
        ensures failed { (result ≡ Err TextFault.Write) ↔ (failures_of writer.new ≢ 0) }
        ensures once { failures_of writer.new ≤ 1 }
    {
        if !self.pending.is_empty() {
            self.append(piece)?;
            return self.answer(writer);
        }
        self.admit(piece)?;
        let number = self.answered + 1;
        answer_line(
            &mut self.answerer,
            self.most,
            number,
            piece,
            &mut self.text,
            writer,
        )?;
        self.answered = number;
        Ok(())
    }

    /// Appends a piece to the pending part of a line, where some of the input is in that line or after it.
    ///
    /// # Errors
    ///
    /// - [`TextFault::Text`] where that is a line too many, or too long.
    /// - [`TextFault::Memory`] where memory is refused.
    fn append(&mut self, piece: &[u8]) -> Result<(), TextFault>
        requires { IsBetween self.old.most self.old.answered self.old.pending.items }
        ensures longer { Lengthens self.old.most result self.old.answered self.old.pending.items piece.now
            self.new.pending.items }
        ensures answered { self.new.answered ≡ self.old.answered }
        ensures answerer { self.new.answerer ≡ self.old.answerer }
        ensures most { self.new.most ≡ self.old.most }
    {
        self.admit(piece)?;
        match self.pending.extend_from_slice(piece) {
            Ok(()) => Ok(()),
            Err(_) => Err(TextFault::Memory),
        }
    }

    /// Tests that the pending part may be made longer by a piece.
    ///
    /// # Errors
    ///
    /// [`TextFault::Text`] where that is a line too many, or too long.
    fn admit(&self, piece: &[u8]) -> Result<(), TextFault>
        requires { IsBetween self.now.most self.now.answered self.now.pending.items }
        ensures longer { Lengthens self.now.most result self.now.answered self.now.pending.items piece.now
            (self.now.pending.items ++ piece.now) }
        ensures memory { result ≢ Err TextFault.Memory }
    {
        if self.answered >= u64::from(self.most) {
            return Err(self.refused(LineFault::TooManyLines));
        }
        if piece.len() > MAX_LINE - self.pending.len() {
            return Err(self.refused(LineFault::LineTooLong));
        }
        Ok(())
    }

    /// A fault at the first line that is not answered.
    fn refused(&self, fault: LineFault) -> TextFault
        requires { self.now.answered ≤ self.now.most }
        ensures { result ≡ TextFault.Text (self.now.answered + 1) fault }
    {
        TextFault::Text {
            line: self.answered + 1,
            fault,
        }
    }

    /// Answers the pending line.
    ///
    /// # Errors
    ///
    /// - [`TextFault::Text`] where the answerer refuses the line, and [`TextFault::Memory`] where memory is
    ///   refused: nothing is written.
    /// - [`TextFault::Write`] where a call of the writer fails or takes nothing: a prefix of the answer is
    ///   written.
    fn answer<W: Write>(&mut self, writer: &mut Counted<W>) -> Result<(), TextFault>
        requires few { self.old.answered < self.old.most }
        requires short { vec_len self.old.pending ≤ 131200 }
        requires unfailed { failures_of writer.old ≡ 0 }
        ensures written { Grows (W.contents (inner_of writer.old)) (W.contents (inner_of writer.new))
            (λ text. LineLeaves self.old.most A.answers A.refuses result (self.old.answered + 1) self.old.answerer
            self.old.pending.items text self.new.answerer) }
        ensures answered { OnOk result (self.new.answered ≡ self.old.answered + 1) }
        ensures pending { OnOk result (self.new.pending.items ≡ []) }
        ensures most { self.new.most ≡ self.old.most }
        ensures failed { (result ≡ Err TextFault.Write) ↔ (failures_of writer.new ≢ 0) }
        ensures once { failures_of writer.new ≤ 1 }
    {
        let number = self.answered + 1;
        answer_line(
            &mut self.answerer,
            self.most,
            number,
            &self.pending,
            &mut self.text,
            writer,
        )?;
        self.answered = number;
        self.pending.clear();
        Ok(())
    }
}

/// Makes the answer to a line in the buffer `text`, and writes it.
///
/// # Errors
///
/// - [`TextFault::Text`] where the answerer refuses the line, and [`TextFault::Memory`] where memory is refused:
///   nothing is written.
/// - [`TextFault::Write`] where a call of the writer fails or takes nothing: a prefix of the answer is written.
fn answer_line<A: Answerer, W: Write>(
    answerer: &mut A,
    most: u32,
    number: u64,
    line: &[u8],
    text: &mut Vec<u8>,
    writer: &mut Counted<W>,
) -> Result<(), TextFault>
    requires few { number ≤ most }
    requires short { length line.now ≤ 131200 }
    requires unfailed { failures_of writer.old ≡ 0 }
    ensures written { Grows (W.contents (inner_of writer.old)) (W.contents (inner_of writer.new))
        (λ text. LineLeaves most A.answers A.refuses result number answerer.old line.now text answerer.new) }
    ensures failed { (result ≡ Err TextFault.Write) ↔ (failures_of writer.new ≢ 0) }
    ensures once { failures_of writer.new ≤ 1 }
{
    text.clear();
    answerer.compose(number, line, text)?;
    write_whole(writer, text)
}

/// What comes before the first line feed, and the rest from that line feed on.
fn split_line(octets: &[u8]) -> (&[u8], &[u8])
    ensures parts { octets.now ≡ result.0.now ++ result.1.now }
    ensures part { HasNoLineFeed result.0.now }
    ensures feed { IsAfterLine result.1.now }
{
    let end = memchr(b'\n', octets).unwrap_or(octets.len());
    octets.split_at(end)
}
