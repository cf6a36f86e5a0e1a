//! An input, read line by line in bounded memory.
ghost use Rattle.std.specs.Prelude.{◌≡◌, ◌↔◌, ◌+◌, ◌++◌, ◌<◌, ◌≤◌, ℕ, List, length, take, drop, false, Some, IfOk, OnOk, OnErr};
ghost use Rattle.std.specs.List.{position};
ghost use Rattle.program_edge.specs.Causes.{HasCause};
ghost use Rattle.program_edge.specs.Pieces.{Takes};
ghost use Rattle.program_edge.specs.Lines.{IsOpen, Reader, fresh, is_line_feed, room, unread, HasReadCause, ReadsLine, Settles};

use crate::source::Source;
use gd_variant::{Bytes, OutOfMemory};
use std::alloc::Global;
use std::marker::Model;

/// The greatest number of bytes that a reader of lines takes from its source in one call.
pub const PIECE: usize = 65_536;

/// What a reader of lines found at the front of what is unread.
#[derive(Drop)]
pub enum NextLine {
    /// A line that ends with a line feed, without it.
    Line(Bytes),
    /// The bytes after the last line feed, where the input ends without one.
    Last(Bytes),
    /// A line with more bytes than the reader's limit. It stays unread.
    Long,
    /// The end of the input.
    End,
}

/// Why a reader of lines has no answer. Nothing that was unread is lost.
#[derive(Clone, Copy)]
pub enum ReadStop {
    Failed,
    OutOfMemory,
}

/// Where the first line feed stands.
fn first_line_feed(bytes: &[u8]) -> Option<usize>
    ensures { result ≡ position is_line_feed bytes.now }
{
    bytes.iter().position(|byte| *byte == b'\n')
}

/// Removes the first `count` bytes.
fn discard_front(buffer: &mut Vec<u8>, count: usize)
    requires { count ≤ length buffer.old.items }
    ensures { buffer.new.items ≡ drop count buffer.old.items }
{
    if count > 0 {
        let left = buffer.len() - count;
        buffer.copy_within(count.., 0);
        buffer.truncate(left);
    }
}

/// Takes one piece from the source and adds it to the buffer. The room is made first, so that no
/// byte is lost where memory runs out.
fn append_piece<S: Source>(
    buffer: &mut Vec<u8>,
    piece: &mut [u8],
    source: &mut S,
) -> Result<usize, ReadStop>
    requires { 0 < length piece.old }
    ensures bound { IfOk result (λ n. n ≤ length piece.new) }
    ensures bytes { Takes (S.left source.old) result piece.new (S.left source.new) }
    ensures added { IfOk result (λ n. buffer.new.items ≡ buffer.old.items ++ take n piece.new) }
    ensures err { OnErr result (buffer.new.items ≡ buffer.old.items) }
    ensures cause { HasReadCause (S.faults source.old) (S.faults source.new) result }
{
    if buffer.reserve(piece.len()).is_err() {
        return Err(ReadStop::OutOfMemory);
    }
    let Ok(count) = source.take(piece) else {
        return Err(ReadStop::Failed);
    };
    let added = buffer.extend_from_slice(&piece[..count]);
    prove!(added.is_ok());
    Ok(count)
}

/// Hands out an input's lines, one at a time. It holds the bytes that it took from the source and
/// didn't let go yet: never more than one line of the greatest length, and one piece.
///
/// All calls of one reader are to pass the same source. Once a source gave no byte, the reader
/// doesn't ask it again.
#[derive(Drop)]
pub struct LineReader {
    most: usize,
    buffer: Vec<u8>,
    /// Where the bytes that weren't handed out begin.
    at: usize,
    /// So many of the bytes from `at` on are known to be no line feeds.
    clean: usize,
    piece: Vec<u8>,
    ended: bool,
}

impl Model for LineReader {
    ghost use Rattle.program_edge.specs.Lines.{Reader, IsReading};

    ghost Value = { Reader };

    ghost use Rattle.std.specs.Prelude.{drop, length};

    ghost view = { λ r. record { most = r.most; bytes = drop r.at r.buffer.items; kept = length r.buffer.items; ended = r.ended } };

    ghost invariant = { λ r. IsReading r.most r.buffer.items r.at r.clean r.piece.items };
}

impl LineReader {
    /// `most` is the greatest number of bytes of a line, its line feed not counted.
    pub fn new(alloc: Global, most: usize) -> Result<LineReader, OutOfMemory>
        ensures { IfOk result (λ reader. reader ≡ fresh most) }
    {
        let piece = vec![in alloc; 0; PIECE]?;
        Ok(LineReader {
            most,
            buffer: Vec::new(alloc),
            at: 0,
            clean: 0,
            piece,
            ended: false,
        })
    }

    fn find_line_feed(&mut self) -> Option<usize>
        ensures place { result ≡ position is_line_feed self.old.bytes }
        ensures same { self.new ≡ self.old }
        ensures bounded { self.new.kept ≤ self.new.most + PIECE }
    {
        let (_, rest) = self.buffer.split_at(self.at + self.clean);
        match first_line_feed(rest) {
            Some(count) => {
                self.clean += count;
                Some(self.clean)
            }
            None => {
                self.clean = self.buffer.len() - self.at;
                None
            }
        }
    }

    /// Hands out the first `count` bytes, and leaves out the one behind them, if there is one.
    fn split_line(&mut self, alloc: Global, count: usize) -> Result<Bytes, OutOfMemory>
        requires { count ≤ length self.old.bytes }
        ensures line { IfOk result (λ line. line ≡ take count self.old.bytes) }
        ensures rest { OnOk result (self.new ≡ record self.old { bytes = drop (count + 1) self.old.bytes }) }
        ensures err { OnErr result (self.new ≡ self.old) }
        ensures bounded { self.new.kept ≤ self.new.most + PIECE }
    {
        let (_, rest) = self.buffer.split_at(self.at);
        let line = Bytes::from_slice(alloc, &rest[..count])?;
        self.at = self.buffer.len().min(self.at + count + 1);
        self.clean = 0;
        Ok(line)
    }

    fn held(&self) -> usize
        ensures { result ≡ length self.now.bytes }
    {
        self.buffer.len() - self.at
    }

    /// What is next, where the bytes that are held decide it.
    fn ready(&mut self, alloc: Global) -> Result<Option<NextLine>, OutOfMemory>
        ensures settles { Settles self.old result self.new }
        ensures bounded { self.new.kept ≤ self.new.most + PIECE }
    {
        let most = self.most;
        let ended = self.ended;
        let held = self.held();
        match self.find_line_feed() {
            Some(count) if count <= most => {
                Ok(Some(NextLine::Line(self.split_line(alloc, count)?)))
            }
            Some(_) => Ok(Some(NextLine::Long)),
            None if held > most => Ok(Some(NextLine::Long)),
            None if !ended => Ok(None),
            None if held == 0 => Ok(Some(NextLine::End)),
            None => Ok(Some(NextLine::Last(self.split_line(alloc, held)?))),
        }
    }

    /// Whether the bytes that are held decide what is next: then `next` doesn't ask the source.
    pub fn is_ready(&mut self) -> bool
        ensures open { result ≡ false ↔ IsOpen self.old }
        ensures same { self.new ≡ self.old }
        ensures bounded { self.new.kept ≤ self.new.most + PIECE }
    {
        let most = self.most;
        let ended = self.ended;
        let held = self.held();
        match self.find_line_feed() {
            Some(_) => true,
            None if held > most => true,
            None => ended,
        }
    }

    /// Takes one more piece.
    fn refill<S: Source>(&mut self, source: &mut S) -> Result<(), ReadStop>
        requires { IsOpen self.old }
        ensures unread { (bytes : List ℕ) → unread self.old (S.left source.old) ≡ Some bytes → unread self.new (S.left source.new) ≡ Some bytes }
        ensures most { self.new.most ≡ self.old.most }
        ensures progress { OnOk result (room self.new < room self.old) }
        ensures bounded { self.new.kept ≤ self.new.most + PIECE }
        ensures cause { HasReadCause (S.faults source.old) (S.faults source.new) result }
    {
        discard_front(&mut self.buffer, self.at);
        self.at = 0;
        let count = append_piece(&mut self.buffer, self.piece.as_mut_slice(), source)?;
        if count == 0 {
            self.ended = true;
        }
        Ok(())
    }

    /// The next line. The source is asked only while the bytes that are held don't decide.
    pub fn next<S: Source>(&mut self, alloc: Global, source: &mut S) -> Result<NextLine, ReadStop>
        ensures line { (bytes : List ℕ) → unread self.old (S.left source.old) ≡ Some bytes → ReadsLine self.old.most bytes result (unread self.new (S.left source.new)) }
        ensures most { self.new.most ≡ self.old.most }
        ensures bounded { self.new.kept ≤ self.new.most + PIECE }
        ensures asks { ¬ IsOpen self.old → source.new ≡ source.old }
        ensures cause { HasReadCause (S.faults source.old) (S.faults source.new) result }
    {
        loop {
            match self.ready(alloc) {
                Ok(Some(found)) => return Ok(found),
                Ok(None) => {}
                Err(OutOfMemory) => return Err(ReadStop::OutOfMemory),
            }
            self.refill(source)?;
        }
    }
}
