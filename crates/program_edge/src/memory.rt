//! Sources and sinks in memory.
ghost use Rattle.std.specs.Prelude.{◌≡◌, ◌<◌, ◌≤◌, ◌+◌, ◌-◌, ◌↔◌, Some, None, IfOk, is_ok, not, true, false, min, length, take, drop, []};
ghost use Rattle.program_edge.specs.Causes.{HasCause};
ghost use Rattle.program_edge.specs.Memory.{is_failing, next_call};
ghost use Rattle.program_edge.specs.Pieces.{Puts, Takes};

use crate::sink::Sink;
use crate::source::{Failed, Source};

/// Moves as much as fits, and at most so many bytes.
fn fill(rest: &[u8], most: usize, buf: &mut [u8]) -> usize
    requires some { 0 < most }
    requires room { 0 < length buf.old }
    ensures within { result ≤ length rest.now }
    ensures fits { result ≤ length buf.new }
    ensures moved { take result buf.new ≡ take result rest.now }
    ensures count { result ≡ min (min (length rest.now) (length buf.old)) most }
    ensures end { result ≡ 0 → rest.now ≡ [] }
{
    let count = rest.len().min(buf.len()).min(most);
    buf[..count].copy_from_slice(&rest[..count]);
    count
}

/// Bytes in memory, given in pieces, with calls that are to fail.
#[derive(Drop)]
pub struct MemSource {
    bytes: Vec<u8>,
    at: usize,
    most: usize,
    calls: u64,
    failing: Vec<u64>,
    faults: u64,
    ghost within: { at ≤ length bytes.items },
    ghost some: { 0 < most },
}

impl MemSource {
    /// `most` is the greatest number of bytes that one call gives. `failing` has the numbers of the
    /// calls that are to fail, counted from 1.
    pub fn new(bytes: Vec<u8>, most: usize, failing: Vec<u64>) -> MemSource
        requires { 0 < most }
        ensures left { ⟦<MemSource as Source>⟧.left result ≡ Some bytes.items }
        ensures faults { ⟦<MemSource as Source>⟧.faults result ≡ 0 }
    {
        MemSource {
            bytes,
            at: 0,
            most,
            calls: 0,
            failing,
            faults: 0,
        }
    }
}

impl Source for MemSource {
    ghost left = { λ s. Some (drop s.at s.bytes.items) };

    ghost faults = { λ s. s.faults };

    fn take(&mut self, buf: &mut [u8]) -> Result<usize, Failed>
        requires { 0 < length buf.old }
        ensures bound { IfOk result (λ n. n ≤ length buf.new) }
        ensures bytes { Takes (Some (drop self.old.at self.old.bytes.items)) result buf.new (Some (drop self.new.at self.new.bytes.items)) }
        ensures cause { HasCause self.old.faults self.new.faults result }
        ensures fails { is_ok result ≡ not (is_failing self.old.failing.items (next_call self.old.calls)) }
        ensures count { IfOk result (λ n. n ≡ min (min (length (drop self.old.at self.old.bytes.items)) (length buf.old)) self.old.most) }
        ensures calls { self.new.calls ≡ next_call self.old.calls }
        ensures same { (self.new.failing.items ≡ self.old.failing.items) × (self.new.most ≡ self.old.most) }
    {
        self.calls = self.calls.saturating_add(1);
        if self.failing.contains(&self.calls) {
            self.faults = self.faults.saturating_add(1);
            return Err(Failed);
        }
        let (_, rest) = self.bytes.split_at(self.at);
        let count = fill(rest, self.most, buf);
        self.at += count;
        Ok(count)
    }
}

/// Bytes in memory, each call of which gives as many as fit. It never fails.
#[derive(Drop)]
pub struct SureSource {
    bytes: Vec<u8>,
    at: usize,
    ghost within: { at ≤ length bytes.items },
}

impl SureSource {
    pub fn new(bytes: Vec<u8>) -> SureSource
        ensures left { ⟦<SureSource as Source>⟧.left result ≡ Some bytes.items }
        ensures faults { ⟦<SureSource as Source>⟧.faults result ≡ 0 }
    {
        SureSource { bytes, at: 0 }
    }
}

impl Source for SureSource {
    ghost left = { λ s. Some (drop s.at s.bytes.items) };

    ghost faults = { λ _. 0 };

    fn take(&mut self, buf: &mut [u8]) -> Result<usize, Failed> {
        let (_, rest) = self.bytes.split_at(self.at);
        let count = fill(rest, usize::MAX, buf);
        self.at += count;
        Ok(count)
    }
}

/// Bytes that are kept in memory, with calls that are to fail. A call also fails where no memory
/// is left for the piece.
#[derive(Drop)]
pub struct MemSink {
    bytes: Vec<u8>,
    calls: u64,
    failing: Vec<u64>,
    faults: u64,
}

impl MemSink {
    /// Adds to `bytes`. `failing` has the numbers of the calls that are to fail, counted from 1.
    pub fn new(bytes: Vec<u8>, failing: Vec<u64>) -> MemSink
        ensures held { ⟦<MemSink as Sink>⟧.held result ≡ Some bytes.items }
        ensures faults { ⟦<MemSink as Sink>⟧.faults result ≡ 0 }
    {
        MemSink {
            bytes,
            calls: 0,
            failing,
            faults: 0,
        }
    }

    pub fn as_slice(&self) -> &[u8]
        ensures { ⟦<MemSink as Sink>⟧.held self.now ≡ Some result.now }
    {
        self.bytes.as_slice()
    }
}

impl Sink for MemSink {
    ghost held = { λ s. Some s.bytes.items };

    ghost faults = { λ s. s.faults };

    fn put(&mut self, piece: &[u8]) -> Result<usize, Failed>
        requires { 0 < length piece.now }
        ensures bound { IfOk result (λ n. (0 < n) × (n ≤ length piece.now)) }
        ensures bytes { Puts (Some self.old.bytes.items) result piece.now (Some self.new.bytes.items) }
        ensures cause { HasCause self.old.faults self.new.faults result }
        ensures fails { is_failing self.old.failing.items (next_call self.old.calls) ≡ true → is_ok result ≡ false }
        ensures count { IfOk result (λ n. n ≡ length piece.now) }
        ensures calls { self.new.calls ≡ next_call self.old.calls }
        ensures same { self.new.failing.items ≡ self.old.failing.items }
    {
        self.calls = self.calls.saturating_add(1);
        if self.failing.contains(&self.calls) || self.bytes.extend_from_slice(piece).is_err() {
            self.faults = self.faults.saturating_add(1);
            return Err(Failed);
        }
        Ok(piece.len())
    }
}

/// Throws away what it is given, and so tells no bytes. It never fails.
#[derive(Clone, Copy)]
pub struct SureSink;

impl Sink for SureSink {
    ghost held = { λ _. None };

    ghost faults = { λ _. 0 };

    fn put(&mut self, piece: &[u8]) -> Result<usize, Failed> {
        Ok(piece.len())
    }
}
