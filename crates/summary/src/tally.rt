// What is kept of documents that were counted.
ghost use Rattle.std.specs.Prelude.{◌≡◌, ◌≤◌, ◌<◌, List, [], ◌∷◌, ◌++◌, is_some, OnOk, OnErr};
ghost use Rattle.std.specs.Io.KnownBytes.{Appends};
ghost use Rattle.rng_model.specs.Hedges.{Skeleton, size as size_of};
ghost use Rattle.rng_model.specs.Lines.{skeleton_text};
ghost use Rattle.outside.specs.Counts.{HasCause};
ghost use Rattle.outside.specs.Devices.{AppendsFront};
ghost use Rattle.event_lines.specs.Coded.{IsMeasure};
ghost use Rattle.summary.specs.Summary.{summary};
ghost use Rattle.summary.specs.Totals.{IsTallyOf, place_line, place_lines, totals_text};
ghost use Rattle.summary.specs.Sending.{Sends, Fails};

use crate::lines::{numbered, size_line};
use crate::sending::send;
use event_lines::{Measure, WriteFault};
use outside::{Failed, Sink};
use std::marker::Model;

/// How many documents of each size from 1 to 64 nodes were counted, how many bytes their texts have, both modulo 2^64, and the sum of these
/// bytes modulo 2^32.
#[derive(Drop)]
pub struct Tally {
    counts: [Option<u64>; 64],
    bytes: u64,
    sum: u32,
}

impl Model for Tally {
    ghost use Rattle.summary.specs.Totals.{Totals};

    ghost Value = { Totals };

    ghost view = { λ t. record { counts = t.counts; bytes = t.bytes; sum = t.sum } };
}

impl Tally {
    /// The tally of no documents.
    pub fn new() -> Tally
        ensures { IsTallyOf result [] }
    {
        Tally {
            counts: [None; 64],
            bytes: 0,
            sum: 0,
        }
    }

    /// Counts one document more, of this size in nodes and with this measure of its text.
    pub fn counted(&mut self, size: usize, measure: Measure)
        requires from { 1 ≤ size }
        requires to { size ≤ 64 }
        ensures { (queue : List Skeleton) (s : Skeleton) → IsTallyOf self.old queue → size_of s ≡ size → IsMeasure measure (skeleton_text s) →
            IsTallyOf self.new (queue ++ s ∷ []) }
    {
        let place = size - 1;
        let before = self.counts[place].unwrap_or(0);
        self.counts[place] = Some(before.wrapping_add(1));
        self.bytes = self.bytes.wrapping_add(measure.bytes);
        self.sum = self.sum.wrapping_add(measure.sum);
    }

    /// Appends the summary of the documents that were counted, each line as one piece: `size M count C` for each size that some have,
    /// ascending, then `bytes B` and `sum S`. No memory is taken.
    pub fn write_summary<O: Sink>(&self, sink: &mut O) -> Result<(), WriteFault>
        ensures ok { (queue : List Skeleton) → IsTallyOf self.now queue →
            OnOk result (Appends (O.taken sink.old) (O.taken sink.new) (summary queue)) }
        ensures err { (queue : List Skeleton) → IsTallyOf self.now queue →
            OnErr result (AppendsFront (O.taken sink.old) (O.taken sink.new) (summary queue)) }
        ensures told { is_some (O.taken sink.new) ≡ is_some (O.taken sink.old) }
        ensures cause { HasCause (O.faults sink.old) (O.faults sink.new) result }
    {
        match self.send_lines(sink) {
            Ok(()) => Ok(()),
            Err(Failed) => Err(WriteFault),
        }
    }

    /// Hands all lines over.
    fn send_lines<O: Sink>(&self, sink: &mut O) -> Result<(), Failed>
        ensures ok { OnOk result (Sends (O.taken sink.old) (O.taken sink.new) (O.faults sink.old) (O.faults sink.new) (totals_text self.now)) }
        ensures err { OnErr result (Fails (O.taken sink.old) (O.taken sink.new) (O.faults sink.old) (O.faults sink.new) (totals_text self.now)) }
    {
        self.send_sizes(sink)?;
        send(&numbered("bytes ", self.bytes), sink)?;
        send(&numbered("sum ", u64::from(self.sum)), sink)?;
        Ok(())
    }

    /// Hands the lines of the sizes over.
    fn send_sizes<O: Sink>(&self, sink: &mut O) -> Result<(), Failed>
        ensures ok { OnOk result (Sends (O.taken sink.old) (O.taken sink.new) (O.faults sink.old) (O.faults sink.new)
            (place_lines self.now.counts 64)) }
        ensures err { OnErr result (Fails (O.taken sink.old) (O.taken sink.new) (O.faults sink.old) (O.faults sink.new)
            (place_lines self.now.counts 64)) }
    {
        for place in 0..64 {
            self.send_size(place, sink)?;
        }
        Ok(())
    }

    /// Hands the line of the size at the place over, where some have it.
    fn send_size<O: Sink>(&self, place: u64, sink: &mut O) -> Result<(), Failed>
        requires { place < 64 }
        ensures ok { OnOk result (Sends (O.taken sink.old) (O.taken sink.new) (O.faults sink.old) (O.faults sink.new)
            (place_line self.now.counts place)) }
        ensures err { OnErr result (Fails (O.taken sink.old) (O.taken sink.new) (O.faults sink.old) (O.faults sink.new)
            (place_line self.now.counts place)) }
    {
        match self.counts[place as usize] {
            Some(count) => send(&size_line(place + 1, count), sink),
            None => Ok(()),
        }
    }
}
