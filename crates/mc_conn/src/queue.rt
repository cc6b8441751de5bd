//! The reply bytes that are to be pushed.
ghost use Rattle.std.specs.Bool.{OnFalse, OnTrue};
ghost use Rattle.std.specs.Io.{StartsWith};
ghost use Rattle.std.specs.Prelude.{◌≡◌, ◌==◌, ◌-◌, ◌<◌, ◌≤◌, [], ◌++◌, codes, drop, flat_map, length, take, MatchResult, OnErr, OnOk};
ghost use Rattle.mc_model.specs.declared.fault.Fault.TheVariants as faults;
ghost use Rattle.mc_stream.specs.Event.{waits};
ghost use Rattle.mc_stream.specs.Pushing.{IsStopped, IsUnfailed, Pushes, PushesAtOnce};
ghost use Rattle.mc_write.specs.Text.{text, value_line, value_text};

use crate::conn::QUEUE_BYTES;
use crate::run::Run;
use mc_model::item::SHARED_BYTES;
use mc_model::{Data, Fault, Reply, Sink, Value};
use mc_stream::{Output, push_while_taken};
use mc_write::{write_line, write_reply, write_value};
use std::alloc::{AllocError, Global};
use std::collections::VecDeque;
use std::marker::Model;

/// How many bytes of memory a queue keeps at most once all that it held is pushed.
const KEPT_BYTES: usize = 65_536;

/// A vector of more bytes isn't shortened, since it would drop them one by one. For fewer of them
/// that costs less than other memory.
const SHORT_BYTES: usize = 4_096;

/// A block of this many bytes or more isn't copied: one push more costs less than the copy.
const RUN_BYTES: usize = 32_768;

/// Nor is a block of this many bytes or more where more than `QUEUE_BYTES` were copied and are to
/// be pushed: a long reply isn't held twice. Shorter ones aren't shared.
const SHORT_RUN_BYTES: usize = SHARED_BYTES;

/// No memory holds more bytes than this in runs.
const MOST_IN_RUNS: usize = usize::MAX / 2;

/// This many own bytes, and the run after them.
#[derive(Drop)]
struct Part {
    own: usize,
    run: Run,
}

/// Bytes that are appended as replies and pushed from the front.
///
/// Its own bytes are in one vector. Long blocks aren't copied into it: each is a run of its own,
/// with the own bytes before it.
///
/// Own bytes that were pushed stay in the vector until all is pushed, or a reply is appended while
/// no more of them are left than were pushed: so an output that takes a long queue in small pieces
/// costs no more than these pieces.
#[derive(Drop)]
pub struct Queue {
    bytes: Vec<u8>,
    /// How many own bytes at the front were pushed.
    pushed: usize,
    parts: VecDeque<Part>,
    /// How many own bytes stand before the last run.
    within: usize,
    /// How many bytes stand in runs.
    in_runs: usize,
}

/// Pushes the first bytes and then the second, until all are taken, or the output is full or fails.
/// Returns whether all were taken.
fn push_both<O: Output>(first: &[u8], second: &[u8], output: &mut O) -> bool
    ensures pushed { PushesAtOnce (first.now ++ second.now) (O.tells output.old)
        (O.tells output.new) }
    ensures all { OnTrue result (Pushes (O.tells output.old) (O.tells output.new)
        (first.now ++ second.now)) }
    ensures taken { OnTrue result (IsUnfailed (O.tells output.old) (O.tells output.new)) }
    ensures stopped { OnFalse result (IsStopped (O.tells output.old) (O.tells output.new)) }
    ensures waited { waits (O.tells output.old).events ≤ waits (O.tells output.new).events }
{
    if !push_while_taken(first, output) {
        return false;
    }
    push_while_taken(second, output)
}

impl Model for Queue {
    ghost use Rattle.std.specs.Prelude.{ℕ, List};
    ghost use Rattle.mc_conn.specs.Queued.{IsQueue, queued};

    ghost Value = { List ℕ };

    ghost view = { queued };

    ghost invariant = { IsQueue };
}

impl Queue {
    /// Returns an empty queue. Needs no memory.
    pub fn new(alloc: Global) -> Queue
        ensures { result ≡ [] }
    {
        Queue {
            bytes: Vec::new(alloc),
            pushed: 0,
            parts: VecDeque::new(alloc),
            within: 0,
            in_runs: 0,
        }
    }

    /// Returns how many bytes are to be pushed.
    pub fn len(&self) -> usize
        ensures { result ≡ length self.now }
    {
        self.bytes.len() - self.pushed + self.in_runs
    }

    /// Returns whether all is pushed.
    pub fn is_empty(&self) -> bool
        ensures { result ≡ (length self.now == 0) }
    {
        self.len() == 0
    }

    /// Returns bytes at the front, in three slices each of which stands behind the one before: own
    /// bytes, the run behind them and what stands behind that, up to the next run; or what is left
    /// of a run alone. The first isn't empty if any is to be pushed.
    pub fn front(&self) -> (&[u8], &[u8], &[u8])
        ensures front { StartsWith self.now (result.0.now ++ (result.1.now ++ result.2.now)) }
        ensures some { 0 < length self.now → 0 < length result.0.now }
    {
        let own = &self.bytes[self.pushed..];
        let none = &own[..0];
        let Some(part) = self.parts.front() else {
            return (own, none, none);
        };
        let run = part.run.as_slice();
        if part.own == 0 {
            return (run, none, none);
        }
        let (before, others) = own.split_at(part.own);
        let behind = match self.parts.get(1) {
            Some(next) => &others[..next.own],
            None => others,
        };
        (before, run, behind)
    }

    /// Pushes what is queued until all is taken, or the output is full or fails, and leaves it
    /// queued. Returns whether all was taken.
    pub fn push_while_taken<O: Output>(&self, output: &mut O) -> bool
        ensures pushed { PushesAtOnce self.now (O.tells output.old) (O.tells output.new) }
        ensures all { OnTrue result (Pushes (O.tells output.old) (O.tells output.new) self.now) }
        ensures taken { OnTrue result (IsUnfailed (O.tells output.old) (O.tells output.new)) }
        ensures stopped { OnFalse result (IsStopped (O.tells output.old) (O.tells output.new)) }
        ensures waited { waits (O.tells output.old).events ≤ waits (O.tells output.new).events }
    {
        let mut own = &self.bytes[self.pushed..];
        for index in 0..self.parts.len() {
            let part = &self.parts[index];
            let (before, behind) = own.split_at(part.own);
            if !push_both(before, part.run.as_slice(), output) {
                return false;
            }
            own = behind;
        }
        push_while_taken(own, output)
    }

    /// Drops bytes at the front that stand together, at most this many. Returns how many.
    fn advance_first(&mut self, count: usize) -> usize
        requires { (0 < count) × (count ≤ length self.old) }
        ensures count { (0 < result) × (result ≤ count) }
        ensures rest { self.new ≡ drop result self.old }
    {
        let Some(part) = self.parts.pop_front() else {
            self.pushed += count;
            return count;
        };
        if part.own > 0 {
            let taken = count.min(part.own);
            let own = part.own - taken;
            self.parts.push_front_reserved(Part { own, run: part.run });
            self.pushed += taken;
            self.within -= taken;
            return taken;
        }
        if count < part.run.len() {
            let mut run = part.run;
            run.advance(count);
            self.parts.push_front_reserved(Part { own: 0, run });
            self.in_runs -= count;
            return count;
        }
        self.in_runs -= part.run.len();
        part.run.len()
    }

    /// Drops this many bytes at the front, which were pushed.
    pub fn advance(&mut self, count: usize)
        requires { count ≤ length self.old }
        ensures { self.new ≡ drop count self.old }
    {
        let mut left = count;
        while left > 0 {
            left -= self.advance_first(left);
        }
        if self.is_empty() {
            self.settle();
            self.parts.shrink_to_fit();
        }
    }

    /// Moves the own bytes that are to be pushed to the front of the vector, if they are no more
    /// than those that were pushed since the last move.
    fn settle(&mut self)
        ensures { self.new ≡ self.old }
    {
        let left = self.bytes.len() - self.pushed;
        if left > self.pushed {
            return;
        }
        if self.bytes.len() > SHORT_BYTES || self.bytes.capacity() > KEPT_BYTES {
            self.renew();
            return;
        }
        self.bytes.copy_within(self.pushed.., 0);
        self.bytes.truncate(left);
        self.pushed = 0;
    }

    /// Moves what is to be pushed of the vector to another one, unless memory runs out. If it fits
    /// into as much memory as a queue keeps, the other has no more.
    fn renew(&mut self)
        ensures { self.new ≡ self.old }
    {
        let left = &self.bytes[self.pushed..];
        let mut bytes = Vec::new(*self.bytes.allocator());
        // If there isn't so much, the bytes that are left may still fit.
        let _ = bytes.reserve_exact(self.bytes.capacity().min(KEPT_BYTES));
        if bytes.extend_from_slice(left).is_ok() {
            self.bytes = bytes;
            self.pushed = 0;
        }
    }

    /// Appends a copy of the bytes.
    fn put(&mut self, bytes: &[u8]) -> Result<(), AllocError>
        ensures queued { OnOk result (self.new ≡ self.old ++ bytes.now) }
        ensures unchanged { OnErr result (self.new ≡ self.old) }
    {
        self.bytes.extend_from_slice(bytes)?;
        Ok(())
    }

    /// Appends the text of an item.
    fn put_value(&mut self, value: &Value<'_>) -> Result<(), AllocError>
        ensures queued { OnOk result (self.new ≡ self.old ++ value_text value.now) }
        ensures unchanged { OnErr result (self.new ≡ self.old) }
    {
        write_value(value, &mut self.bytes)?;
        Ok(())
    }

    /// Appends the line of an item.
    fn put_line(&mut self, value: &Value<'_>) -> Result<(), AllocError>
        ensures queued { OnOk result
            (self.new ≡ self.old ++ (value_line value.now ++ codes "\r\n")) }
        ensures unchanged { OnErr result (self.new ≡ self.old) }
    {
        write_line(value, &mut self.bytes)?;
        Ok(())
    }

    /// Appends a block, which isn't copied.
    fn put_run(&mut self, block: Data) -> Result<(), AllocError>
        requires { 0 < length block }
        ensures queued { OnOk result (self.new ≡ self.old ++ block) }
        ensures unchanged { OnErr result (self.new ≡ self.old) }
    {
        let run = Run::new(block);
        let len = run.len();
        if len > MOST_IN_RUNS - self.in_runs {
            return Err(AllocError);
        }
        let own = self.bytes.len() - self.pushed - self.within;
        self.parts.push_back(Part { own, run })?;
        self.within += own;
        self.in_runs += len;
        Ok(())
    }

    /// Returns whether a block of this many bytes is not to be copied.
    fn is_run(&self, len: usize) -> bool
        ensures { OnTrue result (0 < len) }
    {
        let own = self.bytes.len() - self.pushed;
        len >= RUN_BYTES || len >= SHORT_RUN_BYTES && own > QUEUE_BYTES
    }

    /// Appends an item. It may be appended in part if memory runs out.
    fn append_value(&mut self, value: &Value<'_>) -> Result<(), AllocError>
        ensures text { OnOk result (self.new ≡ self.old ++ value_text value.now) }
        ensures begun { StartsWith self.new self.old }
    {
        if !self.is_run(value.block.len()) {
            return self.put_value(value);
        }
        self.put_line(value)?;
        value.block.give(self)?;
        self.put(b"\r\n")
    }

    /// Appends items. They may be appended in part if memory runs out.
    fn append_values(&mut self, values: &[Value<'_>]) -> Result<(), AllocError>
        ensures text { OnOk result
            (self.new ≡ self.old ++ (flat_map value_text values.now ++ codes "END\r\n")) }
        ensures begun { StartsWith self.new self.old }
    {
        for value in values {
            self.append_value(value)?;
        }
        self.put(b"END\r\n")
    }

    /// Appends the text of a reply that isn't the items of a retrieval.
    fn put_reply(&mut self, reply: &Reply<'_>) -> Result<(), Fault>
        ensures { MatchResult result (λ _. self.new ≡ self.old ++ text reply.now)
            (λ fault. (fault ≡ faults.Memory) × (self.new ≡ self.old)) }
    {
        write_reply(reply, &mut self.bytes)?;
        Ok(())
    }

    /// Drops the bytes at the end that stand together, at most this many. Returns how many.
    fn drop_last(&mut self, count: usize) -> usize
        requires { (0 < count) × (count ≤ length self.old) }
        ensures count { (0 < result) × (result ≤ count) }
        ensures rest { self.new ≡ take (length self.old - result) self.old }
    {
        let behind = self.bytes.len() - self.pushed - self.within;
        if behind > 0 {
            let taken = count.min(behind);
            self.bytes.truncate(self.bytes.len() - taken);
            return taken;
        }
        let Some(part) = self.parts.pop_back() else {
            unreachable!()
        };
        if count < part.run.len() {
            let own = part.own;
            let mut run = part.run;
            run.truncate(run.len() - count);
            self.parts.push_back_reserved(Part { own, run });
            self.in_runs -= count;
            return count;
        }
        self.within -= part.own;
        self.in_runs -= part.run.len();
        part.run.len()
    }

    /// Takes back what stands behind this many bytes.
    fn truncate(&mut self, count: usize)
        requires { count ≤ length self.old }
        ensures { self.new ≡ take count self.old }
    {
        let mut over = self.len() - count;
        while over > 0 {
            over -= self.drop_last(over);
        }
    }

    /// Appends a reply's text. Long blocks aren't copied: the queue shares their bytes, so it keeps
    /// nothing of what the reply borrows.
    ///
    /// Returns `Memory` if memory runs out; the queue is unchanged then.
    pub fn append(&mut self, reply: &Reply<'_>) -> Result<(), Fault>
        ensures { MatchResult result (λ _. self.new ≡ self.old ++ text reply.now)
            (λ fault. (fault ≡ faults.Memory) × (self.new ≡ self.old)) }
    {
        self.settle();
        let Reply::Values(values) = reply else {
            return self.put_reply(reply);
        };
        let start = self.len();
        let appended = self.append_values(values.as_slice());
        if appended.is_err() {
            self.truncate(start);
        }
        Ok(appended?)
    }
}

/// What a queue is given of a reply's data: a long block isn't copied.
impl Sink for Queue {
    ghost taken = { λ queue. queue };

    fn take_block(&mut self, block: &Data) -> Result<(), AllocError> {
        if !self.is_run(block.as_bytes().len()) {
            return self.put(block.as_bytes());
        }
        match block.try_clone() {
            Ok(shared) => self.put_run(shared),
            Err(_) => Err(AllocError),
        }
    }

    fn take_bytes(&mut self, bytes: &[u8]) -> Result<(), AllocError> {
        self.put(bytes)
    }
}
