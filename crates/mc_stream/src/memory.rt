//! An input and an output over memory, for tests and for a server inside another program.
ghost use Rattle.std.specs.Prelude.{◌≡◌, ◌<◌, ◌++◌, ◌⊎◌, [], ◌∷◌, drop, length, min, MatchOption};
ghost use Rattle.mc_stream.specs.Event.{moved};
ghost use Rattle.mc_stream.specs.Memory.{bytes_or_end, given_of, kept_of, pull_by, push_by};
ghost use Rattle.mc_stream.specs.Stream.{GivesAtMost, TakesAtMost, pull_event, pulled_by, push_event};

use crate::stream::{Input, Output, Pull, Push};
use crate::tape::Tape;
use std::alloc::Global;
use std::marker::Model;

/// What a pull from memory does.
#[derive(Clone, Copy, Debug, PartialEq, Eq)]
pub enum InputStep {
    /// Gives at most this many bytes, and at least one if any is left.
    Give(usize),
    /// Gives nothing.
    Empty,
    /// Fails.
    Fail,
}

/// What a push to memory does.
#[derive(Clone, Copy, Debug, PartialEq, Eq)]
pub enum OutputStep {
    /// Takes at most this many bytes, and at least one.
    Take(usize),
    /// Takes nothing.
    Full,
    /// Fails.
    Fail,
}

/// An input over bytes in memory: each pull takes a step, and after the last step gives all it can.
#[derive(Drop)]
pub struct MemoryInput {
    bytes: Vec<u8>,
    given: usize,
    steps: Vec<InputStep>,
    used: usize,
    tape: Tape,
}

impl Model for MemoryInput {
    ghost use Rattle.std.specs.Prelude.{◌≤◌, drop, vec_len};
    ghost use Rattle.mc_stream.specs.Memory.{Source};

    ghost Value = { Source };

    ghost view = { λ input. record {
      rest = drop input.given input.bytes.items;
      steps = drop input.used input.steps.items;
      events = input.tape.events;
    } };

    ghost invariant = { λ input. (input.given ≤ vec_len input.bytes) × (input.used ≤ vec_len input.steps) };
}

impl MemoryInput {
    /// Returns an input that holds these bytes and takes these steps first.
    pub fn new(bytes: Vec<u8>, steps: Vec<InputStep>) -> MemoryInput
        ensures { result ≡ record { rest = bytes.items; steps = steps.items; events = [] } }
    {
        MemoryInput {
            bytes,
            given: 0,
            steps,
            used: 0,
            tape: Tape::new(),
        }
    }

    /// Takes the next step, if one is left.
    fn next_step(&mut self) -> Option<InputStep>
        ensures left { MatchOption result (self.old.steps ≡ [])
            (λ step. self.old.steps ≡ step ∷ self.new.steps) }
        ensures new { MatchOption result (self.new ≡ self.old) (λ step.
            self.new ≡ record self.old { steps = drop 1 self.old.steps }) }
    {
        if self.used == self.steps.len() {
            return None;
        }
        let step = self.steps[self.used];
        self.used += 1;
        Some(step)
    }

    /// Gives at most `most` of the bytes that are left.
    fn give(&mut self, most: usize, buffer: &mut [u8]) -> Pull
        requires room { 0 < length buffer.old }
        requires some { 0 < most }
        ensures answer { result
            ≡ bytes_or_end (min (min (length self.old.rest) most) (length buffer.old)) }
        ensures rest { self.old.rest ≡ pulled_by result buffer.new ++ self.new.rest }
        ensures steps { self.new.steps ≡ self.old.steps }
        ensures event { self.new.events ≡ pull_event result buffer.new ∷ self.old.events }
        ensures no_more { result ≡ Pull.Ended → self.new.rest ≡ [] }
    {
        let left = &self.bytes[self.given..];
        let count = left.len().min(most).min(buffer.len());
        if count == 0 {
            self.tape.ends();
            return Pull::Ended;
        }
        buffer[..count].copy_from_slice(&left[..count]);
        self.tape.moves(&buffer[..count]);
        self.given += count;
        Pull::Bytes(count)
    }
}

impl Input for MemoryInput {
    ghost tells = { given_of };

    fn pull(&mut self, buffer: &mut [u8]) -> Pull
        // As for every input.
        requires { 0 < length buffer.old }
        ensures count { GivesAtMost (length buffer.new) result }
        ensures event { self.new.events ≡ pull_event result buffer.new ∷ self.old.events }
        ensures no_more { result ≡ Pull.Ended → self.new.rest ≡ [] }

        // What this one gives.
        ensures answer { result
            ≡ pull_by self.old.steps (length self.old.rest) (length buffer.old) }
        ensures rest { self.old.rest ≡ pulled_by result buffer.new ++ self.new.rest }
        ensures steps { self.new.steps ≡ drop 1 self.old.steps }
    {
        match self.next_step() {
            Some(InputStep::Give(most)) => self.give(most.max(1), buffer),
            Some(InputStep::Empty) => {
                self.tape.waits();
                Pull::Empty
            }
            Some(InputStep::Fail) => {
                self.tape.fails();
                Pull::Failed
            }
            None => self.give(usize::MAX, buffer),
        }
    }
}

/// An output that keeps the bytes it takes: each push takes a step, and after the last step takes
/// everything. It fails if it can't allocate memory for them.
#[derive(Drop)]
pub struct MemoryOutput {
    bytes: Vec<u8>,
    steps: Vec<OutputStep>,
    used: usize,
    tape: Tape,
}

impl Model for MemoryOutput {
    ghost use Rattle.std.specs.Prelude.{◌≡◌, ◌≤◌, drop, vec_len};
    ghost use Rattle.mc_stream.specs.Event.{moved};
    ghost use Rattle.mc_stream.specs.Memory.{Sink};

    ghost Value = { Sink };

    ghost view = { λ output. record { steps = drop output.used output.steps.items; events = output.tape.events } };

    ghost invariant = { λ output. (output.used ≤ vec_len output.steps) × (moved output.tape.events ≡ output.bytes.items) };
}

impl MemoryOutput {
    /// Returns an output that has no bytes yet and takes these steps first.
    pub fn new(alloc: Global, steps: Vec<OutputStep>) -> MemoryOutput
        ensures { result ≡ record { steps = steps.items; events = [] } }
    {
        MemoryOutput {
            bytes: Vec::new(alloc),
            steps,
            used: 0,
            tape: Tape::new(),
        }
    }

    /// Returns the bytes that were taken.
    pub fn as_bytes(&self) -> &[u8]
        ensures { result.now ≡ moved self.now.events }
    {
        self.bytes.as_slice()
    }

    /// Returns the bytes that were taken, in a vector.
    pub fn into_bytes(self) -> Vec<u8>
        ensures { result.items ≡ moved self.events }
    {
        self.bytes
    }

    /// Takes the next step, if one is left.
    fn next_step(&mut self) -> Option<OutputStep>
        ensures left { MatchOption result (self.old.steps ≡ [])
            (λ step. self.old.steps ≡ step ∷ self.new.steps) }
        ensures new { MatchOption result (self.new ≡ self.old) (λ step.
            self.new ≡ record self.old { steps = drop 1 self.old.steps }) }
    {
        if self.used == self.steps.len() {
            return None;
        }
        let step = self.steps[self.used];
        self.used += 1;
        Some(step)
    }
}

impl Output for MemoryOutput {
    ghost tells = { kept_of };

    fn push(&mut self, bytes: &[u8]) -> Push
        // As for every output.
        requires { 0 < length bytes.now }
        ensures count { TakesAtMost (length bytes.now) result }
        ensures event { self.new.events ≡ push_event result bytes.now ∷ self.old.events }

        // What this one takes, if there is memory for it.
        ensures answer { (result ≡ push_by self.old.steps (length bytes.now))
            ⊎ (result ≡ Push.Failed) }
        ensures steps { self.new.steps ≡ drop 1 self.old.steps }
    {
        let most = match self.next_step() {
            Some(OutputStep::Take(most)) => most.max(1),
            Some(OutputStep::Full) => {
                self.tape.waits();
                return Push::Full;
            }
            Some(OutputStep::Fail) => {
                self.tape.fails();
                return Push::Failed;
            }
            None => usize::MAX,
        };
        let count = bytes.len().min(most);
        if self.bytes.extend_from_slice(&bytes[..count]).is_err() {
            self.tape.fails();
            return Push::Failed;
        }
        self.tape.moves(&bytes[..count]);
        Push::Taken(count)
    }
}
