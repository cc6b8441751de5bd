//! The traits of what gives bytes and what takes them.
ghost use Rattle.std.specs.Io.KnownBytes.{Consumes, IsAtEnd};
ghost use Rattle.std.specs.Prelude.{◌≡◌, ◌∷◌, ◌++◌, ◌<◌, length};
ghost use Rattle.mc_stream.specs.Pushing.{IsPush};
ghost use Rattle.mc_stream.specs.Stream.{GivesAtMost, Inflow, Outflow, TakesAtMost, pull_event, pulled_by, push_event};

/// What a pull gave.
#[derive(Clone, Copy, Debug, PartialEq, Eq)]
pub enum Pull {
    /// This many bytes are now at the front of the buffer.
    Bytes(usize),
    /// There are no bytes now.
    Empty,
    /// The input has ended.
    Ended,
    /// The input failed.
    Failed,
}

/// What a push took.
#[derive(Clone, Copy, Debug, PartialEq, Eq)]
pub enum Push {
    /// This many bytes from the front were taken.
    Taken(usize),
    /// No bytes can be taken now.
    Full,
    /// The output failed.
    Failed,
}

/// An input: gives bytes, in pieces.
pub trait Input {
    /// What it reports of itself.
    ghost tells: { Self → Inflow };

    /// Puts bytes at the front of the buffer. The bytes after them are unspecified.
    fn pull(&mut self, buffer: &mut [u8]) -> Pull
        requires { 0 < length buffer.old }
        ensures count { GivesAtMost (length buffer.new) result }
        ensures event { (tells self.new).events
            ≡ pull_event result buffer.new ∷ (tells self.old).events }
        ensures rest { Consumes (tells self.old).left (tells self.new).left
            (pulled_by result buffer.new) }
        ensures no_more { result ≡ Pull.Ended → IsAtEnd (tells self.new).left };
}

/// An output: takes bytes, in pieces.
pub trait Output {
    /// What it reports of itself.
    ghost tells: { Self → Outflow };

    /// Takes bytes from the front.
    fn push(&mut self, bytes: &[u8]) -> Push
        requires { 0 < length bytes.now }
        ensures count { TakesAtMost (length bytes.now) result }
        ensures event { (tells self.new).events
            ≡ push_event result bytes.now ∷ (tells self.old).events };

    /// Takes bytes from the front of three slices, as if each stood behind the one before. An output
    /// that can take all of them at once does; any other takes of the first alone.
    fn push_parts(&mut self, first: &[u8], second: &[u8], third: &[u8]) -> Push
        requires { 0 < length first.now }
        ensures count { TakesAtMost (length (first.now ++ (second.now ++ third.now))) result }
        ensures push { IsPush result (first.now ++ (second.now ++ third.now)) (tells self.old)
            (tells self.new) }
    {
        let _ = second;
        let _ = third;
        self.push(first)
    }
}

impl<I: Input> Input for &mut I {
    ghost tells = { λ input. I.tells input.now };

    fn pull(&mut self, buffer: &mut [u8]) -> Pull {
        Input::pull(&mut **self, buffer)
    }
}

impl<O: Output> Output for &mut O {
    ghost tells = { λ output. O.tells output.now };

    fn push(&mut self, bytes: &[u8]) -> Push {
        Output::push(&mut **self, bytes)
    }

    fn push_parts(&mut self, first: &[u8], second: &[u8], third: &[u8]) -> Push {
        Output::push_parts(&mut **self, first, second, third)
    }
}
