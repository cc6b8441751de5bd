//! The lines that say that the tenants are served.
ghost use Rattle.std.specs.Prelude.{string_bytes};
ghost use Rattle.mc_programs.specs.Waiting.{FailsToPush, PushesAll};

use mc_model::Fault;
use mc_net::Begin;
use mc_programs::push_all;
use mc_stream::Output;
use std::sync::Wait;

/// A text that is printed when serving begins. It is made before, so that no memory is taken then.
#[derive(Drop)]
pub(crate) struct Announcement {
    pub text: String,
}

impl<O: Output> Begin<O> for Announcement {
    ghost done = { λ announcement before after.
        PushesAll (string_bytes announcement.text) (O.tells before) (O.tells after) };

    ghost stopped = { λ announcement before after fault.
        FailsToPush (string_bytes announcement.text) (O.tells before) (O.tells after) fault };

    /// Prints the text. Returns `Output` if the output fails.
    fn begin<R: Wait>(&self, rt: &R, output: &mut O) -> Result<(), Fault> {
        push_all(rt, self.text.as_bytes(), output)
    }
}
