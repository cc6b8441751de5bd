//! What a program prints about the fault that ended it.
ghost use Rattle.std.specs.Prelude.{◌≡◌};
ghost use Rattle.mc_programs.specs.Faults.{fault_line, program_line};
ghost use Rattle.mc_stream.specs.Pushing.{PushesOrFails};

use crate::waiting::push_all;
use mc_model::Fault;
use mc_stream::Output;
use mc_write::fault_text;
use std::sync::Wait;

/// Pushes a line that begins with the program's name. Needs no memory, which may be what ran out.
///
/// Returns `Output` if `errors` fails.
pub(crate) fn tell_line<R: Wait, E: Output>(
    rt: &R,
    program: &[u8],
    text: &[u8],
    errors: &mut E,
) -> Result<(), Fault>
    ensures { PushesOrFails (program_line program.now text.now) (E.tells errors.old)
        (E.tells errors.new) }
{
    push_all(rt, program, errors)?;
    push_all(rt, b": ", errors)?;
    push_all(rt, text, errors)?;
    push_all(rt, b"\n", errors)
}

/// Pushes the line on the fault that ended a program. A failure of `errors` is ignored.
pub fn tell_fault<R: Wait, E: Output>(rt: &R, program: &[u8], fault: Fault, errors: &mut E)
    ensures { PushesOrFails (fault_line program.now fault) (E.tells errors.old)
        (E.tells errors.new) }
{
    let _ = tell_line(rt, program, fault_text(fault), errors);
}

/// Pushes the line that `tell_fault` pushes, and returns the program's exit status, 1.
pub fn fail<R: Wait, E: Output>(rt: &R, program: &[u8], fault: Fault, errors: &mut E) -> u8
    ensures status { result ≡ 1 }
    ensures told { PushesOrFails (fault_line program.now fault) (E.tells errors.old)
        (E.tells errors.new) }
{
    tell_fault(rt, program, fault, errors);
    1
}
