//! Whether the words of wfmc's command line can be served, without listening anywhere.
ghost use Rattle.std.specs.Prelude.{◌≡◌, IfOk, string_bytes};
ghost use Rattle.mc_server.specs.Complaints.{address_text, complaint_line, counted_text, part_text};
ghost use Rattle.mc_server.specs.Checking.{ChecksWords};
ghost use Rattle.mc_server.specs.NetworkWords.{given_in};

use crate::complaint::{AddressOption, Complaint, Counted, Part, check};
use crate::network_texts::NAME;
use crate::network_words::NetworkWords;
use mc_model::Fault;
use mc_programs::{fail, push_all};
use mc_stream::Output;
use std::alloc::{AllocError, Global};
use std::sync::Wait;

impl Counted {
    /// Returns how a number is named on the command line.
    fn text(self) -> &'static str
        ensures { result.now ≡ counted_text self }
    {
        match self {
            Counted::Workers => "--workers",
            Counted::Places => "--places",
            Counted::Generations => "--generations",
            Counted::LogBytes => "--log-bytes",
            Counted::Tenants => "tenants",
        }
    }
}

impl AddressOption {
    /// Returns how an address is named on the command line.
    fn text(self) -> &'static str
        ensures { result.now ≡ address_text self }
    {
        match self {
            AddressOption::Admin => "--admin",
            AddressOption::Metrics => "--metrics",
        }
    }
}

impl Part {
    /// Returns what a part of a tenant's word isn't.
    fn text(self) -> &'static str
        ensures { result.now ≡ part_text self }
    {
        match self {
            Part::Form => "not NAME=ADDR,ITEMS,BYTES",
            Part::Name => "NAME is not 1 to 32 of a to z, 0 to 9, - and _",
            Part::Address => "ADDR is not an IPv4 address and a port",
            Part::Items => "ITEMS is not from 1 to 1048576",
            Part::Bytes => "BYTES is not from 1 to 1073741824",
        }
    }
}

/// Returns the line that reports a complaint.
///
/// Returns an error if memory runs out.
fn complaint_line(alloc: Global, complaint: Complaint<'_>) -> Result<String, AllocError>
    ensures { IfOk result (λ line. string_bytes line ≡ complaint_line complaint.entry) }
{
    match complaint {
        Complaint::OutOfBounds(counted, number) => {
            let name = counted.text();
            let least = counted.least();
            let most = counted.most();
            format!(in alloc; "wfmc: {name} {number}: not from {least} to {most}\n")
        }
        Complaint::LargeReserve(reserve, tenants) => {
            format!(in alloc;
                "wfmc: --reserve {reserve}: {tenants} times that is not from 0 to 1024\n"
            )
        }
        Complaint::NoAddress(option, word) => {
            let name = option.text();
            let text = Part::Address.text();
            format!(in alloc; "wfmc: {name} {word}: {text}\n")
        }
        Complaint::WrongPart(word, part) => {
            let text = part.text();
            format!(in alloc; "wfmc: {word}: {text}\n")
        }
        Complaint::NameTaken(name) => {
            format!(in alloc; "wfmc: two listeners are named {name}\n")
        }
    }
}

/// Checks whether what the words give can be served, and returns the program's exit status: 0 if
/// so, and 2 with a complaint on `errors` if not. Nothing is listened on.
///
/// If memory runs out or the output fails, that is reported on `errors`, with status 1. A failure
/// of `errors` is ignored.
pub(crate) fn check_words<R: Wait, O: Output, E: Output>(
    rt: &R,
    alloc: Global,
    given: &NetworkWords,
    output: &mut O,
    errors: &mut E,
) -> u8
    ensures { ChecksWords (given_in given.now) result
        (O.tells output.old) (O.tells output.new) (E.tells errors.old) (E.tells errors.new) }
{
    let Err(complaint) = check(given) else {
        return match push_all(rt, b"wfmc: the settings can be served\n", output) {
            Ok(()) => 0,
            Err(fault) => fail(rt, NAME, fault, errors),
        };
    };
    let Ok(line) = complaint_line(alloc, complaint) else {
        return fail(rt, NAME, Fault::Memory, errors);
    };
    let _ = push_all(rt, line.as_bytes(), errors);
    2
}
