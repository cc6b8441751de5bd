//! Golden event lists, and what each line means.
use crate::event_lists::{asks_for, assert_list};
use crate::events::AMPLE;
use mc_model::{Command, Fault, Limits};
use mc_schedules::Action;
use shared_tests::values::command_of;
use std::alloc::Global;
use std::process::Abort;
use uc_core::Event;

/// A list, how many workers and places it opens a core with, its tenants' quotas, and the lines at
/// which its items stand.
type List = (&'static str, (u64, u64), &'static [Limits], &'static [u64]);

const LISTS: [List; 8] = [
    // Tenants are apart.
    (
        "core 1 8\ntenant 4 100\ntenant 4 100\nsubmit 0 0 set a 0 x\nsubmit 0 0 set a 0 x\n\
        submit 0 0 set a 0 x\nsubmit 0 1 set a 0 q\nsubmit 0 1 gets a\n",
        (1, 8),
        &[AMPLE, AMPLE],
        &[4, 5, 6, 7, 8],
    ),
    // A worker is helped after it has stopped.
    (
        "core 2 8\ntenant 4 100\nannounce 0 0 set a 0 x\nstop 0\nsubmit 1 0 get a\n",
        (2, 8),
        &[AMPLE],
        &[3, 4, 5],
    ),
    // Helping changes the proposal.
    (
        "core 2 8\ntenant 4 100\nannounce 1 0 set a 0 x\nread 1\nlook 1\nannounce 0 0 set b 0 y\nread 0\npropose 1\n\
        submit 1 0 set a 0 z\nsubmit 1 0 get b\nlook 0\npropose 0\nlook 0\npropose 0\nlook 0\npropose 0\n\
        replay 0\nreplay 0\nreplay 0\n",
        (2, 8),
        &[AMPLE],
        &[3, 4, 5, 6, 7, 8, 9, 10, 11, 12, 13, 14, 15, 16, 17, 18, 19],
    ),
    // The log gets full.
    (
        "core 2 1\ntenant 4 100\nsubmit 0 0 set a 0 x\nsubmit 1 0 get a\n",
        (2, 1),
        &[AMPLE],
        &[3, 4],
    ),
    // Three workers serve two tenants.
    (
        "core 3 9\ntenant 2 50\ntenant 1 9\nsubmit 2 1 set a 0 q\nsubmit 1 0 set a 0 x\n\
        submit 0 1 set b 0 q\nsubmit 2 0 gets a\n",
        (3, 9),
        &[
            Limits {
                items: 2,
                bytes: 50,
            },
            Limits { items: 1, bytes: 9 },
        ],
        &[4, 5, 6, 7],
    ),
    // A replay that isn't enabled is read.
    ("core 1 4\ntenant 4 100\nreplay 0\n", (1, 4), &[AMPLE], &[3]),
    // Lines that are skipped are counted.
    (
        "# core\r\n\n  core  1 4 \n   \n#\ntenant 4 100\n\n#read 0\nread 0\n \nlook 0",
        (1, 4),
        &[AMPLE],
        &[9, 11],
    ),
    // The numbers that open a core may be out of range.
    (
        "core 0 18446744073709551615\ntenant 018446744073709551615 0",
        (0, 18_446_744_073_709_551_615),
        &[Limits {
            items: 18_446_744_073_709_551_615,
            bytes: 0,
        }],
        &[],
    ),
];

#[test]
fn lists_are_read(rt: HostRuntime) {
    for (text, size, tenants, lines) in LISTS {
        assert_list(&rt, rt.alloc(), text, size, tenants, lines);
    }
}

/// Returns whether the line asks for this.
fn is_asked(alloc: Global, line: &str, action: Action) -> Result<bool, Fault> {
    let asked = asks_for(alloc, line, &action);
    // A local enum that its block drops is proved variant by variant.
    drop(action);
    asked
}

/// Asserts that the line asks for this event.
fn assert_event(rt: &impl Abort, alloc: Global, line: &str, event: Event) {
    assert_eq!(rt;
        is_asked(alloc, line, Action::Event(event)),
        Ok(true),
        "{line}"
    );
}

#[test]
fn steps_are_events(rt: HostRuntime) {
    let alloc = rt.alloc();
    assert_event(&rt, alloc, "read 0", Event::Read(0));
    assert_event(&rt, alloc, "look 255", Event::Look(255));
    assert_event(&rt, alloc, "propose 00015", Event::Propose(15));
    assert_event(&rt, alloc, "  replay   7 ", Event::Replay(7));
    assert_event(&rt, alloc, "stop 16", Event::Stop(16));
}

/// Returns whether the words of a list submit this command.
fn is_submitted(alloc: Global, words: &str, command: Command) -> Result<bool, Fault> {
    let action = Action::Submit(3, 64, command);
    let line = format!(in alloc; "submit 3 64 {words}");
    let asked = match line {
        Ok(line) => asks_for(alloc, line.as_str(), &action),
        Err(_) => Err(Fault::Memory),
    };
    drop(action);
    asked
}

/// Returns whether the words of a list announce this command.
fn is_announced(alloc: Global, words: &str, command: Command) -> Result<bool, Fault> {
    let action = Action::Event(Event::Announce(3, 64, command));
    let line = format!(in alloc; "announce 3 64 {words}");
    let asked = match line {
        Ok(line) => asks_for(alloc, line.as_str(), &action),
        Err(_) => Err(Fault::Memory),
    };
    drop(action);
    asked
}

/// Returns whether the words of a list mean the command that a memcached client writes as `sent`.
fn is_command(alloc: Global, words: &str, sent: &str) -> Result<bool, Fault> {
    let submitted = is_submitted(alloc, words, command_of(alloc, sent.as_bytes())?)?;
    let announced = is_announced(alloc, words, command_of(alloc, sent.as_bytes())?)?;
    Ok(submitted && announced)
}

fn assert_command(rt: &impl Abort, alloc: Global, words: &str, sent: &str) {
    assert_eq!(rt; is_command(alloc, words, sent), Ok(true), "{words}");
}

#[test]
fn storage_commands_are_read(rt: HostRuntime) {
    let alloc = rt.alloc();
    let set = "set a 4294967295 0 1\r\nx\r\n";
    assert_command(&rt, alloc, "set a 4294967295 x", set);
    assert_command(&rt, alloc, "add a 0 .", "add a 0 0 0\r\n\r\n");
    assert_command(&rt, alloc, "replace a 007 ..", "replace a 7 0 2\r\n..\r\n");
    assert_command(&rt, alloc, "append # 0 #!~", "append # 0 0 3\r\n#!~\r\n");
    assert_command(&rt, alloc, "prepend ä 0 xyz", "prepend ä 0 0 3\r\nxyz\r\n");
    let cas = "cas a 5 0 1 18446744073709551615\r\nx\r\n";
    assert_command(&rt, alloc, "cas a 5 18446744073709551615 x", cas);
}

#[test]
fn other_commands_are_read(rt: HostRuntime) {
    let alloc = rt.alloc();
    assert_command(&rt, alloc, "get a", "get a\r\n");
    assert_command(&rt, alloc, "gets a  b a", "gets a b a\r\n");
    assert_command(&rt, alloc, "delete a", "delete a\r\n");
    let incr = "incr a 18446744073709551615\r\n";
    assert_command(&rt, alloc, "incr a 18446744073709551615", incr);
    assert_command(&rt, alloc, "decr a 0", "decr a 0\r\n");
    assert_command(&rt, alloc, "flush_all", "flush_all\r\n");
}

/// Asserts that `words` are a command that sets these quotas.
fn assert_limits(rt: &impl Abort, alloc: Global, words: &str, limits: Limits) {
    let command = Command::Limit { limits };
    assert_eq!(rt; is_submitted(alloc, words, command), Ok(true), "{words}");
}

#[test]
fn quotas_are_read(rt: HostRuntime) {
    let least = Limits { items: 1, bytes: 1 };
    let most = Limits {
        items: 1_048_576,
        bytes: 1_073_741_824,
    };
    assert_limits(&rt, rt.alloc(), "limit 1 1", least);
    assert_limits(&rt, rt.alloc(), "limit  01048576 1073741824", most);
}
