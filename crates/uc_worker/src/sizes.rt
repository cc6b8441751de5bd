//! How many bytes the commands of a log keep. No promise rests on these counts.

use crate::worker::Worker;
use mc_model::{Command, Key};

/// How many bytes a key, or a block of keys, takes besides its own.
const BYTES_OF_A_KEY: u64 = 64;

/// Returns how many bytes a key takes.
fn bytes_of_key(key: &Key) -> u64 {
    (key.as_bytes().len() as u64).saturating_add(BYTES_OF_A_KEY)
}

/// Returns how many bytes the keys and the data of a command take.
fn bytes_of(command: &Command) -> u64 {
    match command {
        Command::Store { key, block, .. } | Command::Cas { key, block, .. } => {
            bytes_of_key(key).saturating_add(block.as_bytes().len() as u64)
        }
        Command::Get { keys, .. } => (keys.size() as u64).saturating_add(BYTES_OF_A_KEY),
        Command::Delete { key } | Command::Incr { key, .. } | Command::Decr { key, .. } => {
            bytes_of_key(key)
        }
        Command::Flush | Command::Limit { .. } => 0,
    }
}

impl<'a> Worker<'a> {
    /// Returns how many bytes the keys and the data of the commands take that the worker has
    /// replayed from this place on. They stay in memory as long as the log does.
    pub fn bytes_from(&self, place: usize) -> u64 {
        let mut bytes = 0u64;
        for number in place..self.replica.len() {
            let Some(seen) = self.replica.history().get(number) else {
                break;
            };
            if let Some(entry) = seen.entry() {
                bytes = bytes.saturating_add(bytes_of(&entry.command));
            }
        }
        bytes
    }
}
