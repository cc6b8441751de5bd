//! What every tenant's table does, whatever keeps its items.
ghost use Rattle.std.specs.Prelude.{◌≡◌, ◌-◌, ◌^◌, ◌<◌, true, List, IfOk, OnOk, OnErr, IsOk, IsOkUnless};
ghost use Rattle.mc_model.specs.declared.command.Command.{Command};
ghost use Rattle.mc_model.specs.declared.settings.Limits.{Limits};
ghost use Rattle.mc_model.specs.Effect.{is_refusal};
ghost use Rattle.mc_model.specs.History.{StandsFor, StandsForMore, answer};
ghost use Rattle.mc_model.specs.Kinds.{IsRetrieval, NeedsNoMemory};
ghost use Rattle.mc_model.specs.State.{TableState, limits_by, next_reply, next_state};
ghost use Rattle.mc_model.specs.Table.{count_of, use_of};

use crate::metered::Metered;
use crate::storage::StorageFor;
use mc_model::{Command, Fault, Limits, Reply};

/// A tenant's table that may borrow from commands which live for `'a`.
pub trait Table<'a>: Drop {
    ghost state: { Self → TableState };

    /// Carries out a command on the table and returns the reply. Returns `Memory` if an allocation
    /// fails; the table is unchanged then. A command that is refused never fails so, nor does a
    /// delete, a flush or one that sets quotas.
    fn apply(&mut self, command: &'a Command) -> Result<Reply<'a>, Fault>
        requires { (state self.old).last_unique < 2 ^ 64 - 1 }

        // What the definitions say of this command on this table.
        ensures reply { IfOk result (λ reply. reply ≡ next_reply (state self.old) command.now) }
        ensures state { OnOk result (state self.new ≡ next_state (state self.old) command.now) }

        ensures limits { OnOk result
            ((state self.new).limits ≡ limits_by (state self.old).limits command.now) }

        // The same for every list of commands that may have led to this table, and for the quotas
        // that it was opened with.
        ensures stands { OnOk result (StandsForMore (state self.old) command.now (state self.new)) }
        ensures answer { IfOk result (λ reply.
            (opening : Limits) (list : List Command) → StandsFor opening list (state self.old) →
            reply ≡ answer opening list command.now) }

        ensures no_memory { NeedsNoMemory command.now → IsOk result }
        ensures refused { is_refusal (next_reply (state self.old) command.now) ≡ true → IsOk result }
        ensures memory { IsOkUnless result Fault.Memory }
        ensures unchanged { OnErr result (state self.new ≡ state self.old) };

    /// Changes the table as `apply` does, without a reply. Returns `Memory` if an allocation fails;
    /// the table is unchanged then. A command that is refused never fails so, nor does a get, a
    /// delete, a flush or one that sets quotas.
    fn advance(&mut self, command: &'a Command) -> Result<(), Fault>
        requires { (state self.old).last_unique < 2 ^ 64 - 1 }

        // What the definitions say of this command on this table.
        ensures state { OnOk result (state self.new ≡ next_state (state self.old) command.now) }

        ensures limits { OnOk result
            ((state self.new).limits ≡ limits_by (state self.old).limits command.now) }

        // The same for every list of commands that may have led to this table, and for the quotas
        // that it was opened with.
        ensures stands { OnOk result (StandsForMore (state self.old) command.now (state self.new)) }

        ensures reads { IsRetrieval command.now → IsOk result }
        ensures no_memory { NeedsNoMemory command.now → IsOk result }
        ensures refused { is_refusal (next_reply (state self.old) command.now) ≡ true → IsOk result }
        ensures memory { IsOkUnless result Fault.Memory }
        ensures unchanged { OnErr result (state self.new ≡ state self.old) };

    /// Returns the unique of the latest change, or 0 before the first.
    fn last_unique(&self) -> u64
        ensures { result ≡ (state self.now).last_unique };

    /// Returns the tenant's quotas.
    fn limits(&self) -> Limits
        ensures { result ≡ (state self.now).limits };

    /// Returns the bytes of all keys and data in total.
    fn used(&self) -> u64
        ensures { result ≡ use_of (state self.now).table };

    /// Returns the number of items.
    fn count(&self) -> u64
        ensures { result ≡ count_of (state self.now).table };
}

impl<'a, S: StorageFor<'a>> Table<'a> for Metered<S> {
    ghost state = { λ table. table };

    fn apply(&mut self, command: &'a Command) -> Result<Reply<'a>, Fault> {
        match command {
            Command::Store {
                verb,
                key,
                flags,
                block,
            } => self.store(*verb, key, *flags, block),
            Command::Cas {
                key,
                flags,
                block,
                unique,
            } => self.check_and_set(key, *flags, block, *unique),
            Command::Get { keys, uniques } => self.retrieve(keys, *uniques),
            Command::Delete { key } => Ok(self.delete(key)),
            Command::Incr { key, by } => self.incr(key, *by),
            Command::Decr { key, by } => self.decr(key, *by),
            Command::Flush => Ok(self.flush()),
            Command::Limit { limits } => Ok(self.set_limits(*limits)),
        }
    }

    fn advance(&mut self, command: &'a Command) -> Result<(), Fault> {
        if let Command::Get { .. } = command {
            return Ok(());
        }
        self.apply(command)?;
        Ok(())
    }

    fn last_unique(&self) -> u64 {
        self.last_unique()
    }

    fn limits(&self) -> Limits {
        self.limits()
    }

    fn used(&self) -> u64 {
        self.used()
    }

    fn count(&self) -> u64 {
        self.count()
    }
}
