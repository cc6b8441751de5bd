//! What stands in the log for a command that a worker was given.
ghost use Rattle.mc_conn.specs.Onward.{own_entry, own_sighting};
ghost use Rattle.mc_model.specs.Legal.{ticket_of};
ghost use Rattle.mc_model.specs.declared.command.Command.{Command};
ghost use Rattle.std.specs.Prelude.{◌≡◌, ℕ, Some};
ghost use Rattle.uc_worker.specs.Worker.{next_of, seat_of};
ghost use Rattle.uc_worker.specs.declared.worker.Worker.{Worker};

/// A worker announces a command as it was given, for the tenant for which it was given, whatever
/// the tenant's number, under the next ticket of its own. So is each command that a connection is
/// answered for, by its number.
pub fn commands_are_announced_as_they_were_given()
    ensures next { (worker : Worker) (tenant : ℕ) (command : Command) →
        (next_of worker tenant command).entry
        ≡ Some (record {
          ticket = ticket_of (seat_of worker).worker (seat_of worker).state.announced;
          tenant = tenant;
          command = command;
        }) }
    ensures own { (worker : Worker) (number tenant : ℕ) (command : Command) →
        own_entry worker number tenant command
        ≡ record {
          ticket = ticket_of (seat_of worker).worker number;
          tenant = tenant;
          command = command;
        } }
    ensures seen { (worker : Worker) (number tenant : ℕ) (command : Command) →
        (own_sighting worker number tenant command).entry
        ≡ Some (own_entry worker number tenant command) }
{}
