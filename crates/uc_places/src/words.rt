//! The word that encodes a ticket.
ghost use Rattle.std.specs.Prelude.{◌≡◌, ◌≢◌, ◌<◌};
ghost use Rattle.mc_model.specs.declared.settings.TheConstants.{MAX_PLACES};
ghost use Rattle.mc_model.specs.declared.id.TheConstants.{WORKERS};
ghost use Rattle.uc_places.specs.Words.{said_ticket, said_word};

use mc_model::{Ticket, WorkerId};

/// Returns the word of a place where this ticket stands.
pub fn word_of(ticket: &Ticket) -> u64
    requires { ticket.now.number < MAX_PLACES }
    ensures { result ≡ said_word ticket.now }
{
    ticket.number * 256 + u64::from(ticket.worker.number()) + 1
}

/// Returns the ticket that a place's word encodes.
pub fn ticket_in(word: u64) -> Ticket
    requires some { word ≢ 0 }
    requires worker { (said_ticket word).worker < WORKERS }
    ensures { result ≡ said_ticket word }
{
    let worker = ((word - 1) % 256) as u8;
    Ticket {
        worker: WorkerId::new(worker).unwrap(),
        number: (word - 1) / 256,
    }
}
