//! What wfmc shows of itself, and the listener at which it is scraped.
ghost use Rattle.std.specs.Prelude.{IfErr};
ghost use Rattle.mc_net.specs.Halting.{IsNetworkFault};
ghost use Rattle.mc_server.specs.NetworkWords.{IsChecked};

use crate::network_words::Service;
use crate::wanted::names_of;
use mc_counters::{LogPublisher, Publisher, new_board, new_log_board};
use mc_model::Fault;
use mc_net::BoundListener;
use mc_scraping::{Boards, Scraper, Stop, new_scraper};
use std::alloc::Global;
use std::hash::RandomState;
use std::net::Net;
use std::random::RandomSource;
use std::time::{Clock, Instant};

/// The listener for metrics in its loop, and what stops that.
#[derive(Drop)]
pub(crate) struct Scraping {
    pub scraper: Scraper,
    pub stop: Stop,
}

/// What shows the numbers of the workers and of the logs, and what reads them if metrics are
/// scraped.
#[derive(Drop)]
pub(crate) struct Shows {
    /// One for each worker, or none.
    pub publishers: Vec<Publisher>,
    pub watch: LogWatch,
    pub scraping: Option<Scraping>,
}

/// Shows which log is served, and how long it takes until one follows another.
#[derive(Drop)]
pub(crate) struct LogWatch {
    publisher: LogPublisher,
    generation: u64,
    // When the log was closed, until the next one begins.
    closed_at: Option<Instant>,
}

impl LogWatch {
    /// Notes that a log is closed. Without a clock its turn over isn't counted.
    pub fn note_close<R: Clock>(&mut self, rt: &R) {
        self.closed_at = Instant::now(rt).ok();
    }

    /// Shows that the next log begins, or the first.
    pub fn note_begin<R: Clock>(&mut self, rt: &R) {
        self.generation = self.generation.saturating_add(1);
        self.publisher.show_generation(self.generation);
        let (Some(closed_at), Ok(now)) = (self.closed_at, Instant::now(rt)) else {
            return;
        };
        let micros = now.duration_since(closed_at).as_micros();
        self.publisher
            .count_turn_over(u64::try_from(micros).unwrap_or(u64::MAX));
        self.closed_at = None;
    }
}

/// Returns by what the server shows its numbers: with publishers for its workers and a scraper if
/// there is a listener for metrics.
///
/// Returns `Memory` if memory runs out, and `Input` if a poll can't be made, the listener can't be
/// registered or there are no random numbers.
pub(crate) fn new_shows<R: Net + RandomSource>(
    rt: &R,
    alloc: Global,
    service: &Service,
    listener: Option<BoundListener>,
) -> Result<Shows, Fault>
    requires { IsChecked service.now }
    ensures { IfErr result IsNetworkFault }
{
    let (publisher, board) = new_log_board(alloc)?;
    let mut publishers = Vec::new(alloc);
    let watch = LogWatch {
        publisher,
        generation: 0,
        closed_at: None,
    };
    let Some(listener) = listener else {
        return Ok(Shows {
            publishers,
            watch,
            scraping: None,
        });
    };
    let mut workers = Vec::new(alloc);
    for _ in 0..service.settings.workers() {
        let (publisher, worker) = new_board(alloc, service.tenants.len(), &board)?;
        publishers.push(publisher)?;
        workers.push(worker)?;
    }
    let Ok(keys) = RandomState::new(rt) else {
        return Err(Fault::Input);
    };
    let boards = Boards {
        names: names_of(alloc, &service.tenants)?,
        places: service.settings.places(),
        logs: board,
        workers,
    };
    let (scraper, stop) = new_scraper(rt, alloc, keys, listener.into_socket(), boards)?;
    Ok(Shows {
        publishers,
        watch,
        scraping: Some(Scraping { scraper, stop }),
    })
}
