//! The program that serves several tenants.
ghost use Rattle.std.specs.Prelude.{All, IfOk, MatchResult, length, map, string_bytes};
ghost use Rattle.mc_net.specs.Beginning.{HaltsServing};
ghost use Rattle.mc_net.specs.Running.{IsNewLoop};
ghost use Rattle.mc_server.specs.Listeners.{AreListenersOf, IsMadeFor};
ghost use Rattle.mc_server.specs.Logs.{IsFrontOf, WereServedAt};
ghost use Rattle.mc_server.specs.Network.{WfmcEnds, EndsServing, ServesTenants, StopsRun, StopsServing, stop_line};
ghost use Rattle.mc_server.specs.NetworkWords.{IsChecked, served_by, settings_asked};
ghost use Rattle.mc_stream.specs.Pushing.{PushesOrFails};

use crate::announcement::Announcement;
use crate::checking::check_words;
use crate::generations::serve_logs;
use crate::listeners::{Listeners, Stop, bind_all, bind_metrics};
use crate::network_texts::{NAME, ready_text, tell_cannot_listen, tell_done};
use crate::network_words::{Service, read_words, service_of};
use crate::opened::Opened;
use crate::scraping::{LogWatch, Scraping, Shows, new_shows};
use crate::wanted::wanted_by;
use mc_model::Fault;
use mc_net::{Begin, BoundListener, Front, FrontSettings};
use mc_programs::{answer_words, fail, tell_fault};
use mc_scraping::Stop as StopScraping;
use mc_stream::Output;
use std::alloc::{AllocError, Global};
use std::fs::Files;
use std::net::Net;
use std::random::RandomSource;
use std::sync::Wait;
use std::thread::{Threads, join_mut};
use std::time::Clock;
use uc_worker::Hashing;

/// Opens the first log, and serves that and those after it at the front, as `serve_logs` does.
///
/// Returns the errors of that, and `Memory` if memory runs out.
fn serve_all<R: Threads + Wait + Clock + Sync, B: Begin<S>, S>(
    rt: &R,
    alloc: Global,
    hashing: Hashing,
    service: &Service,
    watch: &mut LogWatch,
    front: &mut Front,
    begin: &B,
    state: &mut S,
) -> Result<u64, Fault>
    requires checked { IsChecked service.now }
    requires front { IsFrontOf service.now.settings front.old }
    requires made { IsMadeFor (served_by service.now) front.old }
    requires new { All (IsNewLoop (length service.now.settings.tenants))
        front.old.event_loops.items }
    ensures served { IfOk result (λ number.
        WereServedAt service.now.settings service.now.generations number front.new) }
    ensures outcome { MatchResult result (λ _. B.done begin.now state.old state.new)
        (HaltsServing (B.done begin.now) (B.stopped begin.now) state.old state.new) }
{
    let opened = Opened::first(alloc, &service.settings)?;
    let most = service.generations;
    serve_logs(rt, alloc, hashing, watch, front, opened, most, begin, state)
}

/// Does as `serve_all`, and then stops the loop of the listener for metrics.
fn serve_and_stop<R: Threads + Wait + Clock + Sync, B: Begin<S>, S>(
    rt: &R,
    alloc: Global,
    hashing: Hashing,
    service: &Service,
    watch: &mut LogWatch,
    front: &mut Front,
    begin: &B,
    state: &mut S,
    stop: &StopScraping,
) -> Result<u64, Fault>
    requires checked { IsChecked service.now }
    requires front { IsFrontOf service.now.settings front.old }
    requires made { IsMadeFor (served_by service.now) front.old }
    requires new { All (IsNewLoop (length service.now.settings.tenants))
        front.old.event_loops.items }
    ensures served { IfOk result (λ number.
        WereServedAt service.now.settings service.now.generations number front.new) }
    ensures outcome { MatchResult result (λ _. B.done begin.now state.old state.new)
        (HaltsServing (B.done begin.now) (B.stopped begin.now) state.old state.new) }
{
    let outcome = serve_all(rt, alloc, hashing, service, watch, front, begin, state);
    stop.stop();
    outcome
}

/// Does as `serve_all`, with the loop of the listener for metrics in a thread of its own, if there
/// is one and a thread can be made.
fn serve_scraped<R, B: Begin<S>, S>(
    rt: &R,
    alloc: Global,
    hashing: Hashing,
    service: &Service,
    watch: &mut LogWatch,
    scraping: Option<Scraping>,
    front: &mut Front,
    begin: &B,
    state: &mut S,
) -> Result<u64, Fault>
where
    R: Threads + Wait + Clock + Files<File: Send, Dir: Send> + Sync,
    requires checked { IsChecked service.now }
    requires front { IsFrontOf service.now.settings front.old }
    requires made { IsMadeFor (served_by service.now) front.old }
    requires new { All (IsNewLoop (length service.now.settings.tenants))
        front.old.event_loops.items }
    ensures served { IfOk result (λ number.
        WereServedAt service.now.settings service.now.generations number front.new) }
    ensures outcome { MatchResult result (λ _. B.done begin.now state.old state.new)
        (HaltsServing (B.done begin.now) (B.stopped begin.now) state.old state.new) }
{
    let Some(Scraping { scraper, stop }) = scraping else {
        return serve_all(rt, alloc, hashing, service, watch, front, begin, state);
    };
    let mut scraper = scraper;
    let (_, outcome) = join_mut(
        rt,
        &mut || scraper.run(rt, &stop),
        &mut ||
            requires checked { IsChecked service.now }
            requires front { IsFrontOf service.now.settings front.now }
            requires made { IsMadeFor (served_by service.now) front.now }
            requires new { All (IsNewLoop (length service.now.settings.tenants))
                front.now.event_loops.items }
        {
            serve_and_stop(
                rt, alloc, hashing, service, watch, front, begin, state, &stop,
            )
        },
    );
    outcome
}

/// Serves the tenants and administrators at their listeners until all connections are served, and
/// meanwhile whoever scrapes the metrics, if there is a listener for them. Once every worker's loop
/// has begun it prints which listener is at which address, and at the end how many places of all
/// logs were used.
///
/// Returns `Memory` if memory runs out or a worker's loop doesn't begin, `Input` if a poll can't be
/// made or fails, a listener can't be registered or random numbers are refused, and `Output` if the
/// output fails.
fn serve_tenants<R, O: Output>(
    rt: &R,
    alloc: Global,
    hashing: Hashing,
    service: &Service,
    bound: Listeners,
    metrics: Option<BoundListener>,
    output: &mut O,
) -> Result<(), Fault>
where
    R: Threads + Wait + Net + Clock + Files<File: Send, Dir: Send> + RandomSource + Sync,
    requires checked { IsChecked service.now }
    requires bound { AreListenersOf (served_by service.now) bound }
    ensures outcome { let settings = settings_asked (served_by service.now) in
        MatchResult result
        (λ _. EndsServing settings service.now.generations bound.entry.told.items
        (O.tells output.old) (O.tells output.new))
        (StopsServing settings service.now.generations bound.entry.told.items
        (O.tells output.old) (O.tells output.new)) }
{
    let Listeners { listeners, told } = bound;
    let Shows {
        publishers,
        mut watch,
        scraping,
    } = new_shows(rt, alloc, service, metrics)?;
    let settings = FrontSettings {
        workers: service.settings.workers() as usize,
        tenants: service.settings.tenants().len(),
        reserve: service.reserve,
        log_bytes: service.log_bytes,
        connections: service.connections,
    };
    let mut front = Front::new(rt, alloc, settings, listeners, publishers)?;
    let text = ready_text(alloc, &told)?;
    let announcement = Announcement { text };
    let number = serve_scraped(
        rt,
        alloc,
        hashing,
        service,
        &mut watch,
        scraping,
        &mut front,
        &announcement,
        output,
    )?;
    tell_done(rt, number, output)
}

/// Binds a listener for each tenant, and one for administrators and one for metrics if these are
/// asked for, and serves them all. Nothing is printed before all are bound.
///
/// Returns the errors of `wanted_by`, `bind_all`, `bind_metrics` and `serve_tenants`.
fn run_service<'a, R, O: Output>(
    rt: &R,
    alloc: Global,
    hashing: Hashing,
    service: &Service<'a>,
    output: &mut O,
) -> Result<(), Stop<'a>>
where
    R: Threads + Wait + Net + Clock + Files<File: Send, Dir: Send> + RandomSource + Sync,
    requires { IsChecked service.now }
    ensures outcome { MatchResult result
        (λ _. ServesTenants (served_by service.now) (O.tells output.old) (O.tells output.new))
        (StopsRun (served_by service.now) (O.tells output.old) (O.tells output.new)) }
{
    let wanted = wanted_by(alloc, service)?;
    let Listeners {
        listeners,
        mut told,
    } = bind_all(rt, alloc, &wanted)?;
    let metrics = bind_metrics(rt, service.metrics, &mut told)?;
    let bound = Listeners { listeners, told };
    Ok(serve_tenants(rt, alloc, hashing, service, bound, metrics, output)?)
}

/// Reports why a run stopped. A failure of `errors` is ignored.
fn tell_stop<R: Wait, E: Output>(rt: &R, stop: Stop, errors: &mut E)
    ensures { PushesOrFails (stop_line stop.entry) (E.tells errors.old) (E.tells errors.new) }
{
    match stop {
        Stop::CannotListen(name) => tell_cannot_listen(rt, name, errors),
        Stop::Failed(fault) => tell_fault(rt, NAME, fault, errors),
    }
}

/// Does what the words after the program's name ask for, and returns the program's exit status.
///
/// Serves the tenants that the words name, each at a listener of its own, and administrators at the
/// address of `--admin` and whoever scrapes metrics by HTTP at that of `--metrics`, if these are
/// given. Prints `listening NAME ADDR` for each tenant, in their order and with the port that its
/// listener has, then `listening admin ADDR` for administrators and `listening metrics ADDR` for
/// those who scrape metrics, and then `ready`, all of it once every worker's loop has begun. With
/// `--connections N` above 0 it ends once N connections of tenants were accepted and every
/// connection has ended: then the workers meet, `done L` is printed, where L is how many places of
/// all logs were used, and the status is 0. Otherwise it doesn't end. That it listens, when it
/// prints and when it ends are in no clause.
///
/// A tenant's word or an address of another form, a number out of its range, or a name that is used
/// twice, `admin` among them if there are administrators and `metrics` if metrics are scraped, is
/// reported on `errors` as `wfmc: bad settings`, with status 2, and an address that can't be
/// listened on as `wfmc: cannot listen NAME`, with status 1; nothing is printed then. If memory
/// runs out, a worker's loop doesn't begin within about ten seconds, waiting for connections fails,
/// random numbers for the listener for metrics are refused, or the output fails, that is reported
/// as `wfmc: TEXT`, with status 1.
///
/// With `--check` it serves nothing. It prints that the words can be served, with status 0, or
/// reports on `errors` one of them that can't and why, with status 2.
///
/// Help and the version go to the output, with status 0, and a mistake in the words to `errors`,
/// with status 2, as clap's text. A failure of `errors` is ignored.
pub fn run_wfmc<R, O: Output, E: Output>(
    rt: &R,
    alloc: Global,
    hashing: Hashing,
    words: Vec<String>,
    output: &mut O,
    errors: &mut E,
) -> u8
where
    R: Threads + Wait + Net + Clock + Files<File: Send, Dir: Send> + RandomSource + Sync,
    // How the run ends and what is printed, by what the words ask for.
    ensures { WfmcEnds (map string_bytes words.items) result
        (O.tells output.old) (O.tells output.new) (E.tells errors.old) (E.tells errors.new) }
{
    let given = match read_words(alloc, &words) {
        Ok(given) => given,
        Err(error) => return answer_words(rt, alloc, NAME, &error, output, errors),
    };
    if given.check {
        return check_words(rt, alloc, &given, output, errors);
    }
    let service = match service_of(alloc, &given) {
        Ok(service) => service,
        Err(Fault::BadSettings) => {
            tell_fault(rt, NAME, Fault::BadSettings, errors);
            return 2;
        }
        Err(fault) => return fail(rt, NAME, fault, errors),
    };
    match run_service(rt, alloc, hashing, &service, output) {
        Ok(()) => 0,
        Err(stop) => {
            tell_stop(rt, stop, errors);
            1
        }
    }
}
