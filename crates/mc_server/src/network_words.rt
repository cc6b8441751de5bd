//! The options and tenants of wfmc's command line.
ghost use Rattle.std.specs.List.{AllZip};
ghost use Rattle.std.specs.Prelude.{◌≡◌, ◌↔◌, ◌⊎◌, List, IfOk, IsTrue, MatchResult, false, map, string_bytes};
ghost use Rattle.std.specs.Option.{option_map};
ghost use Rattle.clap.specs.Words.{HasKind, app_of, fault_of, rule_of};
ghost use Rattle.mc_model.specs.declared.fault.Fault.TheVariants as faults;
ghost use Rattle.mc_server.specs.NetworkWords.{AreReservesWithin, Asks, WordsGive, AsksInVain, IsChecked, IsNoAddress, IsOnlyAddress, admin_rule, given_in, logs_app, metrics_rule, network_app, numbers_app, options_app, served_by, tenants_rule, workers_for};
ghost use Rattle.mc_server.specs.TenantWord.{IsOnly, Says, TenantAsked, asked_of};

use crate::complaint::check;
use crate::tenant_word::{Tenant, read_tenant};
use clap::{Arg, Command, Error};
use mc_connections::MOST_CONNECTIONS;
use mc_model::{Fault, Limits, Settings};
use mc_programs::{DEFAULT_GENERATIONS, DEFAULT_PLACES, flag, flag_option, number, number_option};
use std::alloc::{AllocError, Global};
use std::net::SocketAddrV4;

/// How many workers there are by default.
const DEFAULT_WORKERS: u64 = 2;

/// How many bytes the commands of a log may keep by default: 1 GiB.
const DEFAULT_LOG_BYTES: u64 = 1_073_741_824;

/// How many bytes of a log's commands may be asked for: as many as the data of 1,048,576 commands
/// have at most, 1,048,576 bytes each. No log has more places, and no command has more data.
pub(crate) const MAX_LOG_BYTES: u64 = 1_099_511_627_776;

/// How many places for connections each worker keeps for each tenant by default.
const DEFAULT_RESERVE: u64 = 0;

/// After how many connections the server ends by default: never.
const DEFAULT_CONNECTIONS: u64 = 0;

/// The form of a tenant's word, as help shows it.
const FORM: &str = "\
Each TENANT is NAME=ADDR,ITEMS,BYTES:
  NAME   1 to 32 of a to z, 0 to 9, - and _; no name twice, with --admin none is admin, and
         with --metrics none is metrics
  ADDR   an IPv4 address and a port, as numbers, at which the tenant's clients connect;
         the port from 0 to 65535, where 0 takes a free one
  ITEMS  how many items the tenant may hold, from 1 to 1048576
  BYTES  how many bytes their keys and data may have, from 1 to 1073741824
Where a word is of another form, a number out of its range, or a name used twice: wfmc: bad settings.
With --check wfmc says which word that is, and serves nothing.

With --admin, whoever connects at ADDR may set a tenant's quotas: limit NAME ITEMS BYTES.
With --metrics, whoever connects at ADDR may read numbers of all tenants: GET /metrics, by HTTP.
Once the last log is full commands are refused until a restart; --generations 0 has no last one,
as long as there is memory.

Example, two tenants apart from each other on two ports:
  wfmc --generations 0 shop=127.0.0.1:11211,1000,1048576 blog=127.0.0.1:11212,1000,1048576";

/// What the words of wfmc give: numbers, or their defaults, what is written for the administrators'
/// address and for that of metrics, and the tenants' words in their order.
#[derive(Debug, Drop)]
pub(crate) struct NetworkWords<'a> {
    pub workers: u64,
    pub places: u64,
    pub generations: u64,
    pub log_bytes: u64,
    pub reserve: u64,
    pub connections: u64,
    pub admin: Option<&'a str>,
    pub metrics: Option<&'a str>,
    /// They are only to be checked.
    pub check: bool,
    pub tenants: Vec<&'a str>,
}

/// What wfmc is to serve: settings, how many logs there are, how many bytes a log keeps, how many
/// places each worker keeps for each tenant, after how many connections of tenants it ends (0:
/// never), at which address administrators connect and at which one metrics are scraped, if at any,
/// and the tenants by their numbers.
#[derive(Debug, Drop)]
pub(crate) struct Service<'a> {
    pub settings: Settings,
    /// At most this many logs, one after another; 0 for no end.
    pub generations: u64,
    /// A log is closed once its commands keep this many bytes, if another log may follow.
    pub log_bytes: u64,
    /// Each worker keeps this many of its places for each tenant.
    pub reserve: usize,
    pub connections: u64,
    pub admin: Option<SocketAddrV4>,
    pub metrics: Option<SocketAddrV4>,
    pub tenants: Vec<Tenant<'a>>,
}

/// Returns the argument for the tenants' words, of which there has to be at least one.
fn tenants_argument<'a>(alloc: Global) -> Arg<'a>
    ensures rule { rule_of result ≡ tenants_rule }
    ensures local { result.global ≡ false }
{
    Arg::new(alloc, "tenants")
        .value_name("TENANT")
        .num_args(1usize..)
        .required(true)
        .help("A tenant: NAME=ADDR,ITEMS,BYTES, as below; from 1 to 64 of them")
}

/// Returns the option for the administrators' address.
fn admin_option<'a>(alloc: Global) -> Arg<'a>
    ensures rule { rule_of result ≡ admin_rule }
    ensures local { result.global ≡ false }
{
    Arg::new(alloc, "admin")
        .long("admin")
        .value_name("ADDR")
        .help("At which IPv4 address and port administrators connect; without it there are none")
}

/// Returns the option for the address of metrics.
fn metrics_option<'a>(alloc: Global) -> Arg<'a>
    ensures rule { rule_of result ≡ metrics_rule }
    ensures local { result.global ≡ false }
{
    Arg::new(alloc, "metrics")
        .long("metrics")
        .value_name("ADDR")
        .help("At which IPv4 address and port metrics are scraped by HTTP; without it they aren't")
}

/// Returns wfmc's command line with the options only that say how many workers, places and logs
/// there are.
///
/// Returns an error if memory runs out.
fn logs_command<'a>(alloc: Global) -> Result<Command<'a>, AllocError>
    ensures { IfOk result (λ command. app_of command ≡ logs_app) }
{
    let workers = "How many threads serve, from 1 to 16 [default: 2]";
    let places = "How many commands of all tenants a log takes, from 1 to 1048576 [default: 65536]";
    let generations = "How many logs, one after another, up to 65536; 0 for no end [default: 1]";
    Command::new(alloc, "wfmc")
        .no_binary_name(true)
        .version("1.0.0")
        .about("A memcached server for several tenants")
        .after_help(FORM)
        .arg(number_option(alloc, "workers", workers))?
        .arg(number_option(alloc, "places", places))?
        .arg(number_option(alloc, "generations", generations))
}

/// Returns wfmc's command line with the options only that are numbers.
///
/// Returns an error if memory runs out.
fn numbers_command<'a>(alloc: Global) -> Result<Command<'a>, AllocError>
    ensures { IfOk result (λ command. app_of command ≡ numbers_app) }
{
    let log_bytes = "\
        After how many bytes of commands the next log follows, up to 1099511627776 \
        [default: 1073741824]";
    let reserve = "\
        How many of its 1024 connections each thread keeps for each tenant [default: 0]";
    let connections = "After how many connections of tenants it ends; 0 for never [default: 0]";
    logs_command(alloc)?
        .arg(number_option(alloc, "log-bytes", log_bytes))?
        .arg(number_option(alloc, "reserve", reserve))?
        .arg(number_option(alloc, "connections", connections))
}

/// Returns wfmc's command line with its options only.
///
/// Returns an error if memory runs out.
fn options_command<'a>(alloc: Global) -> Result<Command<'a>, AllocError>
    ensures { IfOk result (λ command. app_of command ≡ options_app) }
{
    let check =
        "Checks whether the words can be served, reports one that can't, and serves nothing";
    numbers_command(alloc)?
        .arg(flag_option(alloc, "check", check))?
        .arg(admin_option(alloc))?
        .arg(metrics_option(alloc))
}

/// Returns the command line that wfmc takes.
///
/// Returns an error if memory runs out.
fn network_command<'a>(alloc: Global) -> Result<Command<'a>, AllocError>
    ensures { IfOk result (λ command. app_of command ≡ network_app) }
{
    options_command(alloc)?.arg(tenants_argument(alloc))
}

/// Returns what the words after the program's name give.
///
/// Returns clap's error if they ask for help or the version, are a mistake, or memory runs out.
pub(crate) fn read_words(alloc: Global, words: &[String]) -> Result<NetworkWords<'_>, Error>
    ensures outcome { MatchResult result (WordsGive (map string_bytes words.now))
        (HasKind (fault_of network_app (map string_bytes words.now))) }
{
    let matches = network_command(alloc)?.try_get_matches_from(words)?;
    let tenants = matches.get_raw("tenants").unwrap_or(&[]);
    let tenants = Vec::from_slice(alloc, tenants)?;
    Ok(NetworkWords {
        workers: number(&matches, "workers").unwrap_or(DEFAULT_WORKERS),
        places: number(&matches, "places").unwrap_or(DEFAULT_PLACES),
        generations: number(&matches, "generations").unwrap_or(DEFAULT_GENERATIONS),
        log_bytes: number(&matches, "log-bytes").unwrap_or(DEFAULT_LOG_BYTES),
        reserve: number(&matches, "reserve").unwrap_or(DEFAULT_RESERVE),
        connections: number(&matches, "connections").unwrap_or(DEFAULT_CONNECTIONS),
        admin: matches.get_str("admin"),
        metrics: matches.get_str("metrics"),
        check: flag(&matches, "check"),
        tenants,
    })
}

/// Returns the tenants that words describe, in their order.
///
/// Returns `BadSettings` if one isn't of a tenant's form, and `Memory` if memory runs out.
fn read_tenants<'a>(alloc: Global, words: &[&'a str]) -> Result<Vec<Tenant<'a>>, Fault>
    ensures outcome { let texts = map (λ word. word.now) words.now in
        MatchResult result (λ tenants. AllZip IsOnly texts (map asked_of tenants.items))
        (λ fault. (fault ≡ faults.Memory)
        ⊎ (fault ≡ faults.BadSettings)
        × ((others : List TenantAsked) → ¬ (AllZip Says texts others))) }
{
    let mut tenants = Vec::new(alloc);
    for word in words {
        match read_tenant(word) {
            Some(tenant) => tenants.push(tenant)?,
            None => return Err(Fault::BadSettings),
        }
    }
    Ok(tenants)
}

/// Returns the address that is written for a listener, or `None` if nothing is.
///
/// Returns `BadSettings` if it isn't an IPv4 address with a port.
fn read_address(word: Option<&str>) -> Result<Option<SocketAddrV4>, Fault>
    ensures { let text = option_map (λ word. word.now) word.entry in
        MatchResult result (IsOnlyAddress text)
        (λ fault. (fault ≡ faults.BadSettings) × IsNoAddress text) }
{
    let Some(word) = word else {
        return Ok(None);
    };
    match word.parse::<SocketAddrV4>() {
        Ok(address) => Ok(Some(address)),
        Err(_) => Err(Fault::BadSettings),
    }
}

/// Returns the tenants' quotas, in the tenants' order.
///
/// Returns an error if memory runs out.
fn quotas_of(alloc: Global, tenants: &[Tenant]) -> Result<Vec<Limits>, AllocError>
    ensures { IfOk result (λ quotas. quotas.items ≡ map (λ tenant. tenant.limits) tenants.now) }
{
    tenants.iter().map(|tenant| tenant.limits).collect(alloc)
}

/// Returns whether a worker has places enough to keep this many for each of this many tenants.
pub(crate) fn are_reserves_within(reserve: u64, tenants: usize) -> bool
    ensures { IsTrue result ↔ AreReservesWithin reserve tenants }
{
    reserve.saturating_mul(tenants as u64) <= MOST_CONNECTIONS as u64
}

/// Returns how many workers serve: as many as are given, but where a log may follow another no more
/// than a log has places, so that each of them can take a command of each log.
fn workers_for(words: &NetworkWords) -> u64
    ensures { result ≡ workers_for (given_in words.now) }
{
    if words.generations == 1 {
        words.workers
    } else {
        words.workers.min(words.places)
    }
}

/// Returns what the words ask to be served.
///
/// Returns `BadSettings` if that can't be served: a tenant's word or an address is of another form,
/// a number is out of its bounds, or a name is used twice. Returns `Memory` if memory runs out.
pub(crate) fn service_of<'a>(alloc: Global, words: &NetworkWords<'a>) -> Result<Service<'a>, Fault>
    ensures outcome { MatchResult result
        (λ service. Asks (given_in words.now) (served_by service) × IsChecked service)
        (λ fault. (fault ≡ faults.Memory)
        ⊎ (fault ≡ faults.BadSettings) × AsksInVain (given_in words.now)) }
{
    check(words)?;
    let tenants = read_tenants(alloc, &words.tenants)?;
    let admin = read_address(words.admin)?;
    let metrics = read_address(words.metrics)?;
    let quotas = quotas_of(alloc, &tenants)?;
    let settings = Settings::check(workers_for(words), words.places, quotas)?;
    Ok(Service {
        settings,
        generations: words.generations,
        log_bytes: words.log_bytes,
        reserve: words.reserve as usize,
        connections: words.connections,
        admin,
        metrics,
        tenants,
    })
}
