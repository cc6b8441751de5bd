//! Which word of wfmc's command line can't be served, and why.
ghost use Rattle.std.specs.List.{IsDistinct, list_any};
ghost use Rattle.std.specs.Option.{MatchOption, option_map};
ghost use Rattle.std.specs.Prelude.{◌≡◌, ◌↔◌, All, IsTrue, MatchResult, Option, false, length, map};
ghost use Rattle.std.specs.Str.{bytes_eq};
ghost use Rattle.std.specs.declared.net.socket_addr.SocketAddrV4.{SocketAddrV4};
ghost use Rattle.mc_model.specs.Settings.{IsBetween};
ghost use Rattle.mc_model.specs.declared.fault.Fault.TheVariants.{BadSettings};
ghost use Rattle.mc_server.specs.Complaints.{CanBeServed, FitsAlone, IsWrong, IsWrongPart, SpellsQuota, StandsTwice, given_address, given_number, least, most, name_part, names_given};
ghost use Rattle.mc_server.specs.NetworkWords.{AreReservesWithin, NetworkGiven, SpellsAddress, given_in};

use crate::network_texts::{ADMIN, METRICS};
use crate::network_words::{MAX_LOG_BYTES, NetworkWords, are_reserves_within};
use crate::tenant_word::{cut, read_number};
use mc_model::id::{TENANTS, WORKERS};
use mc_model::settings::{MAX_BYTES, MAX_ITEMS, MAX_PLACES};
use mc_model::{Fault, Name};
use mc_programs::MAX_GENERATIONS;
use std::net::SocketAddrV4;

/// What a number of the command line counts.
#[derive(Clone, Copy, Debug)]
pub(crate) enum Counted {
    Workers,
    Places,
    Generations,
    LogBytes,
    Tenants,
}

/// An option of the command line that takes an address.
#[derive(Clone, Copy, Debug)]
pub(crate) enum AddressOption {
    Admin,
    Metrics,
}

/// A part of a tenant's word, or its form as a whole.
#[derive(Clone, Copy, Debug)]
pub(crate) enum Part {
    /// There is no `=`, or fewer than two commas stand after it.
    Form,
    Name,
    Address,
    Items,
    Bytes,
}

/// A word of the command line, or the number of tenants, that can't be served, and why.
#[derive(Clone, Copy, Debug)]
pub(crate) enum Complaint<'a> {
    /// There may not be this many.
    OutOfBounds(Counted, u64),
    /// This many places for each of this many tenants are more than a worker has.
    LargeReserve(u64, u64),
    /// This is written for an address, and isn't an IPv4 address with a port.
    NoAddress(AddressOption, &'a str),
    /// This part of a tenant's word is of another form, or a number out of its bounds.
    WrongPart(&'a str, Part),
    /// Two tenants have this name, or a tenant and the listener of administrators or of metrics.
    NameTaken(&'a str),
}

impl From<Complaint<'_>> for Fault {
    ghost from_gives = { λ _ fault. fault ≡ BadSettings };

    fn from(_complaint: Complaint<'_>) -> Fault {
        Fault::BadSettings
    }
}

impl Counted {
    /// Returns the least number that there may be.
    pub fn least(self) -> u64
        ensures { result ≡ least self }
    {
        match self {
            Counted::Generations => 0,
            Counted::Workers | Counted::Places | Counted::LogBytes | Counted::Tenants => 1,
        }
    }

    /// Returns the greatest number that there may be.
    pub fn most(self) -> u64
        ensures { result ≡ most self }
    {
        match self {
            Counted::Workers => u64::from(WORKERS),
            Counted::Places => MAX_PLACES,
            Counted::Generations => MAX_GENERATIONS,
            Counted::LogBytes => MAX_LOG_BYTES,
            Counted::Tenants => u64::from(TENANTS),
        }
    }

    /// Returns the complaint that there may not be this many, if so.
    fn check(self, number: u64) -> Result<(), Complaint<'static>>
        ensures { let within = IsBetween (least self) (most self) number in
            MatchResult result (λ _. within) (λ complaint. (given : NetworkGiven) →
            given_number given self ≡ number → IsWrong given complaint) }
    {
        if (self.least()..=self.most()).contains(&number) {
            Ok(())
        } else {
            Err(Complaint::OutOfBounds(self, number))
        }
    }
}

/// Returns whether a text spells a number from 1 to a limit.
fn is_quota(text: &str, limit: u64) -> bool
    ensures { IsTrue result ↔ SpellsQuota limit text.now }
{
    read_number(text).is_some_and(|quota| (1..=limit).contains(&quota))
}

/// Returns the first part of a tenant's word that is wrong, if one is.
fn wrong_part(word: &str) -> Option<Part>
    ensures { MatchOption result (FitsAlone word.now) (IsWrongPart word.now) }
{
    let Some(parts) = cut(word) else {
        return Some(Part::Form);
    };
    if !Name::is_lawful(parts.name.as_bytes()) {
        return Some(Part::Name);
    }
    if parts.address.parse::<SocketAddrV4>().is_err() {
        return Some(Part::Address);
    }
    if !is_quota(parts.items, MAX_ITEMS) {
        return Some(Part::Items);
    }
    if !is_quota(parts.bytes, MAX_BYTES) {
        return Some(Part::Bytes);
    }
    None
}

/// Returns the complaint about the first tenant's word with a part that is wrong, if there is one.
fn check_alone<'a>(words: &[&'a str]) -> Result<(), Complaint<'a>>
    ensures { let texts = map (λ word. word.now) words.now in
        MatchResult result (λ _. All FitsAlone texts) (λ complaint. (given : NetworkGiven) →
        given.tenants ≡ texts → IsWrong given complaint) }
{
    for word in words {
        match wrong_part(word) {
            Some(part) => return Err(Complaint::WrongPart(word, part)),
            None => {}
        }
    }
    Ok(())
}

/// Returns the part of a tenant's word that is its name: what stands before the first `=`.
fn name_part(word: &str) -> &str
    ensures { result.now ≡ name_part word.now }
{
    word.split_once('=').map_or(word, |parts| parts.0)
}

/// Returns whether one of the tenants' words has this name.
fn is_taken(words: &[&str], name: &str) -> bool
    ensures { result ≡ list_any (λ word. bytes_eq name.now (name_part word.now)) words.now }
{
    words.iter().any(|word| name == name_part(word))
}

/// Returns a name that two of the tenants' words have, if there is one.
fn check_names<'a>(words: &[&'a str]) -> Result<(), &'a str>
    ensures { let names = map (λ word. name_part word.now) words.now in
        MatchResult result (λ _. IsDistinct bytes_eq names) (λ name. StandsTwice names name.now) }
{
    match words {
        [] => Ok(()),
        [first, rest @ ..] => {
            let name = name_part(first);
            if is_taken(rest, name) {
                return Err(name);
            }
            check_names(rest)
        }
    }
}

/// Returns whether a listener is asked for whose name one of the tenants' words has.
fn is_name_taken(address: Option<&str>, words: &[&str], name: &str) -> bool
    ensures { MatchOption address.entry (result ≡ false) (λ _.
        result ≡ list_any (λ word. bytes_eq name.now (name_part word.now)) words.now) }
{
    match address {
        Some(_) => is_taken(words, name),
        None => false,
    }
}

/// Returns the complaint about a name that is used twice, if one is: with administrators none of
/// the tenants is `admin`, and with metrics none is `metrics`.
fn check_all_names<'a>(words: &NetworkWords<'a>) -> Result<(), Complaint<'a>>
    ensures { MatchResult result
        (λ _. IsDistinct bytes_eq (names_given (given_in words.now)))
        (IsWrong (given_in words.now)) }
{
    if is_name_taken(words.admin, &words.tenants, ADMIN) {
        return Err(Complaint::NameTaken(ADMIN));
    }
    if is_name_taken(words.metrics, &words.tenants, METRICS) {
        return Err(Complaint::NameTaken(METRICS));
    }
    match check_names(&words.tenants) {
        Ok(()) => Ok(()),
        Err(name) => Err(Complaint::NameTaken(name)),
    }
}

/// Returns the complaint about the reserve, if a worker hasn't that many places for each tenant.
fn check_reserve(reserve: u64, tenants: usize) -> Result<(), Complaint<'static>>
    ensures { MatchResult result (λ _. AreReservesWithin reserve tenants)
        (λ complaint. (given : NetworkGiven) → given.reserve ≡ reserve →
        length given.tenants ≡ tenants → IsWrong given complaint) }
{
    if are_reserves_within(reserve, tenants) {
        Ok(())
    } else {
        Err(Complaint::LargeReserve(reserve, tenants as u64))
    }
}

/// Returns the complaint about the address of an option, if what is written for it isn't one.
fn check_address<'a>(option: AddressOption, text: Option<&'a str>) -> Result<(), Complaint<'a>>
    ensures { let written = option_map (λ word. word.now) text.entry in
        MatchResult result (λ _. (address : Option SocketAddrV4) × SpellsAddress written address)
        (λ complaint. (given : NetworkGiven) → given_address given option ≡ written →
        IsWrong given complaint) }
{
    let Some(word) = text else {
        return Ok(());
    };
    match word.parse::<SocketAddrV4>() {
        Ok(_) => Ok(()),
        Err(_) => Err(Complaint::NoAddress(option, word)),
    }
}

/// Returns the first complaint about what the words give, if they ask for nothing that can be
/// served.
pub(crate) fn check<'a>(words: &NetworkWords<'a>) -> Result<(), Complaint<'a>>
    ensures { MatchResult result (λ _. CanBeServed (given_in words.now))
        (IsWrong (given_in words.now)) }
{
    Counted::Workers.check(words.workers)?;
    Counted::Places.check(words.places)?;
    Counted::Generations.check(words.generations)?;
    Counted::LogBytes.check(words.log_bytes)?;
    check_address(AddressOption::Admin, words.admin)?;
    check_address(AddressOption::Metrics, words.metrics)?;
    Counted::Tenants.check(words.tenants.len() as u64)?;
    check_reserve(words.reserve, words.tenants.len())?;
    check_alone(&words.tenants)?;
    check_all_names(words)
}
