//! Threads' clients once they have ended, and how they all meet.
ghost use Rattle.std.specs.Prelude.{◌≡◌, All, IfOk};

use crate::asking::Asked;
use crate::clients::{Client, are_equal};
use mc_model::Fault;
use std::alloc::Global;
use uc_log::Log;

/// A client whose thread has ended, and what it asked for.
#[derive(Drop)]
pub(crate) struct Ended<'a> {
    pub(crate) client: Client<'a>,
    pub(crate) asked: Result<Vec<Asked<'a>>, Fault>,
}

/// Has the one meet the other.
fn meet<'a>(log: &Log, one: &mut Ended<'a>, other: &mut Ended<'a>) -> Result<(), Fault>
    requires one { one.old.client.log.now ≡ log.now }
    requires other { other.old.client.log.now ≡ log.now }
    ensures one { one.new.client.log.now ≡ log.now }
    ensures other { other.new.client.log.now ≡ log.now }
{
    one.client.meet(&mut other.client)
}

/// Has one meet each of the others.
fn meet_each<'a>(
    alloc: Global,
    log: &Log,
    one: &mut Ended<'a>,
    others: Vec<Ended<'a>>,
) -> Result<Vec<Ended<'a>>, Fault>
    requires one { one.old.client.log.now ≡ log.now }
    requires others { All (λ other. other.client.log.now ≡ log.now) others.items }
    ensures one { one.new.client.log.now ≡ log.now }
    ensures others { IfOk result (λ met. All (λ other. other.client.log.now ≡ log.now) met.items) }
{
    let mut all = Vec::new(alloc);
    for mut other in others {
        meet(log, one, &mut other)?;
        all.push(other)?;
    }
    Ok(all)
}

/// Has the last one meet each of the others twice: first it learns all that they have, and then
/// they do.
pub(crate) fn all_meet<'a>(
    alloc: Global,
    log: &Log,
    ended: Vec<Ended<'a>>,
) -> Result<Vec<Ended<'a>>, Fault>
    requires { All (λ one. one.client.log.now ≡ log.now) ended.items }
{
    let mut others = ended;
    let Some(mut last) = others.pop() else {
        return Ok(others);
    };
    let others = meet_each(alloc, log, &mut last, others)?;
    let mut all = meet_each(alloc, log, &mut last, others)?;
    all.push(last)?;
    Ok(all)
}

/// Returns whether all have the same history, of this many places.
pub(crate) fn are_all_equal(ended: &[Ended<'_>], places: usize) -> bool {
    let Some(first) = ended.first() else {
        return false;
    };
    let history = first.client.history();
    history.len() == places
        && ended
            .iter()
            .all(|other| are_equal(other.client.history(), history))
}
