//! The listeners that wfmc is to bind, each with the role of those who connect there.
ghost use Rattle.std.specs.Prelude.{◌≡◌, ◌≤◌, All, IsTrue, MatchResult, length, map};
ghost use Rattle.mc_model.specs.Name.{is_lawful_name};
ghost use Rattle.mc_model.specs.declared.fault.Fault.TheVariants as faults;
ghost use Rattle.mc_model.specs.declared.id.TheConstants.{TENANTS};
ghost use Rattle.mc_server.specs.Listeners.{AreAsked, AreOfTenants};
ghost use Rattle.mc_server.specs.NetworkWords.{IsChecked, served_by};
ghost use Rattle.mc_server.specs.TenantWord.{asked_of};

use crate::network_texts::ADMIN;
use crate::network_words::Service;
use crate::tenant_word::Tenant;
use mc_conn::Role;
use mc_model::{Fault, Name, Names, TenantId};
use std::alloc::Global;
use std::net::SocketAddrV4;

/// A listener that is to be bound: the name that it goes by, its address, and the role of those who
/// connect there.
#[derive(Drop)]
pub(crate) struct Wanted<'a> {
    pub name: &'a str,
    pub address: SocketAddrV4,
    pub role: Role,
}

/// Returns the tenants' names, in the tenants' order.
///
/// Returns `Memory` if memory runs out.
pub(crate) fn names_of(alloc: Global, tenants: &[Tenant]) -> Result<Vec<Name>, Fault>
    requires { All (λ tenant. IsTrue (is_lawful_name tenant.name.now)) tenants.now }
    ensures { MatchResult result
        (λ names. names.items ≡ map (λ tenant. tenant.name.now) tenants.now)
        (λ fault. fault ≡ faults.Memory) }
{
    let mut names = Vec::new(alloc);
    for tenant in tenants {
        let Some(name) = Name::new(alloc, tenant.name.as_bytes())? else {
            unreachable!()
        };
        names.push(name)?;
    }
    Ok(names)
}

/// Returns the tenants' listeners, in the tenants' order.
///
/// Returns `Memory` if memory runs out.
fn of_tenants<'a>(alloc: Global, tenants: &[Tenant<'a>]) -> Result<Vec<Wanted<'a>>, Fault>
    requires { length tenants.now ≤ TENANTS }
    ensures { MatchResult result (λ wanted. AreOfTenants (map asked_of tenants.now) wanted.items)
        (λ fault. fault ≡ faults.Memory) }
{
    let mut wanted = Vec::new(alloc);
    for (number, tenant) in tenants.iter().enumerate() {
        let Some(id) = TenantId::new(number as u8) else {
            unreachable!()
        };
        wanted.push(Wanted {
            name: tenant.name,
            address: tenant.address,
            role: Role::Tenant(id),
        })?;
    }
    Ok(wanted)
}

/// Returns the listeners of clients of what is to be served: the tenants', in their order, and then
/// the administrators', if there is to be one.
///
/// Returns `Memory` if memory runs out.
pub(crate) fn wanted_by<'a>(alloc: Global, service: &Service<'a>) -> Result<Vec<Wanted<'a>>, Fault>
    requires { IsChecked service.now }
    ensures { MatchResult result (λ wanted. AreAsked (served_by service.now) wanted.items)
        (λ fault. fault ≡ faults.Memory) }
{
    let mut wanted = of_tenants(alloc, &service.tenants)?;
    let Some(address) = service.admin else {
        return Ok(wanted);
    };
    let names = Names::new(names_of(alloc, &service.tenants)?)?;
    let role = Role::Admin(names);
    wanted.push(Wanted {
        name: ADMIN,
        address,
        role,
    })?;
    Ok(wanted)
}
