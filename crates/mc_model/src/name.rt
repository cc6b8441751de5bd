//! Tenants' names, and all names of a server in the order of their tenants.
ghost use Rattle.std.specs.Cmp.{partial_equiv_from_equiv};
ghost use Rattle.std.specs.Cmp.Lexicographic.{lists_equiv, nat_list_eq_equiv, pointwise};
ghost use Rattle.std.specs.List.{list_all};
ghost use Rattle.std.specs.Prelude.{◌≡◌, ℕ, ◌<◌, ◌≤◌, List, length, nat_eq, All, IsTrue, IfOk, IfSome, OnErr, IsOkUnless, position, take};
ghost use Rattle.mc_model.specs.declared.id.TheConstants.{TENANTS};
ghost use Rattle.mc_model.specs.Name.{is_lawful_name, is_name_byte, name_of, tenant_named};

use crate::id::TENANTS;
use crate::{Fault, TenantId};
use std::alloc::Global;
use std::marker::Model;
use std::sync::ArcSlice;

/// The largest number of bytes in a name.
pub const NAME_BYTES: usize = 32;

/// A valid name: 1 to `NAME_BYTES` bytes, each of `a` to `z`, `0` to `9`, `-` or `_`.
#[derive(Debug, Drop)]
pub struct Name {
    bytes: Vec<u8>,
}

impl Model for Name {
    ghost Value = { List ℕ };

    ghost view = { λ name. name.bytes.items };

    ghost invariant = { λ name. IsTrue (is_lawful_name name.bytes.items) };
}

impl Name {
    /// Returns whether the bytes are a valid name.
    pub fn is_lawful(bytes: &[u8]) -> bool
        ensures { result ≡ is_lawful_name bytes.now }
    {
        !bytes.is_empty() && bytes.len() <= NAME_BYTES && are_name_bytes(bytes)
    }

    /// Returns the name of these bytes, or `None` if they aren't a valid name. Returns `Memory` if
    /// the allocation fails; only a valid name is allocated.
    pub fn new(alloc: Global, bytes: &[u8]) -> Result<Option<Name>, Fault>
        ensures name { IfOk result (λ name. name ≡ name_of bytes.now) }
        ensures memory { IsOkUnless result Fault.Memory }
        ensures unlawful { OnErr result (IsTrue (is_lawful_name bytes.now)) }
    {
        if !Name::is_lawful(bytes) {
            return Ok(None);
        }
        Ok(Some(Name {
            bytes: Vec::from_slice(alloc, bytes)?,
        }))
    }

    /// Returns the name's bytes.
    pub fn as_bytes(&self) -> &[u8]
        ensures value { result.now ≡ self.now }
        ensures lawful { IsTrue (is_lawful_name self.now) }
    {
        self.bytes.as_slice()
    }
}

/// Returns whether each byte may be in a name.
fn are_name_bytes(bytes: &[u8]) -> bool
    ensures { result ≡ list_all is_name_byte bytes.now }
{
    bytes.iter().all(|byte| matches!(*byte, b'a'..=b'z' | b'0'..=b'9' | b'-' | b'_'))
}

impl PartialEq for Name {
    ghost eq = { pointwise nat_eq };

    ghost laws = { partial_equiv_from_equiv nat_list_eq_equiv };

    fn eq(&self, other: &Name) -> bool {
        self.bytes == other.bytes
    }
}

impl Eq for Name {
    ghost laws = { nat_list_eq_equiv };
}

/// Returns the names that are tenants', which are the first `TENANTS`.
fn of_tenants(names: &[Name]) -> &[Name]
    ensures names { result.now ≡ take TENANTS names.now }
    ensures few { length result.now ≤ TENANTS }
{
    let most = usize::from(TENANTS);
    if names.len() <= most {
        names
    } else {
        &names[..most]
    }
}

/// Returns the first place of a name.
fn place_of(names: &[Name], name: &Name) -> Option<usize>
    ensures place { result ≡ position (λ other. pointwise nat_eq other name.now) names.now }
    ensures below { IfSome result (λ place. place < length names.now) }
{
    names.iter().position(|other| other == name)
}

/// The tenants' names, in the order of the tenants. They are kept once, and shared.
#[derive(Debug, Drop)]
pub struct Names {
    names: ArcSlice<Name>,
}

impl Model for Names {
    ghost use Rattle.std.specs.Arc.{arc_slice_items};
    ghost use Rattle.std.specs.Prelude.{List};
    ghost use Rattle.mc_model.specs.declared.name.Name.{Name};

    ghost Value = { List Name };

    ghost view = { λ names. arc_slice_items names.names };
}

impl Names {
    /// Returns these names, of which the first is tenant 0's. Returns `Memory` if the allocation
    /// fails.
    pub fn new(names: Vec<Name>) -> Result<Names, Fault>
        ensures names { IfOk result (λ result. result ≡ names.items) }
        ensures memory { IsOkUnless result Fault.Memory }
    {
        Ok(Names {
            names: ArcSlice::from_vec(names)?,
        })
    }

    /// Returns the same names once more. Takes no memory: `Memory` means only that they are shared
    /// too often to be counted.
    pub fn share(&self) -> Result<Names, Fault>
        ensures names { IfOk result (λ names. names ≡ self.now) }
        ensures memory { IsOkUnless result Fault.Memory }
    {
        Ok(Names {
            names: self.names.clone()?,
        })
    }

    /// Returns the number of names.
    pub fn len(&self) -> usize
        ensures { result ≡ length self.now }
    {
        self.names.len()
    }

    /// Returns the tenant with this name: the first of the first `TENANTS` names that is equal.
    pub fn tenant(&self, name: &Name) -> Option<TenantId>
        ensures { result ≡ tenant_named self.now name.now }
    {
        let named = of_tenants(self.names.as_slice());
        match place_of(named, name) {
            Some(place) => TenantId::new(place as u8),
            None => None,
        }
    }
}

impl PartialEq for Names {
    ghost eq = { pointwise (pointwise nat_eq) };

    ghost laws = { partial_equiv_from_equiv (lists_equiv nat_list_eq_equiv) };

    fn eq(&self, other: &Names) -> bool {
        self.names == other.names
    }
}

impl Eq for Names {
    ghost laws = { lists_equiv nat_list_eq_equiv };
}
