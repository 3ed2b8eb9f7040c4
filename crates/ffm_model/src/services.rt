//! The services of a system, in their order and by SID.
ghost use Rattle.std.specs.Prelude.{◌≡◌, ◌<◌, ◌==◌, ◌^◌, length, position, IfOk};
ghost use Rattle.ffm_model.specs.Ranges.{sids_of, starts_of, IsIndexOf};

use crate::list::List;
use crate::machine::Sid;
use crate::starts::{Start, last_up_to, sort};
use crate::system::Service;
use std::alloc::{AllocError, Global};
use std::marker::Model;

// The SID of each service, in the services' order.
fn sids_listed(alloc: Global, services: &[Service]) -> Result<Vec<Start>, AllocError>
    requires { length services.now < 2 ^ 31 }
    ensures { IfOk result (λ sids. sids.items ≡ starts_of (sids_of services.now)) }
{
    let mut sids = Vec::new(alloc);
    for (place, service) in services.iter().enumerate() {
        sids.push(Start {
            address: service.sid.0,
            place: place as u32,
        })?;
    }
    Ok(sids)
}

fn sids_in_order(alloc: Global, services: &[Service]) -> Result<Vec<Start>, AllocError>
    requires { length services.now < 2 ^ 31 }
    ensures { IfOk result (λ sids. IsIndexOf sids.items (sids_of services.now)) }
{
    let mut sids = sids_listed(alloc, services)?;
    sort(&mut sids);
    Ok(sids)
}

// The place of the first service with the SID.
fn first_with(services: &[Service], sid: Sid) -> Option<usize>
    ensures { result ≡ position (λ v. v.sid.0 == sid.0) services.now }
{
    services.iter().position(|v| v.sid.0 == sid.0)
}

/// The services of a system. They may be kept by SID too: then a look-up takes a number of steps that
/// grows with the logarithm of their number, and otherwise with their number. Contracts see the list.
#[derive(Drop)]
pub struct Services {
    list: List<Service>,
    sids: Option<Vec<Start>>,
}

impl Model for Services {
    ghost use Rattle.std.specs.Prelude.{List, IfSome};
    ghost use Rattle.ffm_model.specs.declared.system.Service.{Service};
    ghost use Rattle.ffm_model.specs.Ranges.{HaveIndexedSids};

    ghost Value = { List Service };

    ghost view = { λ m. m.list };

    ghost invariant = { λ m. IfSome m.sids (λ sids. HaveIndexedSids m.list sids.items) };
}

impl Services {
    ghost use Rattle.std.specs.Prelude.{◌≡◌, ◌<◌, ◌==◌, ◌^◌, true, length, position, IfOk};
    ghost use Rattle.ffm_model.specs.Ranges.{sids_of, share_no_byte};
    ghost use Rattle.ffm_model.specs.WellFormed.{each_pair};

    /// The services of a list, in its order alone. It takes no memory.
    pub fn of(list: List<Service>) -> Services
        ensures { result ≡ list }
    {
        Services { list, sids: None }
    }

    /// The same services, kept by SID too. No two have one SID, and they are fewer than 2^31. `AllocError` where
    /// memory is wanting; then the services are gone.
    pub fn by_sid(self, alloc: Global) -> Result<Services, AllocError>
        requires apart { each_pair share_no_byte (sids_of self) ≡ true }
        requires few { length self < 2 ^ 31 }
        ensures { IfOk result (λ services. services ≡ self) }
    {
        let sids = sids_in_order(alloc, self.list.as_slice())?;
        Ok(Services {
            list: self.list,
            sids: Some(sids),
        })
    }

    /// The services, lent.
    pub fn as_slice(&self) -> &[Service]
        ensures { result.now ≡ self.now }
    {
        self.list.as_slice()
    }

    /// How many services there are.
    pub fn len(&self) -> usize
        ensures { result ≡ length self.now }
    {
        self.list.len()
    }

    /// The place of the first service with a SID. None exactly where no service has it.
    pub fn place_of(&self, sid: Sid) -> Option<usize>
        ensures { result ≡ position (λ v. v.sid.0 == sid.0) self.now }
    {
        let services = self.list.as_slice();
        let Some(sids) = &self.sids else {
            return first_with(services, sid);
        };
        match last_up_to(sids.as_slice(), sid.0) {
            Some(place) => {
                if services[place].sid.0 == sid.0 {
                    Some(place)
                } else {
                    None
                }
            }
            None => None,
        }
    }
}
