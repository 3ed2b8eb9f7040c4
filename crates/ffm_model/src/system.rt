//! A system.
ghost use Rattle.std.specs.Prelude.{IsTrue, length, nat_lt, ◌^◌, ◌≡◌, ◌==◌, ◌&&◌, true, position, find};
ghost use Rattle.std.specs.Option.{option_map};
ghost use Rattle.std.specs.Ordering.{nat_cmp, ordering_then};
ghost use Rattle.ffm_model.specs.WellFormed.{is_well_formed, each_pair, budget_before};

use crate::list::List;
use crate::machine::{ActorId, Sid};
use crate::name::Name;
use crate::regions::Regions;
use crate::services::Services;
use crate::trace::Counts;
use crate::well_formed::do_parts_fit;
use std::alloc::{AllocError, Global};
use std::cmp::Ordering;

/// What an actor is.
#[derive(Clone, Copy, Debug, PartialEq, Eq)]
pub enum ActorKind {
    Partition,
    Client,
    Device,
}

/// The manifest's `type`: part of the PSA Root of Trust, or an application's Root of Trust.
#[derive(Clone, Copy, Debug, PartialEq, Eq)]
pub enum RotType {
    PsaRot,
    ApplicationRot,
}

/// The manifest's `priority`, which has no effect here.
#[derive(Clone, Copy, Debug, PartialEq, Eq)]
pub enum Priority {
    Low,
    Normal,
    High,
}

/// A service's `version_policy`.
#[derive(Clone, Copy, Debug, PartialEq, Eq)]
pub enum Policy {
    Strict,
    Relaxed,
}

/// What a region of memory is: RAM of a domain's partitions, the RAM of all non-secure clients, or
/// the registers of a device, which belong to one partition.
#[derive(Clone, Copy, Debug, PartialEq, Eq)]
pub enum Class {
    Ram { domain: u32 },
    NonSecure,
    Mmio { owner: u32, writable: bool },
}

/// A region of memory: `size` bytes from `base` on.
#[derive(Clone, Copy, Debug, PartialEq, Eq)]
pub struct Region {
    pub base: u32,
    pub size: u32,
    pub class: Class,
}

/// A Secure Partition. `ram` is the place of its RAM among the system's regions.
#[derive(Drop)]
pub struct Partition {
    pub name: Name,
    pub rot: RotType,
    pub priority: Priority,
    pub domain: u32,
    pub ram: u32,
    /// Whether each of its services is a function, from the message to a status.
    pub sfn: bool,
    /// The bytes of its RAM that the manifest asks for as heap.
    pub heap: u32,
}

/// An RoT Service. `owner` is its partition's place, and `signal` its bit in that partition's signals.
#[derive(Drop)]
pub struct Service {
    pub name: Name,
    pub sid: Sid,
    pub owner: u32,
    pub nonsecure: bool,
    pub version: u32,
    pub policy: Policy,
    pub signal: u32,
    /// The index of its stateless handle, 1 to 32, or 0 for a service that clients connect to.
    pub stateless: u32,
    /// Whether its vectors may be mapped.
    pub mm: bool,
}

/// An interrupt source. `owner` is its partition's place, and `signal` its bit in that partition's
/// signals.
#[derive(Drop)]
pub struct Source {
    pub name: Name,
    pub signal_name: Name,
    pub owner: u32,
    pub signal: u32,
    /// Whether it has a first-level handler, whose answer the device gives with each interrupt.
    pub flih: bool,
    /// Whether it is enabled when the system starts.
    pub enabled: bool,
}

/// How many connections a client may have to a service. `service` is the service's place.
#[derive(Clone, Copy, Debug, PartialEq, Eq)]
pub struct Budget {
    pub client: ActorId,
    pub service: u32,
    pub count: u32,
}

/// A system whose parts fit each other: an isolation level from 1 to 3, at most 32 partitions and 16
/// non-secure clients, services and interrupt sources with signals of their own, regions that share no
/// byte, and one budget for each client that may use a service, in actor order and then in service
/// order. No two stateless services have one index. Each heap lies in its partition's RAM, and a
/// partition whose services are functions has a service and at least 48 bytes of RAM. The services and
/// the regions are each fewer than 2^31.
#[derive(Drop)]
pub struct System {
    pub level: u32,
    pub partitions: List<Partition>,
    pub services: Services,
    pub sources: List<Source>,
    pub regions: Regions,
    pub clients: List<Name>,
    pub budgets: List<Budget>,
    pub ghost counted: { IsTrue (nat_lt (length services) (2 ^ 31)
        && nat_lt (length regions) (2 ^ 31)) },
    pub ghost well_formed: { IsTrue (is_well_formed level partitions services
        sources regions clients budgets) },
}

// The place of the first service with the index.
fn place_of_index(services: &[Service], index: u32) -> Option<usize>
    ensures { result ≡ position (λ v. v.stateless == index) services.now }
{
    services.iter().position(|v| v.stateless == index)
}

// How a budget stands to the client's for the service: budgets come in the order of clients, and then of
// services.
fn compare(budget: &Budget, client: ActorId, service: u32) -> Ordering
    ensures { result ≡ ordering_then (nat_cmp budget.now.client.0 client.0)
        (nat_cmp budget.now.service service) }
{
    let by_client = budget.client.0.cmp(&client.0);
    by_client.then(budget.service.cmp(&service))
}

// The count of the client's budget for the service, among budgets in order.
fn count_for(budgets: &[Budget], client: ActorId, service: u32) -> Option<u32>
    requires { each_pair budget_before budgets.now ≡ true }
    ensures { result ≡ option_map (λ b. b.count)
        (find (λ b. (b.client.0 == client.0) && (b.service == service)) budgets.now) }
{
    match budgets.binary_search_by(|b| compare(b, client, service)) {
        Ok(place) => Some(budgets[place].count),
        Err(_) => None,
    }
}

impl System {
    ghost use Rattle.std.specs.Prelude.{◌≡◌, ◌<◌, ◌^◌, length, is_some, IfSome, IfOk};
    ghost use Rattle.ffm_model.specs.WellFormed.{is_well_formed};
    ghost use Rattle.ffm_model.specs.Parts.{SystemParts, system_from, parts_of_system};
    ghost use Rattle.ffm_model.specs.Actors.{actor_count, counts_of, kind_of, client_id_of, service_at, stateless_at, budget_of};
    ghost use Rattle.ffm_model.specs.SignalCalls.{has_flih};

    /// The system of these parts. None exactly where they don't fit each other. The services, the
    /// regions and the budgets are each fewer than 2^31.
    #[tactic(auto, using(crate::proofs::PartsLemmas::system_of_parts, crate::proofs::PartsLemmas::no_system_of_parts))]
    pub fn new(
        level: u32,
        partitions: List<Partition>,
        services: List<Service>,
        sources: List<Source>,
        regions: List<Region>,
        clients: List<Name>,
        budgets: List<Budget>,
    ) -> Option<System>
        requires services { length services < 2 ^ 31 }
        requires regions { length regions < 2 ^ 31 }
        requires budgets { length budgets < 2 ^ 31 }
        ensures exact { is_some result
            ≡ is_well_formed level partitions services sources regions clients budgets }
        ensures made { result
            ≡ system_from (record {
              level = level;
              partitions = partitions;
              services = services;
              sources = sources;
              regions = regions;
              clients = clients;
              budgets = budgets;
            }) }
    {
        let fits = do_parts_fit(
            level,
            partitions.as_slice(),
            services.as_slice(),
            sources.as_slice(),
            regions.as_slice(),
            clients.as_slice(),
            budgets.as_slice(),
        );
        if !fits {
            return None;
        }
        Some(System {
            level,
            partitions,
            services: Services::of(services),
            sources,
            regions: Regions::of(regions),
            clients,
            budgets,
        })
    }

    /// The same system, with its services kept by SID too, and its regions by address, so that a look-up
    /// among many doesn't go through all. `AllocError` where memory is wanting; then the system is gone.
    #[tactic(auto, using(crate::proofs::RangeLemmas::services_apart, crate::proofs::RangeLemmas::services_few, crate::proofs::RangeLemmas::regions_apart, crate::proofs::RangeLemmas::regions_few))]
    pub fn in_order(self, alloc: Global) -> Result<System, AllocError>
        ensures { IfOk result (λ s. s ≡ self) }
    {
        Ok(System {
            level: self.level,
            partitions: self.partitions,
            services: self.services.by_sid(alloc)?,
            sources: self.sources,
            regions: self.regions.by_address(alloc)?,
            clients: self.clients,
            budgets: self.budgets,
        })
    }

    /// How many actors of each kind there are.
    #[tactic(auto, using(crate::proofs::ActorLemmas::few_partitions, crate::proofs::ActorLemmas::few_clients))]
    pub fn counts(&self) -> Counts
        ensures { result ≡ counts_of self.now }
    {
        Counts {
            partitions: self.partitions.len() as u32,
            clients: self.clients.len() as u32,
            device: !self.sources.is_empty(),
        }
    }

    /// The number of actors: partitions, then non-secure clients, then the device where there is an
    /// interrupt source. At most 49.
    #[tactic(auto, using(crate::proofs::ActorLemmas::few_partitions, crate::proofs::ActorLemmas::few_clients))]
    pub fn actor_count(&self) -> u32
        ensures { result ≡ actor_count self.now }
    {
        let device: u32 = if self.sources.as_slice().is_empty() {
            0
        } else {
            1
        };
        self.partitions.len() as u32 + self.clients.len() as u32 + device
    }

    /// What the actor is. The actor has to be one of the system's.
    #[tactic(auto, using(crate::proofs::ActorLemmas::few_partitions, crate::proofs::ActorLemmas::few_clients))]
    pub fn actor_kind(&self, actor: ActorId) -> ActorKind
        requires { actor.0 < actor_count self.now }
        ensures { result ≡ kind_of self.now actor.0 }
    {
        let partitions = self.partitions.len();
        let at = actor.0 as usize;
        if at < partitions {
            ActorKind::Partition
        } else if at < partitions + self.clients.len() {
            ActorKind::Client
        } else {
            ActorKind::Device
        }
    }

    /// The actor's client ID: a partition's place plus one, -k for the k-th non-secure client, 0 for
    /// the device. The actor has to be one of the system's.
    #[tactic(auto, using(crate::proofs::ActorLemmas::few_partitions, crate::proofs::ActorLemmas::few_clients))]
    pub fn client_id(&self, actor: ActorId) -> i32
        requires { actor.0 < actor_count self.now }
        ensures { result ≡ client_id_of self.now actor.0 }
    {
        match self.actor_kind(actor) {
            ActorKind::Partition => actor.0 as i32 + 1,
            ActorKind::Client => -1 - (actor.0 - self.partitions.len() as u32) as i32,
            ActorKind::Device => 0,
        }
    }

    /// The place of the service with a SID. None exactly where no service has it.
    pub fn service_at(&self, sid: Sid) -> Option<u32>
        ensures { result ≡ service_at self.now sid }
    {
        match self.services.place_of(sid) {
            Some(i) => Some(i as u32),
            None => None,
        }
    }

    /// The place of the stateless service with an index. None exactly where no service has it.
    pub fn stateless_at(&self, index: u32) -> Option<u32>
        ensures { result ≡ stateless_at self.now index }
    {
        if index == 0 {
            return None;
        }
        match place_of_index(self.services.as_slice(), index) {
            Some(i) => Some(i as u32),
            None => None,
        }
    }

    /// Whether an interrupt source has a first-level handler. There may be no such source.
    pub fn has_flih(&self, source: u32) -> bool
        ensures { result ≡ has_flih self.now source }
    {
        match self.sources.as_slice().get(source as usize) {
            Some(source) => source.flih,
            None => false,
        }
    }

    /// How many connections an actor may have to a service. None exactly where it may not use the
    /// service.
    #[tactic(auto, using(crate::proofs::WellFormedLemmas::budgets_in_order))]
    pub fn budget(&self, actor: ActorId, service: u32) -> Option<u32>
        ensures { result ≡ budget_of self.now actor.0 service }
    {
        count_for(self.budgets.as_slice(), actor, service)
    }
}
