//! What the calls are made on: a system put together of its parts, tables at their start, and an image.
ghost use Rattle.std.specs.Prelude.{◌≡◌, IfOk, IsTrue};
ghost use Rattle.ffm_model.specs.State.{opening_spm};
ghost use Rattle.law_calls.specs.Premises.{Premises, HasRegions};
ghost use Rattle.spm_tables.specs.TablesView.{spm_of};
ghost use Rattle.test_manager.specs.Running.{IsRunning};

use ffm_model::{
    ActorId, ActorPhase, Budget, Bytes, Class, List, Name, Partition, Policy, Priority, Region,
    RotType, Service, Sid, Source, System,
};
use memory_image::{Image, open_within};
use spm_tables::Tables;
use std::alloc::Global;
use std::process::Abort;
use std::test::Fail;

pub(crate) const VAULT: ActorId = ActorId(0);

pub(crate) const CLIENT: ActorId = ActorId(1);

pub(crate) const DEVICE: ActorId = ActorId(2);

/// A service of version 2 that clients connect to, and its signal.
pub(crate) const KEYS: Sid = Sid(0x40);

pub(crate) const KEYS_SIGNAL: u32 = 0x10;

/// The signal of a service that is called by the stateless handle 0x40000001.
pub(crate) const COUNT_SIGNAL: u32 = 0x20;

/// The signals of two interrupt sources, 0 and 1: with a first-level handler, disabled at the start, and with a
/// second-level one, enabled.
pub(crate) const TICK: u32 = 0x40;

pub(crate) const UART: u32 = 0x80;

fn unnamed(alloc: Global) -> Name {
    Name::of(String::new(alloc))
}

fn partition(alloc: Global) -> Partition {
    Partition {
        name: unnamed(alloc),
        rot: RotType::ApplicationRot,
        priority: Priority::Normal,
        domain: 0,
        ram: 0,
        sfn: false,
        heap: 0,
    }
}

fn service(alloc: Global, sid: Sid, signal: u32, stateless: u32) -> Service {
    Service {
        name: unnamed(alloc),
        sid,
        owner: 0,
        nonsecure: true,
        version: 2,
        policy: Policy::Strict,
        signal,
        stateless,
        mm: false,
    }
}

fn source(alloc: Global, signal: u32, flih: bool) -> Source {
    Source {
        name: unnamed(alloc),
        signal_name: unnamed(alloc),
        owner: 0,
        signal,
        flih,
        enabled: !flih,
    }
}

const RAM: Region = Region {
    base: 0x3000_0000,
    size: 0x400,
    class: Class::Ram { domain: 0 },
};

const CLIENT_RAM: Region = Region {
    base: 0x2000_0000,
    size: 0x400,
    class: Class::NonSecure,
};

// The client may have one connection, and uses the stateless service too.
const ONE_CONNECTION: Budget = Budget {
    client: CLIENT,
    service: 0,
    count: 1,
};

const NO_CONNECTION: Budget = Budget {
    client: CLIENT,
    service: 1,
    count: 0,
};

/// A partition with both services and both sources, and a client.
pub(crate) fn system(alloc: Global) -> Result<System, Fail> {
    let keys = service(alloc, KEYS, KEYS_SIGNAL, 0);
    let count = service(alloc, Sid(0x50), COUNT_SIGNAL, 1);
    let tick = source(alloc, TICK, true);
    let uart = source(alloc, UART, false);
    let system = System::new(
        3,
        List::of(vec![in alloc; partition(alloc)]?),
        List::of(vec![in alloc; keys, count]?),
        List::of(vec![in alloc; tick, uart]?),
        List::of(vec![in alloc; RAM, CLIENT_RAM]?),
        List::of(vec![in alloc; unnamed(alloc)]?),
        List::of(vec![in alloc; ONE_CONNECTION, NO_CONNECTION]?),
    );
    Ok(system.ok_or("the parts don't fit")?.in_order(alloc)?)
}

pub(crate) fn runs(tables: &Tables, actor: ActorId) -> bool
    ensures { IsTrue result → IsRunning tables.now actor.0 }
{
    matches!(tables.phase(actor), ActorPhase::Running)
}

// Tables at their start: no connection and no message was made yet.
pub(crate) fn ready(alloc: Global, system: &System) -> Result<Tables, Fail>
    ensures premises { IfOk result (λ t. Premises system.now t) }
    ensures connections { IfOk result (λ t. t.connections.takes ≡ 0) }
    ensures messages { IfOk result (λ t. t.messages.takes ≡ 0) }
    ensures state { IfOk result (λ t. spm_of t ≡ opening_spm system.now) }
{
    Ok(Tables::new(alloc, system)?)
}

// In the client's RAM the descriptor of a vector, and after it the vector's four bytes.
#[tactic(auto, using(memory_image::proofs::Systems::system_fits, ffm_model::proofs::RangeLemmas::regions_few))]
pub(crate) fn image_of(rt: &impl Abort, alloc: Global, system: &System) -> Result<Image, Fail>
    ensures { IfOk result (HasRegions system.now) }
{
    let vector = Bytes {
        address: 0x2000_0000,
        content: List::of(b"\x08\0\0\x20\x04\0\0\0\x0b\x16\x21\x2c".to_vec(alloc)?),
    };
    let opening = vec![in alloc; vector]?;
    assert!(rt; open_within(system.regions.as_slice(), opening.as_slice()));
    Ok(Image::new(alloc, system.regions.list(), &List::of(opening))?)
}
