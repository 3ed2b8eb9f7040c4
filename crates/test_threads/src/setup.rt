//! A system put together of its parts, a manager of it, and what threads share it by.
ghost use Rattle.std.specs.Prelude.{◌≡◌, ◌≤◌, [], IfOk, IfSome};
ghost use Rattle.ffm_model.specs.declared.constants.TheConstants.{MAX_ENTRIES};
ghost use Rattle.spm_lock.specs.Passes.{ArePasses, AreNew};
ghost use Rattle.test_threads.specs.Threes.{AreThree};

use ffm_model::{
    ActorId, Budget, Class, List, Name, Partition, Policy, Priority, Region, RotType, Service, Sid,
    System,
};
use memory_image::Image;
use spm_core::Spm;
use spm_lock::{Pass, Shared};
use std::alloc::{AllocError, Global};
use std::test::Fail;

pub(crate) const VAULT: ActorId = ActorId(0);

pub(crate) const CLIENT: ActorId = ActorId(1);

pub(crate) const OTHER: ActorId = ActorId(2);

/// The service of the partition.
pub(crate) const KEYS: Sid = Sid(0x40);

fn unnamed(alloc: Global) -> Name {
    Name::of(String::new(alloc))
}

fn partition(alloc: Global) -> Partition {
    Partition {
        name: unnamed(alloc),
        rot: RotType::ApplicationRot,
        priority: Priority::Normal,
        domain: 0,
        ram: 0,
        sfn: false,
        heap: 0x80,
    }
}

// Its vectors may be mapped.
fn service(alloc: Global) -> Service {
    Service {
        name: unnamed(alloc),
        sid: KEYS,
        owner: 0,
        nonsecure: true,
        version: 1,
        policy: Policy::Strict,
        signal: 0x10,
        stateless: 0,
        mm: true,
    }
}

const RAM: Region = Region {
    base: 0x3000_0000,
    size: 0x480,
    class: Class::Ram { domain: 0 },
};

const CLIENT_RAM: Region = Region {
    base: 0x2000_0000,
    size: 0x1000,
    class: Class::NonSecure,
};

// One connection of a client to the service.
const CONNECTION: Budget = Budget {
    client: CLIENT,
    service: 0,
    count: 1,
};

/// A partition with one service, a client of it, and a client without a connection.
pub(crate) fn system(alloc: Global) -> Result<System, Fail> {
    let system = System::new(
        3,
        List::of(vec![in alloc; partition(alloc)]?),
        List::of(vec![in alloc; service(alloc)]?),
        List::of(Vec::new(alloc)),
        List::of(vec![in alloc; RAM, CLIENT_RAM]?),
        List::of(vec![in alloc; unnamed(alloc), unnamed(alloc)]?),
        List::of(vec![in alloc; CONNECTION]?),
    );
    Ok(system.ok_or("the parts don't fit")?.in_order(alloc)?)
}

#[tactic(auto, using(memory_image::proofs::Systems::system_fits, ffm_model::proofs::RangeLemmas::regions_few))]
fn manager(alloc: Global, limit: u32) -> Result<Spm, Fail>
    requires positive { 1 ≤ limit }
    requires limited { limit ≤ MAX_ENTRIES }
    ensures { IfOk result (λ m. m.history ≡ []) }
{
    let system = system(alloc)?;
    let image = Image::new(alloc, system.regions.list(), &List::of(Vec::new(alloc)))?;
    Ok(Spm::new(alloc, system, image, limit)?)
}

/// A manager of runs up to a limit, shared, and its passes.
pub(crate) fn shared_manager(alloc: Global, limit: u32) -> Result<(Shared, List<Pass>), Fail>
    requires positive { 1 ≤ limit }
    requires limited { limit ≤ MAX_ENTRIES }
    ensures passes { IfOk result (λ r. ArePasses r.0 r.1) }
    ensures fresh { IfOk result (λ r. AreNew r.1) }
{
    let spm = manager(alloc, limit)?;
    Ok(Shared::new(alloc, spm)?)
}

// The passes of the partition and of the two clients, where there are no others.
fn taken_apart(shared: &Shared, passes: List<Pass>) -> Option<(Pass, Pass, Pass)>
    requires { ArePasses shared.now passes }
    ensures { IfSome result (λ r. AreThree shared.now r.0 r.1 r.2) }
{
    let mut passes = passes.into_vec();
    let third = passes.pop()?;
    let second = passes.pop()?;
    let first = passes.pop()?;
    if !passes.is_empty() {
        return None;
    }
    let _ = shared;
    Some((first, second, third))
}

/// The same with the passes of the three actors.
pub(crate) fn shared_by_three(
    alloc: Global,
    limit: u32,
) -> Result<(Shared, (Pass, Pass, Pass)), Fail>
    requires positive { 1 ≤ limit }
    requires limited { limit ≤ MAX_ENTRIES }
    ensures { IfOk result (λ r. AreThree r.0 r.1.0 r.1.1 r.1.2) }
{
    let (shared, passes) = shared_manager(alloc, limit)?;
    match taken_apart(&shared, passes) {
        Some(three) => Ok((shared, three)),
        None => Err(Fail::from("three passes are wanted")),
    }
}

/// The passes of the three actors, in order.
pub(crate) fn put_together(
    alloc: Global,
    shared: &Shared,
    first: Pass,
    second: Pass,
    third: Pass,
) -> Result<List<Pass>, AllocError>
    requires { AreThree shared.now first second third }
    ensures { IfOk result (λ ps. ArePasses shared.now ps) }
{
    let mut passes = Vec::with_capacity(alloc, 3)?;
    passes.push_reserved(first);
    passes.push_reserved(second);
    passes.push_reserved(third);
    let _ = shared;
    Ok(List::of(passes))
}
