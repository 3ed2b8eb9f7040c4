//! How many connections and messages the tables of a system have room for.

use crate::parts::{region, system_of, unnamed};
use ffm_model::{ActorId, Budget, Class, List, Policy, Service, Sid};
use spm_tables::Tables;
use std::alloc::{AllocError, Global};
use std::process::Abort;
use std::test::Fail;

// Each client of a service of the first partition, and how many connections it may have where the service takes any.
// Actors 1 and 2 are partitions, and 3 is a client.
const USES: [(u32, u32, u32); 6] = [
    (1, 0, 1),
    (1, 1, 1),
    (2, 1, 1),
    (3, 0, 1),
    (3, 1, 1),
    (3, 2, 5),
];

fn service(alloc: Global, sid: u32, signal: u32, index: u32) -> Service {
    Service {
        name: unnamed(alloc),
        sid: Sid(sid),
        owner: 0,
        nonsecure: true,
        version: 1,
        policy: Policy::Strict,
        signal,
        stateless: index,
        mm: false,
    }
}

fn budgets(alloc: Global, indices: &[u32]) -> Result<List<Budget>, AllocError> {
    let mut budgets = Vec::new(alloc);
    for (client, service, declared) in USES {
        let takes_any = indices.get(service as usize) == Some(&0);
        budgets.push(Budget {
            client: ActorId(client),
            service,
            count: if takes_any { declared } else { 0 },
        })?;
    }
    Ok(List::of(budgets))
}

// The sizes of the pools of connections and of messages, where the services have stateless handles of these indices,
// or none at 0.
fn sizes(rt: &impl Abort, alloc: Global, indices: [u32; 3]) -> Result<(u32, u32), Fail> {
    let services = vec![in alloc;
        service(alloc, 0x40, 0x10, indices[0]),
        service(alloc, 0x41, 0x20, indices[1]),
        service(alloc, 0x42, 0x40, indices[2]),
    ]?;
    let regions = [
        region(0x3000_0000, 0x400, Class::Ram { domain: 0 }),
        region(0x3000_0400, 0x400, Class::Ram { domain: 1 }),
        region(0x3000_0800, 0x400, Class::Ram { domain: 2 }),
        region(0x2000_0000, 0x1000, Class::NonSecure),
    ];
    let budgets = budgets(alloc, &indices)?;
    let system = system_of(rt, alloc, &[0, 1, 2], &regions, List::of(services), budgets)?;
    let tables = Tables::new(alloc, &system)?;
    Ok((tables.connections().size(), tables.messages().size()))
}

// The indices of the three services, and how many connections and messages there is room for: a message of each
// connection, and one of each actor that may use a stateless service.
const SIZES: [([u32; 3], u32, u32); 5] = [
    ([0, 0, 0], 10, 10),
    ([1, 0, 0], 8, 10),
    ([0, 1, 0], 7, 10),
    ([1, 32, 0], 5, 8),
    ([3, 2, 1], 0, 3),
];

#[test]
fn tables_have_room(rt: HostRuntime) -> Result<(), Fail> {
    for (indices, connections, messages) in SIZES {
        let found = sizes(&rt, rt.alloc(), indices)?;
        assert!(rt; found == (connections, messages), "{indices:?}");
    }
    Ok(())
}
