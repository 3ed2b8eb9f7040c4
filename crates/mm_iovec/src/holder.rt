//! The partition whose messages are held.
ghost use Rattle.std.specs.Prelude.{◌≡◌, ◌+◌, ◌<◌, ◌≤◌, ◌^◌, ◌==◌, IfSome, length, map, filter, find, nat_lt, slice_get};
ghost use Rattle.std.specs.Option.{option_map};
ghost use Rattle.ffm_model.specs.Held.{holder_of, input_window, is_mappable, output_window, window, window_size};
ghost use Rattle.mm_iovec.specs.Items.{message_of, own_services, service_of, vector_of};

use crate::item::HeldItem;
use crate::vector::HeldVector;
use arrayvec::ArrayVec;
use ffm_model::{Partition, Region, Service, System};
use std::marker::Model;

/// A service of the partition: its signal, and whether its vectors may be mapped.
#[derive(Clone, Copy, Default)]
pub(crate) struct HolderService {
    pub(crate) signal: u32,
    pub(crate) mm: bool,
}

/// A partition: where its RAM begins, its size and that of its heap in bytes, and its services, each with a
/// signal of its own among 28. The RAM ends with eight windows of an eighth of the heap each, four for inputs
/// and then four for outputs.
#[derive(Drop)]
pub(crate) struct Holder {
    base: u32,
    size: u32,
    heap: u32,
    services: ArrayVec<HolderService, 28>,
}

impl Model for Holder {
    ghost use Rattle.std.specs.Prelude.{◌+◌, ◌≤◌, ◌^◌, map};
    ghost use Rattle.ffm_model.specs.Held.{Holder as HolderView};

    ghost Value = { HolderView };

    ghost use Rattle.mm_iovec.specs.Items.{service_of};

    ghost view = { λ h.
        record {
          base = h.base;
          size = h.size;
          heap = h.heap;
          services = map service_of h.services.items;
        } };

    ghost invariant = { λ h. (h.base + h.size ≤ 2 ^ 32) × (h.heap ≤ h.size) };
}

// The services of a partition.
fn services_of(services: &[Service], partition: u32) -> ArrayVec<HolderService, 28>
    requires { length (filter (λ v. v.owner == partition) services.now) ≤ 28 }
    ensures { map service_of result.items ≡ own_services partition services.now }
{
    let mut own = ArrayVec::new();
    for service in services {
        if service.owner == partition {
            own.push(HolderService {
                signal: service.signal,
                mm: service.mm,
            });
        }
    }
    own
}

impl Holder {
    // A partition with these services.
    fn with_services(
        partition: &Partition,
        regions: &[Region],
        services: ArrayVec<HolderService, 28>,
    ) -> Self
        requires there { partition.now.ram < length regions.now }
        requires end { IfSome (slice_get regions.now partition.now.ram) (λ r.
            r.base + r.size ≤ 2 ^ 32) }
        requires heap { IfSome (slice_get regions.now partition.now.ram) (λ r.
            partition.now.heap ≤ r.size) }
        ensures { IfSome (slice_get regions.now partition.now.ram) (λ r.
            result ≡ record {
              base = r.base;
              size = r.size;
              heap = partition.now.heap;
              services = map service_of services.items;
            }) }
    {
        let ram = regions[partition.ram as usize];
        Holder {
            base: ram.base,
            size: ram.size,
            heap: partition.heap,
            services,
        }
    }

    /// A partition of a system.
    pub(crate) fn of(system: &System, partition: u32) -> Self
        requires { partition < length system.now.partitions }
        ensures { result ≡ holder_of system.now partition }
    {
        let services = services_of(system.services.as_slice(), partition);
        let partitions = system.partitions.as_slice();
        Holder::with_services(
            &partitions[partition as usize],
            system.regions.as_slice(),
            services,
        )
    }

    /// The service with a signal.
    pub(crate) fn service(&self, signal: u32) -> Option<HolderService>
        ensures { option_map service_of result ≡ find (λ v. v.signal == signal) self.now.services }
    {
        self.services
            .as_slice()
            .iter()
            .find(|service| service.signal == signal)
            .copied()
    }

    fn window_size(&self) -> u32
        ensures { result ≡ window_size self.now }
    {
        self.heap / 8
    }

    /// Whether the heap is large enough for windows.
    pub(crate) fn has_windows(&self) -> bool
        ensures { result ≡ nat_lt 0 (window_size self.now) }
    {
        self.window_size() > 0
    }

    // The address of the window at a place among the eight.
    fn window(&self, place: u32) -> u32
        requires below { place < 8 }
        requires some { 0 < window_size self.now }
        ensures { result ≡ window self.now place }
    {
        let size = self.window_size();
        self.base + (self.size - 8 * size) + place * size
    }

    /// The address of an input vector's window.
    pub(crate) fn input_window(&self, index: u32) -> u32
        requires below { index < 4 }
        requires some { 0 < window_size self.now }
        ensures { result ≡ input_window self.now index }
    {
        self.window(index)
    }

    /// The address of an output vector's window.
    pub(crate) fn output_window(&self, index: u32) -> u32
        requires below { index < 4 }
        requires some { 0 < window_size self.now }
        ensures { result ≡ output_window self.now index }
    {
        self.window(4 + index)
    }

    /// Whether a vector of a message may be mapped, as far as the message alone says.
    pub(crate) fn is_mappable(&self, item: &HeldItem, vector: HeldVector) -> bool
        ensures { result ≡ is_mappable self.now (message_of item.now) (vector_of vector) }
    {
        item.kind >= 0
            && item.mm
            && vector.size > 0
            && vector.size <= self.window_size()
            && vector.is_fresh()
    }
}
