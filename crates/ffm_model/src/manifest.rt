//! What a manifest says of a partition.

use crate::list::List;
use crate::machine::Sid;
use crate::name::Name;
use crate::system::{Policy, Priority, RotType};
use std::marker::Model;

/// Where an MMIO region lies: by the name of a region of the system file, or by its addresses.
#[derive(Drop)]
pub enum Location {
    Named(Name),
    Numbered { base: u32, size: u32 },
}

/// An MMIO region of a partition. Its range has at least one byte and ends by 2^32.
#[derive(Drop)]
pub struct MmioItem {
    pub location: Location,
    pub writable: bool,
}

impl Model for MmioItem {
    ghost use Rattle.ffm_model.specs.ManifestItems.{MmioRecord, IsMmio};

    ghost Value = { MmioRecord };

    ghost view = { λ m. record { location = m.location; writable = m.writable } };

    ghost invariant = { λ m. IsMmio (record { location = m.location; writable = m.writable }) };
}

/// A service of a partition. Its version is not 0, and where clients connect to it, it states no index.
#[derive(Drop)]
pub struct ServiceItem {
    pub name: Name,
    pub sid: Sid,
    pub nonsecure: bool,
    pub version: u32,
    pub policy: Policy,
    /// Whether clients connect to it; else they call it by a stateless handle.
    pub connection_based: bool,
    /// The index that it states for its stateless handle, 1 to 32, or 0 for "auto"; 0 where clients
    /// connect to it.
    pub stateless_handle: u32,
    /// Whether its vectors may be mapped.
    pub mm: bool,
}

impl Model for ServiceItem {
    ghost use Rattle.ffm_model.specs.ManifestItems.{ServiceRecord, IsService};

    ghost Value = { ServiceRecord };

    ghost view = { λ s.
        record {
          name = s.name;
          sid = s.sid;
          nonsecure = s.nonsecure;
          version = s.version;
          policy = s.policy;
          connection_based = s.connection_based;
          stateless_handle = s.stateless_handle;
          mm = s.mm;
        } };

    ghost invariant = { λ s.
        IsService (record {
          name = s.name;
          sid = s.sid;
          nonsecure = s.nonsecure;
          version = s.version;
          policy = s.policy;
          connection_based = s.connection_based;
          stateless_handle = s.stateless_handle;
          mm = s.mm;
        }) };
}

/// An interrupt of a partition. Its source is a name, or the decimal text of a number.
#[derive(Drop)]
pub struct IrqItem {
    pub source: Name,
    pub signal: Name,
    /// Whether it has a first-level handler.
    pub flih: bool,
}

impl Model for IrqItem {
    ghost use Rattle.ffm_model.specs.ManifestItems.{IrqRecord, IsIrq};

    ghost Value = { IrqRecord };

    ghost view = { λ i. record { source = i.source; signal = i.signal; flih = i.flih } };

    ghost invariant = { λ i.
        IsIrq (record { source = i.source; signal = i.signal; flih = i.flih }) };
}

/// A partition's manifest, with its defaults filled in. Each list has every item of the file, in
/// the file's order.
#[derive(Drop)]
pub struct Manifest {
    /// The version of the framework that it is written for: 256 for 1.0, 257 for 1.1.
    pub framework: u32,
    pub name: Name,
    pub rot: RotType,
    pub priority: Priority,
    /// Whether each of its services is a function, from the message to a status. Then it has a
    /// service, no interrupts, and a stack of at least 48 bytes.
    pub sfn: bool,
    /// Empty where a manifest with functions names none.
    pub entry_point: Name,
    pub stack_size: u32,
    pub heap_size: u32,
    pub mmio: List<MmioItem>,
    pub services: List<ServiceItem>,
    pub dependencies: List<Name>,
    pub irqs: List<IrqItem>,
}

impl Model for Manifest {
    ghost use Rattle.ffm_model.specs.ManifestItems.{ManifestRecord, IsManifest};

    ghost Value = { ManifestRecord };

    ghost view = { λ m.
        record {
          framework = m.framework;
          name = m.name;
          rot = m.rot;
          priority = m.priority;
          sfn = m.sfn;
          entry_point = m.entry_point;
          stack_size = m.stack_size;
          heap_size = m.heap_size;
          mmio = m.mmio;
          services = m.services;
          dependencies = m.dependencies;
          irqs = m.irqs;
        } };

    ghost invariant = { λ m.
        IsManifest (record {
          framework = m.framework;
          name = m.name;
          rot = m.rot;
          priority = m.priority;
          sfn = m.sfn;
          entry_point = m.entry_point;
          stack_size = m.stack_size;
          heap_size = m.heap_size;
          mmio = m.mmio;
          services = m.services;
          dependencies = m.dependencies;
          irqs = m.irqs;
        }) };
}
