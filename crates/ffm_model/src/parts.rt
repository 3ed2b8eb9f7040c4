//! What a system file says, with the manifests of its partitions.

use crate::list::List;
use crate::manifest::Manifest;
use crate::name::Name;
use std::marker::Model;

/// A region that manifests may name. It has at least one byte and ends by 2^32.
#[derive(Drop)]
pub struct RegionItem {
    pub name: Name,
    pub base: u32,
    pub size: u32,
}

impl Model for RegionItem {
    ghost use Rattle.ffm_model.specs.PartsItems.{RegionRecord, IsRegion};

    ghost Value = { RegionRecord };

    ghost view = { λ r. record { name = r.name; base = r.base; size = r.size } };

    ghost invariant = { λ r. IsRegion (record { name = r.name; base = r.base; size = r.size }) };
}

/// How many connections a client may have to a service: at most 256.
#[derive(Drop)]
pub struct ConnectionItem {
    pub client: Name,
    pub service: Name,
    pub count: u32,
}

impl Model for ConnectionItem {
    ghost use Rattle.ffm_model.specs.PartsItems.{ConnectionRecord, IsConnection};

    ghost Value = { ConnectionRecord };

    ghost view = { λ c. record { client = c.client; service = c.service; count = c.count } };

    ghost invariant = { λ c.
        IsConnection (record { client = c.client; service = c.service; count = c.count }) };
}

/// What a system file and its manifests say, with their defaults filled in. Each list has every
/// item of the file, in the file's order.
#[derive(Drop)]
pub struct Parts {
    /// The isolation level: 1 to 3.
    pub level: u32,
    /// The manifests, at most 256, wherever each of them stood.
    pub manifests: List<Manifest>,
    pub regions: List<RegionItem>,
    /// How many bytes of non-secure RAM are asked for.
    pub non_secure_ram: u32,
    /// The non-secure clients, at most 16.
    pub clients: List<Name>,
    pub connections: List<ConnectionItem>,
}

impl Model for Parts {
    ghost use Rattle.ffm_model.specs.PartsItems.{PartsRecord, IsParts};

    ghost Value = { PartsRecord };

    ghost view = { λ p.
        record {
          level = p.level;
          manifests = p.manifests;
          regions = p.regions;
          non_secure_ram = p.non_secure_ram;
          clients = p.clients;
          connections = p.connections;
        } };

    ghost invariant = { λ p.
        IsParts (record {
          level = p.level;
          manifests = p.manifests;
          regions = p.regions;
          non_secure_ram = p.non_secure_ram;
          clients = p.clients;
          connections = p.connections;
        }) };
}
