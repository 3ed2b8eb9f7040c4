//! What a system file says beside its manifests.
ghost use Rattle.std.specs.Prelude.{◌≡◌, ◌<◌, ◌≤◌, length, IfOk};
ghost use Rattle.std.specs.List.{AllByRecursion};
ghost use Rattle.serde_json.specs.View.{view};
ghost use Rattle.ffm_model.specs.ManifestItems.{IsManifest};
ghost use Rattle.ffm_model.specs.PartsItems.{IsRegion, IsConnection};
ghost use Rattle.ffm_model.specs.SystemAttributes.{region_of, connection_of, level_of, parts_with};
ghost use Rattle.manifest_json.specs.Gives.{Gives};

use ffm_model::{
    BAD_VALUE, ConnectionItem, Key, List, MAX_CLIENTS, Manifest, Parts, PathStep, RegionItem,
};
use manifest_json::{
    ListOf, ListUpTo, NameReader, NumberReader, PartError, Reader, WholeReader, object, optional,
    optional_list, refused_at, required,
};
use serde_json::Value;
use std::alloc::Global;

const MAX_COUNT: u32 = 256;

const DEFAULT_NON_SECURE_RAM: u32 = 65_536;

/// A region that manifests may name.
#[derive(Clone, Copy)]
struct RegionReader;

impl Reader for RegionReader {
    type Out = RegionItem;

    ghost gives = { λ _. region_of };

    ghost keeps = { λ _. IsRegion };

    #[tactic(auto, unfolding(ffm_model::specs::SystemAttributes::region_of))]
    fn read(&self, alloc: Global, tree: &Value) -> Result<RegionItem, PartError> {
        object(alloc, tree)?;
        let name = required(alloc, &NameReader, tree, Key::Name)?;
        let base = required(alloc, &NumberReader, tree, Key::Base)?;
        let size = required(alloc, &NumberReader, tree, Key::Size)?;
        if size == 0 || u64::from(base) + u64::from(size) > 1 << 32 {
            return Err(refused_at(alloc, PathStep::Key(Key::Size), BAD_VALUE));
        }
        Ok(RegionItem { name, base, size })
    }
}

/// How many connections a client may have to a service.
#[derive(Clone, Copy)]
struct ConnectionReader;

impl Reader for ConnectionReader {
    type Out = ConnectionItem;

    ghost gives = { λ _. connection_of };

    ghost keeps = { λ _. IsConnection };

    #[tactic(auto, unfolding(ffm_model::specs::SystemAttributes::connection_of))]
    fn read(&self, alloc: Global, tree: &Value) -> Result<ConnectionItem, PartError> {
        let whole = WholeReader {
            least: 0,
            most: MAX_COUNT,
        };
        object(alloc, tree)?;
        let client = required(alloc, &NameReader, tree, Key::Client)?;
        let service = required(alloc, &NameReader, tree, Key::Service)?;
        let count = required(alloc, &whole, tree, Key::Count)?;
        Ok(ConnectionItem {
            client,
            service,
            count,
        })
    }
}

/// What stands before the manifests.
#[tactic(auto, unfolding(ffm_model::specs::SystemAttributes::level_of))]
pub(crate) fn level(alloc: Global, tree: &Value) -> Result<u32, PartError>
    ensures given { Gives result (level_of (view tree.now)) }
    ensures kept { IfOk result (λ level. (0 < level) × (level ≤ 3)) }
{
    object(alloc, tree)?;
    let whole = WholeReader { least: 1, most: 3 };
    required(alloc, &whole, tree, Key::IsolationLevel)
}

/// The whole, with what stands after the manifests.
#[tactic(auto, unfolding(ffm_model::specs::SystemAttributes::parts_with))]
pub(crate) fn parts_with(
    alloc: Global,
    level: u32,
    manifests: List<Manifest>,
    tree: &Value,
) -> Result<Parts, PartError>
    requires level { (0 < level) × (level ≤ 3) }
    requires manifests { AllByRecursion IsManifest manifests }
    requires count { length manifests ≤ 256 }
    ensures { Gives result (parts_with level manifests (view tree.now)) }
{
    let regions = optional_list(alloc, RegionReader, tree, Key::Regions)?;
    let default = DEFAULT_NON_SECURE_RAM;
    let non_secure_ram = optional(alloc, &NumberReader, default, tree, Key::NonSecureRam)?;
    let names = ListUpTo {
        reader: ListOf(NameReader),
        most: MAX_CLIENTS as usize,
    };
    let none = List::of(Vec::new(alloc));
    let clients = optional(alloc, &names, none, tree, Key::Clients)?;
    let connections = optional_list(alloc, ConnectionReader, tree, Key::Connections)?;
    Ok(Parts {
        level,
        manifests,
        regions,
        non_secure_ram,
        clients,
        connections,
    })
}
