//! The items of a manifest's lists: MMIO regions, services and interrupts.
ghost use Rattle.std.specs.Prelude.{◌≡◌, ◌≤◌, IfOk, true};
ghost use Rattle.ffm_model.specs.Attributes.{optional};
ghost use Rattle.ffm_model.specs.ManifestItems.{IsMmio, IsLocation, IsService, IsIrq};
ghost use Rattle.ffm_model.specs.Manifests.{mmio_of, location_of, named_of, numbered_of, range_of, service_of, version_of, index_of, stateless_of, irq_of, first_irq_of, second_irq_of, since_1_1};
ghost use Rattle.serde_json.specs.View.{view};
ghost use Rattle.manifest_json.specs.Gives.{Gives};

use crate::error::{PartError, refused, refused_at};
use crate::reader::{Reader, Text, optional, required};
use crate::values::{
    BooleanReader, NameReader, NumberReader, SignalReader, SourceReader, object, whole,
};
use crate::words::{HandlingWord, MappingWord, PermissionWord, PolicyWord};
use ffm_model::{
    BAD_VALUE, FRAMEWORK_1_1, IrqItem, Key, Location, MAX_STATELESS, MmioItem, PathStep, Policy,
    ServiceItem, Sid, WRONG_TYPE,
};
use serde_json::Value;
use std::alloc::Global;

/// An attribute of version 1.1, with a default. In a manifest of 1.0 it passes unread.
pub(crate) fn since_1_1<R: Reader>(
    alloc: Global,
    framework: u32,
    reader: &R,
    default: R::Out,
    tree: &Value,
    key: Key,
) -> Result<R::Out, PartError>
    requires { R.keeps reader.now default }
    ensures given { Gives result
        (since_1_1 framework default (optional (R.gives reader.now) default key (view tree.now))) }
    ensures kept { IfOk result (R.keeps reader.now) }
{
    if framework == FRAMEWORK_1_1 {
        optional(alloc, reader, default, tree, key)
    } else {
        Ok(default)
    }
}

/// A range of at least one byte that ends by 2^32. Another one is refused at its size.
fn range(alloc: Global, base: u32, size: u32) -> Result<Location, PartError>
    ensures given { Gives result (range_of base size) }
    ensures kept { IfOk result IsLocation }
{
    if size == 0 {
        return Err(refused_at(alloc, PathStep::Key(Key::Size), BAD_VALUE));
    }
    if u64::from(base) + u64::from(size) > 1 << 32 {
        return Err(refused_at(alloc, PathStep::Key(Key::Size), BAD_VALUE));
    }
    Ok(Location::Numbered { base, size })
}

#[tactic(auto, unfolding(ffm_model::specs::Manifests::numbered_of))]
fn numbered(alloc: Global, tree: &Value) -> Result<Location, PartError>
    ensures given { Gives result (numbered_of (view tree.now)) }
    ensures kept { IfOk result IsLocation }
{
    let base = required(alloc, &NumberReader, tree, Key::Base)?;
    let size = required(alloc, &NumberReader, tree, Key::Size)?;
    range(alloc, base, size)
}

#[tactic(auto, unfolding(ffm_model::specs::Manifests::named_of))]
fn named(alloc: Global, tree: &Value) -> Result<Location, PartError>
    ensures given { Gives result (named_of (view tree.now)) }
    ensures kept { IfOk result IsLocation }
{
    Ok(Location::Named(required(alloc, &NameReader, tree, Key::Name)?))
}

#[tactic(auto, unfolding(ffm_model::specs::Manifests::location_of))]
fn location(alloc: Global, tree: &Value) -> Result<Location, PartError>
    ensures given { Gives result (location_of (view tree.now)) }
    ensures kept { IfOk result IsLocation }
{
    if tree.get(Key::Name.text()).is_some() {
        named(alloc, tree)
    } else {
        numbered(alloc, tree)
    }
}

#[derive(Clone, Copy)]
pub(crate) struct MmioReader;

impl Reader for MmioReader {
    type Out = MmioItem;

    ghost gives = { λ _. mmio_of };

    ghost keeps = { λ _. IsMmio };

    #[tactic(auto, unfolding(ffm_model::specs::Manifests::mmio_of))]
    fn read(&self, alloc: Global, tree: &Value) -> Result<MmioItem, PartError> {
        object(alloc, tree)?;
        let location = location(alloc, tree)?;
        let writable = required(alloc, &Text(PermissionWord), tree, Key::Permission)?;
        Ok(MmioItem { location, writable })
    }
}

/// The version of a service: a number, and not 0.
#[derive(Clone, Copy)]
struct VersionReader;

impl Reader for VersionReader {
    type Out = u32;

    ghost use Rattle.std.specs.Prelude.{◌<◌};

    ghost gives = { λ _. version_of };

    ghost keeps = { λ _ version. 0 < version };

    #[tactic(auto, unfolding(ffm_model::specs::Manifests::version_of))]
    fn read(&self, alloc: Global, tree: &Value) -> Result<u32, PartError> {
        let version = NumberReader.read(alloc, tree)?;
        if version == 0 {
            return Err(refused(alloc, BAD_VALUE));
        }
        Ok(version)
    }
}

/// The index of a stateless handle: a whole number from 1 to 32, or 0 for the text "auto".
#[derive(Clone, Copy)]
struct IndexReader;

impl Reader for IndexReader {
    type Out = u32;

    ghost gives = { λ _. index_of };

    ghost keeps = { λ _ index. index ≤ 32 };

    #[tactic(auto, unfolding(ffm_model::specs::Manifests::index_of))]
    fn read(&self, alloc: Global, tree: &Value) -> Result<u32, PartError> {
        if let Some(index) = whole(tree) {
            if index == 0 || u64::from(MAX_STATELESS) < index {
                return Err(refused(alloc, BAD_VALUE));
            }
            return Ok(index as u32);
        }
        match tree.as_str() {
            Some("auto") => Ok(0),
            Some(_) => Err(refused(alloc, BAD_VALUE)),
            None => Err(refused(alloc, WRONG_TYPE)),
        }
    }
}

/// The index of a service's stateless handle, 0 where it states none. It is read of a service that
/// clients don't connect to.
fn stateless_handle(alloc: Global, connection_based: bool, tree: &Value) -> Result<u32, PartError>
    ensures given { Gives result (stateless_of connection_based (view tree.now)) }
    ensures kept { IfOk result (λ index. index ≤ 32) }
    ensures unstated { IfOk result (λ index. connection_based ≡ true → index ≡ 0) }
{
    if connection_based {
        Ok(0)
    } else {
        optional(alloc, &IndexReader, 0, tree, Key::StatelessHandle)
    }
}

/// A service of a manifest that is written for a version of the framework.
#[derive(Clone, Copy)]
pub(crate) struct ServiceReader {
    pub framework: u32,
}

impl Reader for ServiceReader {
    type Out = ServiceItem;

    ghost gives = { λ r. service_of r.framework };

    ghost keeps = { λ _. IsService };

    #[tactic(auto, unfolding(ffm_model::specs::Manifests::service_of))]
    fn read(&self, alloc: Global, tree: &Value) -> Result<ServiceItem, PartError> {
        object(alloc, tree)?;
        let name = required(alloc, &NameReader, tree, Key::Name)?;
        let sid = required(alloc, &NumberReader, tree, Key::Sid)?;
        let nonsecure = required(alloc, &BooleanReader, tree, Key::NonSecureClients)?;
        let version = optional(alloc, &VersionReader, 1, tree, Key::Version)?;
        let policy = Text(PolicyWord);
        let policy = optional(alloc, &policy, Policy::Strict, tree, Key::VersionPolicy)?;
        let key = Key::ConnectionBased;
        let connection_based = since_1_1(alloc, self.framework, &BooleanReader, true, tree, key)?;
        let stateless_handle = stateless_handle(alloc, connection_based, tree)?;
        let mapping = Text(MappingWord);
        let mm = since_1_1(alloc, self.framework, &mapping, false, tree, Key::MmIovec)?;
        Ok(ServiceItem {
            name,
            sid: Sid(sid),
            nonsecure,
            version,
            policy,
            connection_based,
            stateless_handle,
            mm,
        })
    }
}

/// An interrupt of a manifest of version 1.0, which names the signal itself.
#[tactic(auto, unfolding(ffm_model::specs::Manifests::first_irq_of))]
fn irq_1_0(alloc: Global, tree: &Value) -> Result<IrqItem, PartError>
    ensures given { Gives result (first_irq_of (view tree.now)) }
    ensures kept { IfOk result IsIrq }
{
    object(alloc, tree)?;
    let source = required(alloc, &SourceReader, tree, Key::Source)?;
    let signal = required(alloc, &NameReader, tree, Key::Signal)?;
    Ok(IrqItem {
        source,
        signal,
        flih: false,
    })
}

/// An interrupt of a manifest of version 1.1, whose signal is named after it.
#[tactic(auto, unfolding(ffm_model::specs::Manifests::second_irq_of))]
fn irq_1_1(alloc: Global, tree: &Value) -> Result<IrqItem, PartError>
    ensures given { Gives result (second_irq_of (view tree.now)) }
    ensures kept { IfOk result IsIrq }
{
    object(alloc, tree)?;
    let source = required(alloc, &SourceReader, tree, Key::Source)?;
    let signal = required(alloc, &SignalReader, tree, Key::Name)?;
    let flih = required(alloc, &Text(HandlingWord), tree, Key::Handling)?;
    Ok(IrqItem {
        source,
        signal,
        flih,
    })
}

/// An interrupt of a manifest that is written for a version of the framework.
#[derive(Clone, Copy)]
pub(crate) struct IrqReader {
    pub framework: u32,
}

impl Reader for IrqReader {
    type Out = IrqItem;

    ghost gives = { λ r. irq_of r.framework };

    ghost keeps = { λ _. IsIrq };

    fn read(&self, alloc: Global, tree: &Value) -> Result<IrqItem, PartError> {
        if self.framework == FRAMEWORK_1_1 {
            irq_1_1(alloc, tree)
        } else {
            irq_1_0(alloc, tree)
        }
    }
}
