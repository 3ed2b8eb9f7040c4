//! Manifests out of JSON trees.
ghost use Rattle.std.specs.Prelude.{◌<◌, length, true, IfOk};
ghost use Rattle.std.specs.List.{AllByRecursion};
ghost use Rattle.ffm_model.specs.ManifestItems.{IsManifest, IsEntryPoint, IsStack, HasNoIrqs, HasService, IsService, IsIrq};
ghost use Rattle.ffm_model.specs.Manifests.{manifest_at, manifest_of, entry_point_of, stack_of, services_of, irqs_of};
ghost use Rattle.ffm_model.specs.Attributes.{name_of};
ghost use Rattle.serde_json.specs.View.{view};
ghost use Rattle.manifest_json.specs.Gives.{Gives, GivesRead};

use crate::error::{PartError, placed, refused, under};
use crate::items::{IrqReader, MmioReader, ServiceReader, since_1_1};
use crate::lengths::{ListUpTo, SomeOf};
use crate::reader::{ListOf, Reader, Text, optional, optional_list, required};
use crate::values::{NameReader, NumberReader, object};
use crate::words::{FrameworkWord, ModelWord, PriorityWord, RotTypeWord};
use ffm_model::{
    BAD_VALUE, IrqItem, Key, List, MIN_FUNCTION_STACK, Manifest, Name, PathStep, ReadError, Root,
    ServiceItem,
};
use serde_json::Value;
use std::alloc::Global;

/// The name of an entry point. Where services are functions, the empty name stands for none.
#[derive(Clone, Copy)]
struct EntryPointReader {
    sfn: bool,
}

impl Reader for EntryPointReader {
    type Out = Name;

    ghost gives = { λ _. name_of };

    ghost keeps = { λ r. IsEntryPoint r.sfn };

    fn read(&self, alloc: Global, tree: &Value) -> Result<Name, PartError> {
        NameReader.read(alloc, tree)
    }
}

/// The entry point of a partition. Where services are functions, none has to be named.
fn entry_point(alloc: Global, sfn: bool, tree: &Value) -> Result<Name, PartError>
    ensures given { Gives result (entry_point_of sfn (view tree.now)) }
    ensures kept { IfOk result (IsEntryPoint sfn) }
{
    let reader = EntryPointReader { sfn };
    if sfn {
        let none = Name::of(String::new(alloc));
        optional(alloc, &reader, none, tree, Key::EntryPoint)
    } else {
        required(alloc, &reader, tree, Key::EntryPoint)
    }
}

/// The bytes of a stack. Where services are functions, their messages are read there.
#[derive(Clone, Copy)]
struct StackReader {
    sfn: bool,
}

impl Reader for StackReader {
    type Out = u32;

    ghost gives = { λ r. stack_of r.sfn };

    ghost keeps = { λ r. IsStack r.sfn };

    #[tactic(auto, unfolding(ffm_model::specs::Manifests::stack_of))]
    fn read(&self, alloc: Global, tree: &Value) -> Result<u32, PartError> {
        let size = NumberReader.read(alloc, tree)?;
        if self.sfn && size < MIN_FUNCTION_STACK {
            return Err(refused(alloc, BAD_VALUE));
        }
        Ok(size)
    }
}

/// The services of a partition whose services are functions: one at least.
fn functions(alloc: Global, framework: u32, tree: &Value) -> Result<List<ServiceItem>, PartError>
    ensures given { Gives result (services_of true framework (view tree.now)) }
    ensures kept { IfOk result (AllByRecursion IsService) }
    ensures some { IfOk result (λ services. 0 < length services) }
{
    let reader = SomeOf(ListOf(ServiceReader { framework }));
    let read = match tree.get(Key::Services.text()) {
        Some(part) => reader.read(alloc, part),
        None => Err(refused(alloc, BAD_VALUE)),
    };
    under(PathStep::Key(Key::Services), read)
}

/// The services of a partition.
fn services(
    alloc: Global,
    sfn: bool,
    framework: u32,
    tree: &Value,
) -> Result<List<ServiceItem>, PartError>
    ensures given { Gives result (services_of sfn framework (view tree.now)) }
    ensures kept { IfOk result (AllByRecursion IsService) }
    ensures some { IfOk result (HasService sfn) }
{
    if sfn {
        functions(alloc, framework, tree)
    } else {
        optional_list(alloc, ServiceReader { framework }, tree, Key::Services)
    }
}

/// The interrupts of a partition: none where its services are functions.
fn irqs(alloc: Global, sfn: bool, framework: u32, tree: &Value) -> Result<List<IrqItem>, PartError>
    ensures given { Gives result (irqs_of sfn framework (view tree.now)) }
    ensures kept { IfOk result (AllByRecursion IsIrq) }
    ensures none { IfOk result (HasNoIrqs sfn) }
{
    let reader = IrqReader { framework };
    if sfn {
        let none = List::of(Vec::new(alloc));
        let reader = ListUpTo {
            reader: ListOf(reader),
            most: 0,
        };
        optional(alloc, &reader, none, tree, Key::Irqs)
    } else {
        optional_list(alloc, reader, tree, Key::Irqs)
    }
}

/// A partition's manifest.
#[derive(Clone, Copy)]
pub struct ManifestReader;

impl Reader for ManifestReader {
    type Out = Manifest;

    ghost gives = { λ _. manifest_of };

    ghost keeps = { λ _. IsManifest };

    #[tactic(auto, unfolding(ffm_model::specs::Manifests::manifest_of))]
    fn read(&self, alloc: Global, tree: &Value) -> Result<Manifest, PartError> {
        object(alloc, tree)?;
        let framework = required(alloc, &Text(FrameworkWord), tree, Key::PsaFrameworkVersion)?;
        let name = required(alloc, &NameReader, tree, Key::Name)?;
        let rot = required(alloc, &Text(RotTypeWord), tree, Key::RotKind)?;
        let priority = required(alloc, &Text(PriorityWord), tree, Key::Priority)?;
        let sfn = since_1_1(alloc, framework, &Text(ModelWord), false, tree, Key::Model)?;
        let entry_point = entry_point(alloc, sfn, tree)?;
        let stack_size = required(alloc, &StackReader { sfn }, tree, Key::StackSize)?;
        let heap_size = optional(alloc, &NumberReader, 0, tree, Key::HeapSize)?;
        let mmio = optional_list(alloc, MmioReader, tree, Key::MmioRegions)?;
        let services = services(alloc, sfn, framework, tree)?;
        let dependencies = optional_list(alloc, NameReader, tree, Key::Dependencies)?;
        let irqs = irqs(alloc, sfn, framework, tree)?;
        Ok(Manifest {
            framework,
            name,
            rot,
            priority,
            sfn,
            entry_point,
            stack_size,
            heap_size,
            mmio,
            services,
            dependencies,
            irqs,
        })
    }
}

/// The manifest that a tree stands for, the `number`th of its system file, counted from 0.
///
/// A tree that isn't a manifest is refused with its first missing attribute, value of a wrong
/// type or bad value, in the order of the attributes, and with its place in the system file. What
/// version 1.1 of the framework adds is read of a manifest that is written for it.
pub fn read_manifest(alloc: Global, tree: &Value, number: u32) -> Result<Manifest, ReadError>
    ensures { GivesRead result (manifest_at number (view tree.now)) }
{
    let read = ManifestReader.read(alloc, tree);
    let front = vec![in alloc; PathStep::Key(Key::Manifests), PathStep::Index(number)]?;
    placed(Root::System, front, read)
}
