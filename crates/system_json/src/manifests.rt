//! A system file with its manifests, which stand in it or in files of their own.
ghost use Rattle.std.specs.Prelude.{◌≡◌, ◌<◌, ◌≤◌, [], IfOk, length};
ghost use Rattle.std.specs.List.{AllByRecursion};
ghost use Rattle.serde_json.specs.View.{view, items_view};
ghost use Rattle.ffm_model.specs.Attributes.{or_refuse};
ghost use Rattle.ffm_model.specs.ManifestItems.{IsManifest};
ghost use Rattle.ffm_model.specs.Manifests.{manifest_of};
ghost use Rattle.ffm_model.specs.Reading.{Reads, file_at};
ghost use Rattle.ffm_model.specs.Rules.{at_manifest};
ghost use Rattle.ffm_model.specs.SystemAttributes.{manifest_in, manifest_items_of, level_of, parts_with};
ghost use Rattle.ffm_model.specs.Systems.{behind, manifest_place, manifest_named, manifest_item, manifests_after, manifests_of, parts_of, system_of};
ghost use Rattle.ffm_model.specs.Trees.{tree_of};
ghost use Rattle.outside_io.specs.Files.{Asks, part_as};
ghost use Rattle.system_json.specs.Refused.{IsReadRefusal};

use crate::system::{level, parts_with};
use ffm_model::{
    BAD_VALUE, FILE_TOO_LONG, JSON, Key, List, MAX_FILE_BYTES, MISSING_ATTRIBUTE, Manifest, Parts,
    PartsError, PathStep, Place, ReadError, Refusal, Root, WRONG_TYPE,
};
use manifest_json::{ManifestReader, PartError, Reader, placed, read_tree};
use outside_io::{FileError, Files};
use serde_json::Value;
use std::alloc::{AllocError, Global};

const MAX_MANIFESTS: usize = 256;

/// More than the tree of one file takes.
const ROOM_OF_A_TREE: usize = 24 << 20;

/// The refusal of a part of the system file.
fn refused_in_system(alloc: Global, steps: &[PathStep], code: u8) -> ReadError
    ensures { IsReadRefusal result (record
        { code = code; place = record { root = Root.System; steps = steps.now }; cycle = [] }) }
{
    match steps.to_vec(alloc) {
        Ok(steps) => ReadError::Refused(Refusal {
            code,
            place: Place {
                root: Root::System,
                steps: List::of(steps),
            },
            cycle: List::of(Vec::new(alloc)),
        }),
        Err(_) => ReadError::Memory,
    }
}

/// The steps to a manifest.
fn manifest_steps(alloc: Global, number: u32) -> Result<Vec<PathStep>, AllocError>
    ensures { IfOk result (λ steps. steps.items ≡ at_manifest number) }
{
    Ok(vec![in alloc; PathStep::Key(Key::Manifests), PathStep::Index(number)]?)
}

/// The manifest that stands at this place of the system file.
fn manifest_here(alloc: Global, tree: &Value, number: u32) -> Result<Manifest, ReadError>
    ensures given { Reads (λ m. m) result
        (behind (at_manifest number) (manifest_of (view tree.now))) }
    ensures kept { IfOk result IsManifest }
{
    let front = manifest_steps(alloc, number)?;
    let read = ManifestReader.read(alloc, tree);
    placed(Root::System, front, read)
}

/// The manifest that a file's bytes spell, for this place of the system file.
fn manifest_in(alloc: Global, bytes: &[u8], number: u32) -> Result<Manifest, ReadError>
    ensures given { Reads (λ m. m) result (behind (at_manifest number) (manifest_in bytes.now)) }
    ensures kept { IfOk result IsManifest }
{
    let place = Place {
        root: Root::System,
        steps: List::of(manifest_steps(alloc, number)?),
    };
    let tree = read_tree(alloc, bytes, place)?;
    manifest_here(alloc, &tree, number)
}

/// The bytes of the file that holds a manifest.
fn manifest_bytes<F: Files>(
    alloc: Global,
    files: &mut F,
    name: &str,
    number: u32,
) -> Result<Vec<u8>, PartsError>
    ensures { Asks (F.seen files.old) (F.seen files.new) (part_as (λ bytes. bytes.items) result)
        (λ of. file_at of (manifest_place number) 1048576 name.now) }
{
    match files.read(alloc, name, MAX_FILE_BYTES) {
        Ok(bytes) => Ok(bytes),
        Err(FileError::TooLong) => {
            let steps = [PathStep::Key(Key::Manifests), PathStep::Index(number)];
            let refusal = refused_in_system(alloc, &steps, FILE_TOO_LONG);
            Err(PartsError::from(refusal))
        }
        Err(FileError::Failed) => Err(PartsError::ReadFault),
        Err(FileError::Memory) => Err(PartsError::Memory),
    }
}

/// The manifest in the named file.
fn manifest_named<F: Files>(
    alloc: Global,
    files: &mut F,
    name: &str,
    number: u32,
) -> Result<Manifest, PartsError>
    ensures asks { Asks (F.seen files.old) (F.seen files.new) (part_as (λ m. m) result)
        (λ of. manifest_named of number name.now) }
    ensures kept { IfOk result IsManifest }
{
    let bytes = manifest_bytes(alloc, files, name, number)?;
    Ok(manifest_in(alloc, &bytes, number)?)
}

/// A manifest, which stands in the system file or in the file that a text names.
fn manifest_item<F: Files>(
    alloc: Global,
    files: &mut F,
    tree: &Value,
    number: u32,
) -> Result<Manifest, PartsError>
    ensures asks { Asks (F.seen files.old) (F.seen files.new) (part_as (λ m. m) result)
        (λ of. manifest_item of number (view tree.now)) }
    ensures kept { IfOk result IsManifest }
{
    match tree.as_str() {
        Some(name) => manifest_named(alloc, files, name, number),
        None => Ok(manifest_here(alloc, tree, number)?),
    }
}

/// The manifests of a list, each in its turn.
fn manifests_from<F: Files>(
    alloc: Global,
    files: &mut F,
    items: &[Value],
) -> Result<List<Manifest>, PartsError>
    requires { length items.now ≤ 256 }
    ensures asks { Asks (F.seen files.old) (F.seen files.new) (part_as (λ ms. ms) result)
        (λ of. manifests_after of [] 0 (items_view items.now)) }
    ensures kept { IfOk result (AllByRecursion IsManifest) }
    ensures count { IfOk result (λ ms. length ms ≤ 256) }
{
    let mut found = Vec::new(alloc);
    for (i, item) in items.iter().enumerate() {
        let manifest = manifest_item(alloc, files, item, i as u32)?;
        found.push(manifest)?;
    }
    Ok(List::of(found))
}

/// The items of the list of manifests. A longer list than may be is refused before any of them is
/// read.
fn manifest_items(alloc: Global, tree: &Value) -> Result<&[Value], ReadError>
    ensures given { Reads (λ items. items_view items.now) result
        (behind [] (manifest_items_of (view tree.now))) }
    ensures few { IfOk result (λ items. length items.now ≤ 256) }
{
    let step = [PathStep::Key(Key::Manifests)];
    let Some(list) = tree.get(Key::Manifests.text()) else {
        return Err(refused_in_system(alloc, &step, MISSING_ATTRIBUTE));
    };
    let Some(items) = list.as_array() else {
        return Err(refused_in_system(alloc, &step, WRONG_TYPE));
    };
    if MAX_MANIFESTS < items.len() {
        return Err(refused_in_system(alloc, &step, BAD_VALUE));
    }
    Ok(items)
}

/// Where several manifests are files of their own, takes a large piece of memory and gives it back.
///
/// From then on the C library keeps what one file's tree gives back for the next one's. It would
/// else return it to the operating system and ask for it again, page by page, with each file. Where
/// there is no such piece nothing is lost.
fn keep_freed_memory(alloc: Global, items: &[Value]) {
    if 1 < items.iter().filter(|item| item.is_string()).count() {
        drop(Vec::<u8>::with_capacity(alloc, ROOM_OF_A_TREE));
    }
}

/// The manifests of a system file.
fn manifests<F: Files>(
    alloc: Global,
    files: &mut F,
    tree: &Value,
) -> Result<List<Manifest>, PartsError>
    ensures asks { Asks (F.seen files.old) (F.seen files.new) (part_as (λ ms. ms) result)
        (λ of. manifests_of of (view tree.now)) }
    ensures kept { IfOk result (AllByRecursion IsManifest) }
    ensures count { IfOk result (λ ms. length ms ≤ 256) }
{
    let items = manifest_items(alloc, tree)?;
    keep_freed_memory(alloc, items);
    manifests_from(alloc, files, items)
}

/// What stands before the manifests, with its place.
fn level_here(alloc: Global, tree: &Value) -> Result<u32, ReadError>
    ensures given { Reads (λ n. n) result (behind [] (level_of (view tree.now))) }
    ensures kept { IfOk result (λ level. (0 < level) × (level ≤ 3)) }
{
    let read = level(alloc, tree);
    placed(Root::System, Vec::new(alloc), read)
}

/// The whole, with what stands after the manifests.
fn parts_here(
    alloc: Global,
    level: u32,
    manifests: List<Manifest>,
    tree: &Value,
) -> Result<Parts, ReadError>
    requires level { (0 < level) × (level ≤ 3) }
    requires manifests { AllByRecursion IsManifest manifests }
    requires count { length manifests ≤ 256 }
    ensures { Reads (λ p. p) result (behind [] (parts_with level manifests (view tree.now))) }
{
    let read = parts_with(alloc, level, manifests, tree);
    placed(Root::System, Vec::new(alloc), read)
}

/// What a system file's tree says.
fn parts<F: Files>(alloc: Global, files: &mut F, tree: &Value) -> Result<Parts, PartsError>
    ensures { Asks (F.seen files.old) (F.seen files.new) (part_as (λ p. p) result)
        (λ of. parts_of of (view tree.now)) }
{
    let level = level_here(alloc, tree)?;
    let manifests = manifests(alloc, files, tree)?;
    Ok(parts_here(alloc, level, manifests, tree)?)
}

/// The tree that a system file's bytes spell.
fn system_tree(alloc: Global, bytes: &[u8]) -> Result<Value, ReadError>
    ensures { Reads view result (behind [] (or_refuse JSON (tree_of bytes.now))) }
{
    let place = Place {
        root: Root::System,
        steps: List::of(Vec::new(alloc)),
    };
    read_tree(alloc, bytes, place)
}

/// What a system file's bytes say, with the manifests that stand in it or in the files that it
/// names, and the defaults filled in.
///
/// Manifests are read in their turn, each file once at each place that names it, up to the first
/// refusal. A file's name is taken as it stands, and its manifest is placed as if it stood in the
/// system file.
///
/// # Errors
///
/// `Refused` exactly where a file gives the first refusal: it is no JSON text, misses an attribute,
/// has a value of a wrong type or a bad value, or is a manifest file of more than 1 MiB. `ReadFault`
/// only where the count of faults of `files` rose in this call, and, where it is told, the last
/// failed name is that of a manifest file that was asked for before any refusal; every other answer
/// leaves the count, and a system file that names no other file never gives it. `Memory` where no
/// memory is found.
pub fn read_system<F: Files>(
    alloc: Global,
    bytes: &[u8],
    files: &mut F,
) -> Result<Parts, PartsError>
    ensures { Asks (F.seen files.old) (F.seen files.new) (part_as (λ p. p) result)
        (λ of. system_of of bytes.now) }
{
    let tree = system_tree(alloc, bytes)?;
    parts(alloc, files, &tree)
}
