//! The interrupts that the device makes.
ghost use Rattle.std.specs.Prelude.{◌≡◌, ◌<◌, IfOk, IfSome, length, position};
ghost use Rattle.std.specs.Str.{bytes_eq};
ghost use Rattle.serde_json.specs.View.{view};
ghost use Rattle.ffm_model.specs.Scenarios.{source_named, raised_source_of, plain_raise_of, answered_raise_of, raise_of, IsRaise};
ghost use Rattle.manifest_json.specs.Gives.{Gives};

use ffm_model::{BAD_VALUE, Key, PathStep, RaiseItem, Source, System, UNKNOWN_ACTOR};
use manifest_json::{PartError, Reader, SourceReader, WholeReader, refused, refused_at, required};
use serde_json::Value;
use std::alloc::Global;

fn place_of_source(sources: &[Source], text: &str) -> Option<usize>
    ensures { result ≡ position (λ x. bytes_eq text.now x.name) sources.now }
{
    sources
        .iter()
        .position(|source| text == source.name.as_str())
}

/// The place of the source with a name.
#[tactic(auto, using(ffm_model::proofs::SourceLemmas::few_sources))]
fn source_named(system: &System, text: &str) -> Option<u32>
    ensures named { result ≡ source_named system.now text.now }
    ensures kept { IfSome result (λ source. source < length system.now.sources) }
{
    let place = place_of_source(system.sources.as_slice(), text)?;
    Some(place as u32)
}

/// An interrupt source, named as an irq item names it, as its place among the system's sources.
#[derive(Clone, Copy)]
struct RaisedSourceReader<'a> {
    system: &'a System,
}

impl Reader for RaisedSourceReader<'_> {
    type Out = u32;

    ghost gives = { λ r. raised_source_of r.system.now };

    ghost keeps = { λ r source. source < length r.system.now.sources };

    #[tactic(auto, unfolding(ffm_model::specs::Scenarios::raised_source_of))]
    fn read(&self, alloc: Global, tree: &Value) -> Result<u32, PartError> {
        let name = SourceReader.read(alloc, tree)?;
        source_named(self.system, name.as_str()).ok_or_else(|| refused(alloc, UNKNOWN_ACTOR))
    }
}

/// An interrupt by its source alone. A first-level handler then asks for its signal.
#[tactic(auto, unfolding(ffm_model::specs::Scenarios::plain_raise_of))]
fn plain_raise(alloc: Global, system: &System, tree: &Value) -> Result<RaiseItem, PartError>
    ensures given { Gives result (plain_raise_of system.now (view tree.now)) }
    ensures kept { IfOk result (IsRaise system.now) }
{
    let source = RaisedSourceReader { system }.read(alloc, tree)?;
    let result = if system.has_flih(source) {
        Some(1)
    } else {
        None
    };
    Ok(RaiseItem { source, result })
}

/// An interrupt with the answer of its first-level handler, which the source has to have.
#[tactic(auto, unfolding(ffm_model::specs::Scenarios::answered_raise_of))]
fn answered_raise(alloc: Global, system: &System, tree: &Value) -> Result<RaiseItem, PartError>
    ensures given { Gives result (answered_raise_of system.now (view tree.now)) }
    ensures kept { IfOk result (IsRaise system.now) }
{
    let answers = WholeReader { least: 0, most: 1 };
    let source = required(alloc, &RaisedSourceReader { system }, tree, Key::Source)?;
    let answer = required(alloc, &answers, tree, Key::RaiseResult)?;
    if !system.has_flih(source) {
        let step = PathStep::Key(Key::RaiseResult);
        return Err(refused_at(alloc, step, BAD_VALUE));
    }
    Ok(RaiseItem {
        source,
        result: Some(answer),
    })
}

/// An interrupt: a source, or an object with the answer of the source's first-level handler.
#[derive(Clone, Copy)]
pub(crate) struct RaiseReader<'a> {
    pub system: &'a System,
}

impl Reader for RaiseReader<'_> {
    type Out = RaiseItem;

    ghost gives = { λ r. raise_of r.system.now };

    ghost keeps = { λ r. IsRaise r.system.now };

    fn read(&self, alloc: Global, tree: &Value) -> Result<RaiseItem, PartError> {
        if tree.is_object() {
            answered_raise(alloc, self.system, tree)
        } else {
            plain_raise(alloc, self.system, tree)
        }
    }
}
