//! The actors that a diagram was asked for, and the arrows between them.
ghost use Rattle.std.specs.Prelude.{◌≡◌, IfOk};
ghost use Rattle.std.specs.Option.{option_map};
ghost use Rattle.view_diagram.specs.Diagrams.{arrows_between, is_among, is_between, is_chosen};

use crate::gathering::PlacedArrow;
use ffm_model::{ActorId, List, Memory};
use std::alloc::Global;

/// The actors that were chosen, where some were.
pub fn actors_of(chosen: &Option<Vec<u32>>) -> Option<&[u32]>
    ensures { option_map (λ actors. actors.now) result
        ≡ option_map (λ actors. actors.items) chosen.now }
{
    match chosen {
        Some(actors) => Some(actors.as_slice()),
        None => None,
    }
}

/// Whether an actor is one of these.
pub fn is_among(actors: &[u32], actor: u32) -> bool
    ensures { result ≡ is_among actors.now actor }
{
    actors.iter().any(|other| *other == actor)
}

fn is_chosen(chosen: Option<&[u32]>, actor: ActorId) -> bool
    ensures { result ≡ is_chosen (option_map (λ actors. actors.now) chosen.entry) actor.0 }
{
    match chosen {
        Some(actors) => is_among(actors, actor.0),
        None => true,
    }
}

fn is_between(chosen: Option<&[u32]>, placed: &PlacedArrow) -> bool
    ensures { result ≡ is_between (option_map (λ actors. actors.now) chosen.entry) placed.now }
{
    is_chosen(chosen, placed.arrow.from) && is_chosen(chosen, placed.arrow.to)
}

/// The arrows whose ends were chosen, or all where no actors were.
pub fn arrows_between(
    alloc: Global,
    arrows: &[PlacedArrow],
    chosen: Option<&[u32]>,
) -> Result<List<PlacedArrow>, Memory>
    ensures { IfOk result (λ kept.
        kept ≡ arrows_between (option_map (λ actors. actors.now) chosen.entry) arrows.now) }
{
    let mut kept = Vec::new(alloc);
    for placed in arrows {
        if is_between(chosen, placed) {
            kept.push(*placed)?;
        }
    }
    Ok(List::of(kept))
}
