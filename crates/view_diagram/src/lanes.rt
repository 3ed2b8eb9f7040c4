//! The actors that take part in a diagram, and their words in a trace.
ghost use Rattle.std.specs.Prelude.{◌≡◌, ◌++◌, ◌∷◌, [], IfOk, OnOk, if◌then◌else◌, map};
ghost use Rattle.std.specs.List.{list_any};
ghost use Rattle.std.specs.Option.{option_map};
ghost use Rattle.view_diagram.specs.Diagrams.{has_lane, is_end, lanes_of};

use crate::choosing::is_among;
use crate::gathering::PlacedArrow;
use ffm_model::{ActorId, System};
use std::alloc::{AllocError, Global};

/// The actors that take part, in actor order.
#[derive(Drop)]
pub struct Lanes {
    actors: Vec<ActorId>,
}

fn is_end(placed: &PlacedArrow, actor: u32) -> bool
    ensures { result ≡ is_end actor placed.now }
{
    placed.arrow.from.0 == actor || placed.arrow.to.0 == actor
}

// Whether one of these arrows comes from the actor or goes to it.
fn is_some_end(arrows: &[PlacedArrow], actor: u32) -> bool
    ensures { result ≡ list_any (is_end actor) arrows.now }
{
    arrows.iter().any(|placed| is_end(placed, actor))
}

fn has_lane(chosen: Option<&[u32]>, arrows: &[PlacedArrow], actor: u32) -> bool
    ensures { result ≡ has_lane (option_map (λ actors. actors.now) chosen.entry) arrows.now actor }
{
    match chosen {
        Some(actors) => is_among(actors, actor),
        None => is_some_end(arrows, actor),
    }
}

// Adds an actor where a test holds.
fn add_where(actors: &mut Vec<ActorId>, is: bool, actor: u32) -> Result<(), AllocError>
    ensures { OnOk result (map (λ a. a.0) actors.new.items
        ≡ map (λ a. a.0) actors.old.items ++ (if is then actor ∷ [] else [])) }
{
    if is {
        actors.push(ActorId(actor))?;
    }
    Ok(())
}

impl Lanes {
    /// Those that were chosen; where none were, those that an arrow comes from or goes to.
    pub fn of(
        alloc: Global,
        system: &System,
        chosen: Option<&[u32]>,
        arrows: &[PlacedArrow],
    ) -> Result<Lanes, AllocError>
        ensures { IfOk result (λ lanes. map (λ a. a.0) lanes.actors.items
            ≡ lanes_of system.now (option_map (λ actors. actors.now) chosen.entry) arrows.now) }
    {
        let mut actors = Vec::new(alloc);
        for actor in 0..system.actor_count() {
            let is_there = has_lane(chosen, arrows, actor);
            add_where(&mut actors, is_there, actor)?;
        }
        Ok(Lanes { actors })
    }

    pub fn actors(&self) -> &[ActorId] {
        self.actors.as_slice()
    }

    /// The place of an actor among them, from 0.
    pub fn place(&self, actor: ActorId) -> usize {
        let place = self.actors.iter().position(|other| other.0 == actor.0);
        place.unwrap_or(0)
    }
}

/// Appends an actor's word in a trace: `p1`, `n1` or `dev`.
pub fn push_word(out: &mut String, system: &System, actor: ActorId) -> Result<(), AllocError> {
    let counts = system.counts();
    let place = actor.0;
    if place < counts.partitions {
        return write!(out, "p{}", place.saturating_add(1));
    }
    let place = place - counts.partitions;
    if place < counts.clients {
        write!(out, "n{}", place.saturating_add(1))
    } else {
        out.push_str("dev")
    }
}
