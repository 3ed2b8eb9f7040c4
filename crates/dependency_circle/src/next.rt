//! The next place of the first circle.
ghost use Rattle.std.specs.Prelude.{◌≡◌, ◌∷◌, [], ◌<◌, length, IfOk, nat_lt, slice_index_or, false, ◌&&◌};
ghost use Rattle.ffm_model.specs.Circles.{is_circle, is_way, is_new, are_different};
ghost use Rattle.dependency_circle.specs.Ways.{goes, IsNext, TellsWays};

use crate::graph::Graph;
use crate::ways::{is_new, ways};
use std::alloc::{AllocError, Global};

fn are_different(places: &[u32]) -> bool
    ensures { result ≡ are_different places.now }
{
    match places {
        [] => true,
        [first, rest @ ..] => is_new(*first, rest) && are_different(rest),
    }
}

// Whether edges go from a place through the others home.
fn is_way<G: Graph>(graph: &G, count: u32, home: u32, from: u32, through: &[u32]) -> bool
    ensures { result ≡ is_way count (G.edge graph.now) home from through.now }
{
    match through {
        [] => graph.edge(from, home),
        [y, rest @ ..] => {
            *y < count && graph.edge(from, *y) && is_way(graph, count, home, *y, rest)
        }
    }
}

/// Whether the list is a circle.
pub fn is_circle<G: Graph>(graph: &G, count: u32, places: &[u32]) -> bool
    ensures { result ≡ is_circle count (G.edge graph.now) places.now }
{
    match places {
        [] => false,
        [home, rest @ ..] => {
            *home < count && are_different(places) && is_way(graph, count, *home, *home, rest)
        }
    }
}

// Whether edges go from one place through the others to the last one.
fn goes<G: Graph>(graph: &G, count: u32, from: u32, through: &[u32], to: u32) -> bool
    ensures { result ≡ goes count (G.edge graph.now) from through.now to }
{
    match through {
        [] => to < count && graph.edge(from, to),
        [y, rest @ ..] => *y < count && graph.edge(from, *y) && goes(graph, count, *y, rest, to),
    }
}

// Where this is false, no circle begins with `front`.
fn begins_well(count: u32, home: u32, front: &[u32]) -> bool
    ensures { result ≡ (nat_lt home count && are_different front.now) }
{
    home < count && are_different(front)
}

// Whether a circle begins with `front`, which is `home` and `rest`, and then `k`.
fn goes_on<G: Graph>(
    graph: &G,
    count: u32,
    front: &[u32],
    home: u32,
    rest: &[u32],
    marks: &[bool],
    k: u32,
) -> bool
    requires { k < length marks.now }
    ensures { result ≡ (slice_index_or marks.now k false
        && (is_new k front.now && goes count (G.edge graph.now) home rest.now k)) }
{
    marks[k as usize] && is_new(k, front) && goes(graph, count, home, rest, k)
}

fn next_after<G: Graph>(
    alloc: Global,
    graph: &G,
    count: u32,
    front: &[u32],
    home: u32,
    rest: &[u32],
) -> Result<Option<u32>, AllocError>
    requires { front.now ≡ home ∷ rest.now }
    ensures { IfOk result (IsNext count (G.edge graph.now) front.now) }
{
    if !begins_well(count, home, front) {
        return Ok(None);
    }
    let marks = ways(alloc, graph, count, home, front)?;
    for k in 0..count {
        if goes_on(graph, count, front, home, rest, marks.as_slice(), k) {
            return Ok(Some(k));
        }
    }
    Ok(None)
}

fn next_first<G: Graph>(alloc: Global, graph: &G, count: u32) -> Result<Option<u32>, AllocError>
    ensures { IfOk result (IsNext count (G.edge graph.now) []) }
{
    for home in 0..count {
        let marks = ways(alloc, graph, count, home, &[])?;
        if marks[home as usize] {
            return Ok(Some(home));
        }
    }
    Ok(None)
}

/// The least place that comes next in a circle that begins with `front`. None where no place does.
pub fn next<G: Graph>(
    alloc: Global,
    graph: &G,
    count: u32,
    front: &[u32],
) -> Result<Option<u32>, AllocError>
    ensures { IfOk result (IsNext count (G.edge graph.now) front.now) }
{
    match front {
        [] => next_first(alloc, graph, count),
        [home, rest @ ..] => next_after(alloc, graph, count, front, *home, rest),
    }
}
