//! Which places have a way home.
ghost use Rattle.std.specs.Prelude.{◌≡◌, ℕ, ◌+◌, ◌<◌, ◌&&◌, ◌++◌, ◌∷◌, [], not, false, true, length, vec_len, slice_set, slice_index_or, IfOk, OnOk, filter};
ghost use Rattle.std.specs.List.{range_with_len};
ghost use Rattle.ffm_model.specs.Circles.{is_new};
ghost use Rattle.dependency_circle.specs.Ways.{is_unmarked_before, IsMarked, MarksMore, TellsWays};

use crate::graph::Graph;
use std::alloc::{AllocError, Global};

/// Whether the place is none of the others.
pub fn is_new(place: u32, others: &[u32]) -> bool
    ensures { result ≡ is_new place others.now }
{
    !others.contains(&place)
}

// One mark for each place below `count`: whether it is one of `front`.
fn marks_of(alloc: Global, count: u32, front: &[u32]) -> Result<Vec<bool>, AllocError>
    ensures { IfOk result (λ marks. IsMarked count front.now [] marks.items) }
{
    let mut marks = Vec::with_capacity(alloc, count as usize)?;
    for x in 0..count {
        marks.push(!is_new(x, front))?;
    }
    Ok(marks)
}

fn is_unmarked_before<G: Graph>(graph: &G, marks: &[bool], x: u32, y: u32) -> bool
    requires { x < length marks.now }
    ensures { result ≡ is_unmarked_before marks.now (G.edge graph.now) y x }
{
    !marks[x as usize] && graph.edge(x, y)
}

fn add(found: &mut Vec<u32>, marks: &mut Vec<bool>, x: u32) -> Result<(), AllocError>
    requires { x < vec_len marks.old }
    ensures found { OnOk result (found.new.items ≡ found.old.items ++ x ∷ []) }
    ensures marks { OnOk result (marks.new.items ≡ slice_set marks.old.items x true) }
{
    found.push(x)?;
    marks[x as usize] = true;
    Ok(())
}

// Marks the places with an edge to `y`, and adds those that had no mark.
fn spread<G: Graph>(
    graph: &G,
    count: u32,
    y: u32,
    found: &mut Vec<u32>,
    marks: &mut Vec<bool>,
) -> Result<(), AllocError>
    requires { vec_len marks.old ≡ count }
    ensures found { OnOk result (found.new.items ≡ found.old.items
        ++ filter (is_unmarked_before marks.old.items (G.edge graph.now) y)
        (range_with_len 0 count)) }
    ensures marks { OnOk result
        (MarksMore count (G.edge graph.now) y marks.old.items marks.new.items) }
{
    for x in 0..count {
        if is_unmarked_before(graph, marks.as_slice(), x, y) {
            add(found, marks, x)?;
        }
    }
    Ok(())
}

/// One mark for each place below `count`: for those outside of `front`, whether the place has a way
/// to `home` by different places that are none of `front`.
pub fn ways<G: Graph>(
    alloc: Global,
    graph: &G,
    count: u32,
    home: u32,
    front: &[u32],
) -> Result<Vec<bool>, AllocError>
    ensures { IfOk result (λ marks. TellsWays count (G.edge graph.now) home front.now marks.items) }
{
    let mut marks = marks_of(alloc, count, front)?;
    let mut found = Vec::new(alloc);
    spread(graph, count, home, &mut found, &mut marks)?;
    let mut i = 0usize;
    'places: while i < found.len() {
        let y = found[i];
        spread(graph, count, y, &mut found, &mut marks)?;
        i += 1;
    }
    Ok(marks)
}
