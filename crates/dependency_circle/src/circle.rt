//! The first circle.
ghost use Rattle.std.specs.Prelude.{◌≡◌, option_map, IfOk};
ghost use Rattle.ffm_model.specs.Circles.{first_circle};
ghost use Rattle.dependency_circle.specs.Circles.{AnswersCircle};

use crate::graph::Graph;
use crate::next::{is_circle, next};
use std::alloc::{AllocError, Global};

/// The first circle of the places below `count`, or None where there is no circle. Err only for want
/// of memory.
///
/// The time grows with the third power of `count`.
pub fn first_circle<G: Graph>(
    alloc: Global,
    graph: &G,
    count: u32,
) -> Result<Option<Vec<u32>>, AllocError>
    ensures first { IfOk result (λ found.
        AnswersCircle count (G.edge graph.now) (option_map (λ v. v.items) found)) }
    ensures computed { IfOk result (λ found.
        option_map (λ v. v.items) found ≡ first_circle count (G.edge graph.now)) }
{
    let mut front = Vec::new(alloc);
    'steps: while !is_circle(graph, count, front.as_slice()) {
        let Some(next) = next(alloc, graph, count, front.as_slice())? else {
            return Ok(None);
        };
        front.push(next)?;
    }
    Ok(Some(front))
}
