//! Lines, circles and branches that meet: each call of a graph once, and the limit of a search.
ghost use Rattle.std.specs.Prelude.{◌≡◌, ◌≤◌, Ok, true, length, IfOk};
ghost use Rattle.test_libraries.specs.Tables.{moves_of};
ghost use Rattle.state_graph.specs.Graphs.{Built, IsDone};

use crate::table::Table;
use state_graph::{Ending, Graph, ranks};
use std::alloc::Global;
use std::process::Abort;
use std::test::Fail;

// A table of steps, how many states its graph has and how many steps, a shortest way to the state that is found
// last, and the longest walk from each state, in the order in which they are found, where there is no circle.
struct Case {
    rows: &'static [(u8, u32, u8)],
    states: u32,
    steps: usize,
    way: &'static [u32],
    longest: Option<&'static [u32]>,
}

const LINE: Case = Case {
    rows: &[(0, 0, 1), (1, 0, 2), (2, 0, 3), (3, 0, 4)],
    states: 5,
    steps: 4,
    way: &[0, 0, 0, 0],
    longest: Some(&[4, 3, 2, 1, 0]),
};

// A way in, and a circle of three states.
const ROUND: Case = Case {
    rows: &[(0, 1, 1), (1, 0, 2), (2, 0, 3), (3, 1, 1)],
    states: 4,
    steps: 4,
    way: &[1, 0, 0],
    longest: None,
};

// Two branches that meet.
const MEETING: Case = Case {
    rows: &[(0, 0, 1), (0, 1, 2), (1, 1, 3), (2, 0, 3), (3, 0, 4)],
    states: 5,
    steps: 5,
    way: &[0, 1, 0],
    longest: Some(&[3, 2, 2, 1, 0]),
};

// A short way beside a longer one.
const DETOUR: Case = Case {
    rows: &[(0, 0, 1), (0, 1, 3), (1, 0, 2), (2, 0, 3), (3, 1, 4)],
    states: 5,
    steps: 5,
    way: &[1, 1],
    longest: Some(&[4, 3, 1, 2, 0]),
};

const CASES: [&Case; 4] = [&LINE, &ROUND, &MEETING, &DETOUR];

fn table(alloc: Global, case: &Case) -> Table
    ensures { (result.count ≡ 2) × (result.rows.now ≡ case.now.rows.now) }
{
    Table {
        alloc,
        count: 2,
        rows: case.rows,
    }
}

// The graph of a table, as far as a limit lets it, and whether it is whole.
fn explored(alloc: Global, steps: &mut Table, limit: u32) -> Result<(Graph, bool), Fail>
    requires { 1 ≤ limit }
    ensures built { IfOk result (λ r. Built (moves_of (steps.new.count, steps.new.rows.now)) r.0) }
    ensures few { IfOk result (λ r. length r.0.states ≤ limit) }
    ensures done { IfOk result (λ r. r.1 ≡ true → IsDone r.0) }
    ensures same { (steps.new.count ≡ steps.old.count) × (steps.new.rows.now ≡ steps.old.rows.now) }
{
    let mut graph = Graph::new(alloc, steps, vec![in alloc; 0]?)?;
    let whole = graph.explore(steps, limit)?;
    Ok((graph, whole))
}

// A limit one below the states gives no whole graph, but a front of it, which goes on to the whole.
fn assert_explored(rt: &impl Abort, alloc: Global, case: &Case) -> Result<(), Fail> {
    assert!(rt; case.states > 1);
    let mut steps = table(alloc, case);
    let (mut graph, whole) = explored(alloc, &mut steps, case.states - 1)?;
    assert!(rt; !whole && graph.expanded_count() < graph.state_count());
    assert!(rt; graph.explore(&mut steps, case.states)?);
    assert!(rt; graph.state_count() == case.states as usize && graph.step_count() == case.steps);
    assert!(rt; graph.state_count() > 0);
    let way = graph.schedule(alloc, &steps, graph.state_count() - 1)?;
    assert!(rt; way.as_slice() == case.way);
    Ok(())
}

#[test]
fn graphs_of_tables(rt: HostRuntime) -> Result<(), Fail> {
    for case in CASES {
        assert_explored(&rt, rt.alloc(), case)?;
    }
    Ok(())
}

fn ending_of(rt: &impl Abort, alloc: Global, case: &Case) -> Result<Ending, Fail> {
    assert!(rt; case.states > 0);
    let mut steps = table(alloc, case);
    let (graph, whole) = explored(alloc, &mut steps, case.states)?;
    assert!(rt; whole);
    Ok(ranks(alloc, &steps, &graph)?)
}

#[test]
fn ranks_and_circles(rt: HostRuntime) -> Result<(), Fail> {
    for case in CASES {
        match (ending_of(&rt, rt.alloc(), case)?, case.longest) {
            (Ending::Ended(ranks), Some(longest)) => assert!(rt; ranks.as_slice() == longest),
            (Ending::Circle(circle), None) => assert!(rt; circle.actions.len() == 3),
            _ => assert!(rt; false),
        }
    }
    Ok(())
}
