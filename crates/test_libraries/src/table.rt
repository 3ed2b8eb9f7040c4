//! Steps that a table lists.
ghost use Rattle.std.proofs.Common.{rules};
ghost use Rattle.std.specs.Prelude.{ℕ, ◌≡◌, List};
ghost use Rattle.test_libraries.specs.Tables.{Row, moves_of, target_of};

use state_graph::Steps;
use std::alloc::{AllocError, Global};

/// Steps between states of one byte: each row has a state, an action and the state to which it
/// leads.
#[derive(Drop)]
pub(crate) struct Table {
    pub alloc: Global,
    pub count: u32,
    pub rows: &'static [(u8, u32, u8)],
}

// Where the first row that fits leads to.
fn target_of(rows: &[(u8, u32, u8)], from: u8, action: u32) -> Option<u8>
    ensures { result ≡ target_of rows.now from action }
{
    rows.iter()
        .find(|row| row.0 == from && row.1 == action)
        .map(|row| row.2)
}

impl Steps for Table {
    ghost System = { ℕ × List Row };

    ghost system = { λ t. (t.count, t.rows.now) };

    ghost moves = { moves_of };

    fn actions(&self) -> u32 {
        self.count
    }

    fn step(&mut self, state: &[u8], action: u32) -> Result<Option<Vec<u8>>, AllocError> {
        match target_of(self.rows, state[0], action) {
            Some(target) => Ok(Some(vec![in self.alloc; target]?)),
            None => Ok(None),
        }
    }

    ghost lawful = { λ x. Prim.search rules };
}
