//! The table over which a manager is shared: its rule, and what each step on it tells.
ghost use Rattle.spm_lock.specs.Views.{maker, maker_left, maker_right, joined, spent_seat};
ghost use Rattle.spm_lock.specs.Rule.{Kept, drew, looked, counted, gave_back, came};

use crate::view::View;
use atomic_table::{Join, Play, Seat, Split, Table, TableRule};
use spm_core::Spm;
use std::alloc::Global;
use std::snapshot::Snapshot;

/// Where the manager stands while no pass has it.
pub type Slot = Option<Box<Spm>>;

/// A place at the table.
pub type TurnSeat = Seat<Slot, View>;

/// The table, with one slot and three words.
pub type TurnTable = Table<Slot, View, Snapshot<Spm>, TurnRule, Global>;

/// The word with the length of the history.
pub const LENGTH: usize = 0;

/// The word that counts the tickets drawn.
pub const DRAWN: usize = 1;

/// The word that counts the tickets served.
pub const SERVED: usize = 2;

/// What the table keeps.
pub struct TurnRule;

impl TableRule<Slot, View, Snapshot<Spm>> for TurnRule {
    ghost holds = { λ key. Kept (λ b. b.value) key.value };

    ghost first = { λ key. maker key.value 0 };
}

/// A ticket is drawn.
pub struct Draw;

impl Play<Slot, View> for Draw {
    ghost then = { λ _. drew (λ b. b.value) };
}

/// A waiter looks whether its ticket is served.
pub struct Look;

impl Play<Slot, View> for Look {
    ghost then = { λ _. looked (λ b. b.value) };
}

/// An event that was made is counted.
pub struct Count;

impl Play<Slot, View> for Count {
    ghost then = { λ st. counted (λ b. b.value) st.said };
}

/// The next ticket is served.
pub struct Serve;

impl Play<Slot, View> for Serve {
    ghost then = { λ _. gave_back (λ b. b.value) };
}

/// A seat comes that takes the passes in.
pub struct Come;

impl Play<Slot, View> for Come {
    ghost then = { λ _. came (λ b. b.value) };
}

/// The next actor's pass is split off.
pub struct SplitPass;

impl Split<View> for SplitPass {
    ghost left = { maker_left };

    ghost right = { maker_right };
}

/// A pass is taken in.
pub struct JoinPass;

impl Join<View> for JoinPass {
    ghost both = { joined };

    ghost spent = { spent_seat };
}
