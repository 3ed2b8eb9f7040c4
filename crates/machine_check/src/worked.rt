//! Worked audits: which changes the entries of a small system have, and which they don't have.
ghost use Rattle.std.specs.Prelude.{[], ◌∷◌, None, Some};
ghost use Rattle.machine_check.specs.declared.auditing.Change.{Change};
ghost use Rattle.machine_check.specs.Worked.{ChangeZeros, first_change, loads, stores};

/// A partition stores one byte in its own RAM, in its neighbour's, or the byte that is there, and loads
/// one.
pub fn changes_of_stores()
    ensures own { ChangeZeros (stores 0x30000004 7 ∷ []) (first_change 0x30000004 1 None ∷ []) }
    ensures outside { ChangeZeros (stores 0x30000020 7 ∷ [])
        (first_change 0x30000020 1 (Some 0x30000020) ∷ []) }
    ensures same_byte { ChangeZeros (stores 0x30000004 0 ∷ []) [] }
    ensures load { ChangeZeros (loads 0x30000004 ∷ []) [] }
{}

/// A changed byte can't be left out, counted twice, told at another place or address, or as one of its
/// actor's own RAM where it is not. No change can be told where no byte differs.
pub fn false_changes()
    ensures left_out { ChangeZeros (stores 0x30000004 7 ∷ []) [] → ⊥ }
    ensures counted_twice { ChangeZeros (stores 0x30000004 7 ∷ [])
        (first_change 0x30000004 2 None ∷ [])
        → ⊥ }
    ensures another_address { ChangeZeros (stores 0x30000004 7 ∷ [])
        (first_change 0x30000005 1 None ∷ [])
        → ⊥ }
    ensures not_outside { ChangeZeros (stores 0x30000020 7 ∷ [])
        (first_change 0x30000020 1 None ∷ [])
        → ⊥ }
    ensures another_place { ChangeZeros (loads 0x30000004 ∷ stores 0x30000004 7 ∷ [])
        (first_change 0x30000004 1 None ∷ [])
        → ⊥ }
    ensures made_up { (change : Change) → ChangeZeros (loads 0x30000004 ∷ []) (change ∷ []) → ⊥ }
{}
