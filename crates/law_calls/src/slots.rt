//! The law that tables take and put back slots as the machine names them.
//!
//! The functions here do nothing. Each one's contract is a law of the tables of `spm_tables` and the names of
//! `ffm_model`. The modules of `proofs/` offer the same laws, change by change, to the crates above.

ghost use Rattle.std.specs.Prelude.{◌≡◌, ℕ, ℤ, ◌+◌, Bool, false, not, is_some, List, length, None, Some, find, filter, All};
ghost use Rattle.ffm_model.specs.declared.system.System.{System};
ghost use Rattle.ffm_model.specs.declared.machine.Call.TheVariants as call;
ghost use Rattle.ffm_model.specs.declared.machine.Handle.{Handle};
ghost use Rattle.ffm_model.specs.declared.objects.ActorPhase.TheVariants as actor;
ghost use Rattle.ffm_model.specs.declared.objects.OpenConnection.{OpenConnection};
ghost use Rattle.ffm_model.specs.declared.objects.PendingMessage.{PendingMessage};
ghost use Rattle.ffm_model.specs.Actors.{is_service_of};
ghost use Rattle.ffm_model.specs.Memory.{ByteMap};
ghost use Rattle.ffm_model.specs.Names.{NamesSoFar, SlotName, message_capacity, name_due, no_names, stays};
ghost use Rattle.ffm_model.specs.Panic.{panic_effect};
ghost use Rattle.ffm_model.specs.ServiceCalls.{service_of_signal};
ghost use Rattle.law_calls.specs.Replies.{reply_on};
ghost use Rattle.ffm_model.specs.State.{opening_spm, phase_of};
ghost use Rattle.object_pools.specs.declared.slot.Slot.{Slot};
ghost use Rattle.object_pools.specs.declared.slot.Held.{Held};
ghost use Rattle.object_pools.specs.Pool.{IsKept, Places, free_slot, item_at, taken, with_item, without};
ghost use Rattle.handle_table.specs.declared.handles.Family.TheVariants as family;
ghost use Rattle.handle_table.specs.Handles.{handle_at};
ghost use Rattle.handle_table.specs.Table.{IsTable};
ghost use Rattle.law_counting.specs.Objects.{ObjectsFit};
ghost use Rattle.spm_tables.specs.declared.item.QueuedMessage.{QueuedMessage};
ghost use Rattle.spm_tables.specs.Answers.{state_with};
ghost use Rattle.spm_tables.specs.TablesView.{TablesView, MadeFor, spm_of, waits_for};
ghost use Rattle.law_calls.specs.Named.{FollowsNames, KeepsFreshConnections, KeepsFreshMessages, KeepsGiven, NamesAre};
ghost use Rattle.law_calls.specs.PoolChanges.{OneMessageEach, PairsOff, KeepsConnectionNames, TakesOn, names_of};

/// Tables whose slots have the machine's names keep them through each change that a call makes: a connection or
/// a message stays in its slot, is taken in, or goes.
pub fn slots_follow_names()
    ensures untouched { (s : System) (old new : TablesView) → new.connections ≡ old.connections
        → new.messages ≡ old.messages
        → FollowsNames s old new }
    ensures connection_changes { (s : System) (old new : TablesView) (slot : Slot)
        (c changed : OpenConnection)
        → IsKept 256 old.connections → item_at old.connections slot ≡ Some c
        → changed.serial ≡ c.serial → new.connections ≡ with_item old.connections slot changed
        → new.messages ≡ old.messages
        → FollowsNames s old new }
    ensures message_changes { (s : System) (old new : TablesView) (place : Slot)
        (m changed : QueuedMessage)
        → IsKept 304 old.messages → item_at old.messages place ≡ Some m → changed.serial ≡ m.serial
        → (changed.serial ≡ None → changed.client ≡ m.client) → changed.kind ≡ m.kind
        → new.connections ≡ old.connections → new.messages ≡ with_item old.messages place changed
        → FollowsNames s old new }

    // psa_connect
    ensures connection_is_made { (s : System) (old new : TablesView) (slot place : Slot)
        (c : OpenConnection) (m : QueuedMessage)
        → MadeFor old s → IsTable old.connections → free_slot old.connections ≡ Some slot
        → c.serial ≡ old.connections.takes → new.connections ≡ taken old.connections slot c
        → free_slot old.messages ≡ Some place → new.messages ≡ taken old.messages place m
        → FollowsNames s old new }

    // psa_call, and psa_close of a connection that isn't dead
    ensures message_is_sent { (s : System) (old new : TablesView) (slot place : Slot)
        (c changed : OpenConnection) (m : QueuedMessage)
        → MadeFor old s → IsKept 256 old.connections → item_at old.connections slot ≡ Some c
        → changed.serial ≡ c.serial → new.connections ≡ with_item old.connections slot changed
        → free_slot old.messages ≡ Some place → new.messages ≡ taken old.messages place m
        → FollowsNames s old new }

    // psa_close of a dead connection
    ensures connection_goes { (s : System) (old new : TablesView) (slot : Slot)
        → new.connections ≡ without old.connections slot → new.messages ≡ old.messages
        → FollowsNames s old new }

    // psa_reply
    ensures message_goes { (s : System) (old new : TablesView) (place : Slot)
        → OneMessageEach (spm_of old) → new.connections ≡ old.connections
        → new.messages ≡ without old.messages place
        → FollowsNames s old new }
    ensures message_is_answered { (s : System) (old new : TablesView) (place slot : Slot)
        (c changed : OpenConnection)
        → OneMessageEach (spm_of old) → IsKept 256 old.connections
        → item_at old.connections slot ≡ Some c → changed.serial ≡ c.serial
        → new.connections ≡ with_item old.connections slot changed
        → new.messages ≡ without old.messages place
        → FollowsNames s old new }
    ensures both_go { (s : System) (old new : TablesView) (place slot : Slot)
        → OneMessageEach (spm_of old) → new.connections ≡ without old.connections slot
        → new.messages ≡ without old.messages place
        → FollowsNames s old new }
{}

/// An event that first removes connections and messages and then takes messages in, one after another, keeps the
/// names: so does a panic. A reply and the panic that it owes are one event.
pub fn panics_follow_names()
    ensures messages_go { (size : ℕ) (old new : TablesView) (stay : Held QueuedMessage → Bool)
        → KeepsConnectionNames old.connections new.connections
        → new.messages ≡ record old.messages { held = filter stay old.messages.held }
        → TakesOn size old (names_of stay old.messages) 0 new }
    ensures connections_go { (size : ℕ) (old mid new : TablesView) (kept : List SlotName) (n : ℕ)
        → TakesOn size old kept n mid → KeepsConnectionNames mid.connections new.connections
        → new.messages ≡ mid.messages
        → TakesOn size old kept n new }
    ensures message_comes { (size : ℕ) (old mid new : TablesView) (kept : List SlotName) (n : ℕ)
        (place : Slot) (m : QueuedMessage)
        → TakesOn size old kept n mid → length mid.messages.generations ≡ size
        → free_slot mid.messages ≡ Some place → KeepsConnectionNames mid.connections new.connections
        → new.messages ≡ taken mid.messages place m
        → TakesOn size old kept (n + 1) new }
    ensures panic { (s : System) (old new : TablesView) (partition : ℕ)
        (kept : List SlotName) (n : ℕ)
        → PairsOff (spm_of old) → spm_of new ≡ panic_effect s (spm_of old) partition
        → kept ≡ names_of (λ h. not (is_service_of s partition h.item.service)) old.messages
        → TakesOn (message_capacity s) old kept n new
        → FollowsNames s old new }
    ensures both { (s : System) (old mid new : TablesView) (stay : PendingMessage → Bool)
        → FollowsNames s old mid → FollowsNames s mid new
        → (spm_of mid).messages ≡ filter stay (spm_of old).messages
        → mid.connections.takes ≡ old.connections.takes
        → new.connections.takes ≡ mid.connections.takes
        → All (λ m.
        stay m ≡ false
        → (stays (spm_of mid).messages m ≡ false)
        × (stays (spm_of new).messages m ≡ false)) (spm_of old).messages
        → FollowsNames s old new }
    ensures owed { (s : System) (old mid new : TablesView) (a partition : ℕ)
        (h : Handle) (status : ℤ)
        → ObjectsFit s (spm_of old)
        → reply_on s (spm_of old) a h status
        ≡ Some (record { spm = spm_of mid; owing = Some partition })
        → spm_of new ≡ panic_effect s (spm_of mid) partition → FollowsNames s old mid
        → FollowsNames s mid new
        → FollowsNames s old new }
{}

/// What changes of the tables leave of the handles given: if none of them is that of a generation to come, or of a
/// connection or message that has none yet, none is so after the change. A change that takes a connection's handle or a
/// message's delivery back doesn't keep this.
pub fn handles_stay_given()
    ensures untouched { (old new : TablesView) → new.connections ≡ old.connections
        → new.messages ≡ old.messages
        → KeepsGiven old new }

    // of one pool, whatever becomes of the other
    ensures connection_changes { (p : Places OpenConnection) (slot : Slot)
        (c changed : OpenConnection)
        → item_at p slot ≡ Some c → (is_some changed.handle ≡ false → is_some c.handle ≡ false)
        → KeepsFreshConnections p (with_item p slot changed) }
    ensures connection_comes { (p : Places OpenConnection) (slot : Slot) (c : OpenConnection)
        → free_slot p ≡ Some slot
        → KeepsFreshConnections p (taken p slot c) }
    ensures connections_go { (p : Places OpenConnection) (stay : Held OpenConnection → Bool)
        → KeepsFreshConnections p (record p { held = filter stay p.held }) }
    ensures message_changes { (p : Places QueuedMessage) (place : Slot) (m changed : QueuedMessage)
        → item_at p place ≡ Some m → (changed.delivered ≡ false → m.delivered ≡ false)
        → KeepsFreshMessages p (with_item p place changed) }
    ensures message_comes { (p : Places QueuedMessage) (place : Slot) (m : QueuedMessage)
        → free_slot p ≡ Some place
        → KeepsFreshMessages p (taken p place m) }
    ensures messages_go { (p : Places QueuedMessage) (stay : Held QueuedMessage → Bool)
        → KeepsFreshMessages p (record p { held = filter stay p.held }) }

    ensures both { (old mid new : TablesView) → KeepsGiven old mid → KeepsGiven mid new
        → KeepsGiven old new }
{}

/// Tables begin without names, and the handle of a slot is the name that a call has to show.
pub fn handles_are_names()
    ensures opening { (s : System) (d : TablesView) → IsKept 256 d.connections
        → IsKept 304 d.messages → spm_of d ≡ opening_spm s → d.messages.takes ≡ 0
        → NamesAre d no_names }
    ensures at_return { (s : System) (d : TablesView) (given : List Handle) (m : ByteMap) (a : ℕ)
        (k : NamesSoFar) (slot : Slot) (c : OpenConnection)
        → NamesAre d k → item_at d.connections slot ≡ Some c
        → phase_of (spm_of d) a ≡ actor.Connected c.serial
        → name_due s (state_with d given m) a call.Resume k
        ≡ Some (handle_at family.Connection slot) }
    ensures at_get { (s : System) (d : TablesView) (given : List Handle) (m : ByteMap)
        (a signal msg service : ℕ) (k : NamesSoFar) (h : Held QueuedMessage)
        → NamesAre d k → service_of_signal s a signal ≡ Some service
        → find (waits_for service) d.messages.held ≡ Some h
        → name_due s (state_with d given m) a (call.Get signal msg) k
        ≡ Some (handle_at family.Message h.slot) }
{}
