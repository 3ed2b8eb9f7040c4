//! The connection of a message.

ghost use Rattle.std.specs.Prelude.{◌≡◌, IsSome, IfSome};
ghost use Rattle.ffm_model.specs.State.{connection_by_serial};
ghost use Rattle.object_pools.specs.Pool.{item_at};
ghost use Rattle.service_calls.specs.Connections.{IsLinkOf};
ghost use Rattle.spm_tables.specs.TablesView.{spm_of};

use object_pools::Slot;
use spm_tables::{QueuedMessage, Tables};

// The slot of the connection of a live message, which has to be there; None where the message is of no connection.
pub(crate) fn connection_of(tables: &Tables, slot: Slot, message: QueuedMessage) -> Option<Slot>
    requires item { item_at tables.now.messages slot ≡ Some message }
    requires there { IfSome message.serial (λ n.
        IsSome (connection_by_serial (spm_of tables.now) n)) }
    ensures { IsLinkOf tables.now.connections message result }
{
    tables.law();
    match message.serial {
        Some(_) => message.connection,
        None => None,
    }
}
