//! The connections and messages of the tables, by their places.

ghost use Rattle.std.specs.Prelude.{◌≡◌, ◌<◌, length, Some, IsSome, slice_get};
ghost use Rattle.object_pools.specs.Pool.{item_at, IsKept};
ghost use Rattle.handle_table.specs.Table.{IsTable};

use ffm_model::OpenConnection;
use object_pools::Held;
use spm_tables::{QueuedMessage, Tables};

// The connection at a place in the order of their making.
pub(crate) fn connection_at(tables: &Tables, place: u32) -> Held<OpenConnection>
    requires { place < length tables.now.connections.held }
    ensures at { slice_get tables.now.connections.held place ≡ Some result }
    ensures item { item_at tables.now.connections result.slot ≡ Some result.item }
    ensures live { IsSome (item_at tables.now.connections result.slot) }
    ensures kept { IsKept 256 tables.now.connections }
    ensures table { IsTable tables.now.connections }
{
    tables.law();
    tables.connections().nth(place)
}

// The message at a place in the order of their making.
pub(crate) fn message_at(tables: &Tables, place: u32) -> Held<QueuedMessage>
    requires { place < length tables.now.messages.held }
    ensures at { slice_get tables.now.messages.held place ≡ Some result }
    ensures item { item_at tables.now.messages result.slot ≡ Some result.item }
    ensures kept { IsKept 304 tables.now.messages }
{
    tables.law();
    tables.messages().nth(place)
}
