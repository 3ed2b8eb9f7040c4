//! How many connections each permitted pair may have.
ghost use Rattle.std.specs.Prelude.{◌≡◌, [], ◌&&◌, not, length, map, filter, nat_lt, sum_by, option_map, IfOk};
ghost use Rattle.std.specs.List.{list_any, enumerate_from};
ghost use Rattle.ffm_model.specs.Permissions.{permitted, is_for, budgets_of};
ghost use Rattle.ffm_model.specs.Repeats.{first};
ghost use Rattle.ffm_model.specs.Rules.{too_many_connections, too_many_partitions, too_many_signals, budgets_without_permission};
ghost use Rattle.manifest_compile.specs.Keeps.{Keeps};
ghost use Rattle.manifest_compile.specs.Pairs.{pair_seen};
ghost use Rattle.manifest_compile.specs.Budgets.{has_pair, TellsCounts, HasPairs, budget_by};

use crate::pairs::{Pair, pairs};
use crate::refusals::refused;
use ffm_model::{
    ActorId, BUDGET_WITHOUT_PERMISSION, Budget, ConnectionItem, Key, MAX_CONNECTIONS, Parts,
    PathStep, ReadError, TOO_MANY_CONNECTIONS,
};
use std::alloc::{AllocError, Global};
use std::collections::{BTreeMap, BTreeSet};

fn names_of(connection: &ConnectionItem) -> (&str, &str)
    ensures client { result.0.now ≡ connection.now.client }
    ensures service { result.1.now ≡ connection.now.service }
{
    (connection.client.as_str(), connection.service.as_str())
}

fn count_of(connection: &ConnectionItem) -> u32
    ensures { result ≡ connection.now.count }
{
    connection.count
}

// Of several items for the same names the last one counts.
fn counts_of<'a>(
    alloc: Global,
    connections: &'a [ConnectionItem],
) -> Result<BTreeMap<(&'a str, &'a str), u32>, AllocError>
    ensures { IfOk result (λ counts. TellsCounts counts connections.now) }
{
    let mut counts = BTreeMap::new(alloc);
    for connection in connections {
        counts.insert(names_of(connection), count_of(connection))?;
    }
    Ok(counts)
}

fn budget_of<'a>(counts: &BTreeMap<(&'a str, &'a str), u32>, pair: &Pair<'a>) -> Budget
    ensures { result ≡ budget_by counts.now (pair_seen pair.now) }
{
    let names = (pair.client_name, pair.service_name);
    let count = if pair.connects {
        counts.get(&names).copied().unwrap_or(1)
    } else {
        0
    };
    Budget {
        client: ActorId(pair.client),
        service: pair.service,
        count,
    }
}

// The budgets of all permitted pairs.
fn all_budgets<'a>(
    alloc: Global,
    parts: &'a Parts,
    pairs: &[Pair<'a>],
) -> Result<Vec<Budget>, AllocError>
    requires { map pair_seen pairs.now ≡ permitted parts.now }
    ensures { IfOk result (λ budgets. budgets.items ≡ budgets_of parts.now) }
{
    let counts = counts_of(alloc, parts.connections.as_slice())?;
    let mut budgets = Vec::new(alloc);
    for pair in pairs {
        budgets.push(budget_of(&counts, pair))?;
    }
    Ok(budgets)
}

fn are_too_many(budgets: &[Budget]) -> bool
    ensures { result ≡ nat_lt MAX_CONNECTIONS (sum_by (λ b. b.count) budgets.now) }
{
    let mut left = MAX_CONNECTIONS;
    for budget in budgets {
        if budget.count > left {
            return true;
        }
        left -= budget.count;
    }
    false
}

// The budgets of all permitted pairs. Refused where their connections are too many.
fn budgets<'a>(
    alloc: Global,
    parts: &'a Parts,
    pairs: &[Pair<'a>],
) -> Result<Vec<Budget>, ReadError>
    requires { map pair_seen pairs.now ≡ permitted parts.now }
    ensures keeps { Keeps result (too_many_connections parts.now) }
    ensures budgets { IfOk result (λ budgets. budgets.items ≡ budgets_of parts.now) }
{
    let budgets = all_budgets(alloc, parts, pairs)?;
    if are_too_many(budgets.as_slice()) {
        return refused(
            alloc,
            TOO_MANY_CONNECTIONS,
            &[PathStep::Key(Key::Connections)],
        );
    }
    Ok(budgets)
}

/// All permitted pairs, with their budgets. No partition may have too many signals, and there may
/// not be too many partitions. Refused where the connections are too many.
pub fn pairs_with_budgets(
    alloc: Global,
    parts: &Parts,
) -> Result<(Vec<Pair<'_>>, Vec<Budget>), ReadError>
    requires signals { too_many_signals parts.now ≡ [] }
    requires partitions { too_many_partitions parts.now ≡ [] }
    ensures keeps { Keeps result (too_many_connections parts.now) }
    ensures pairs { IfOk result (λ found. map pair_seen found.0.items ≡ permitted parts.now) }
    ensures budgets { IfOk result (λ found. found.1.items ≡ budgets_of parts.now) }
{
    let pairs = pairs(alloc, parts)?;
    let budgets = budgets(alloc, parts, pairs.as_slice())?;
    Ok((pairs, budgets))
}

// Each number fits 32 bits where there is memory for so many items.
fn number(index: usize) -> Result<u32, AllocError>
    ensures { IfOk result (λ n. n ≡ index) }
{
    u32::try_from(index).map_err(|_| AllocError)
}

// The names of the pairs that connect.
fn names_of_pairs<'a>(
    alloc: Global,
    pairs: &[Pair<'a>],
) -> Result<BTreeSet<(&'a str, &'a str)>, AllocError>
    ensures { IfOk result (λ names. HasPairs names (map pair_seen pairs.now)) }
{
    let mut names = BTreeSet::new(alloc);
    for pair in pairs {
        if pair.connects {
            names.insert((pair.client_name, pair.service_name))?;
        }
    }
    Ok(names)
}

fn is_permitted<'a>(names: &BTreeSet<(&'a str, &'a str)>, connection: &'a ConnectionItem) -> bool
    ensures { result ≡ has_pair names.now connection.now.client connection.now.service }
{
    let key = names_of(connection);
    names.contains(&key)
}

// The place of the first item of `connections` that is for no permitted pair, or for one of a
// stateless service.
fn first_without_permission<'a>(
    alloc: Global,
    parts: &'a Parts,
    pairs: &[Pair<'a>],
) -> Result<Option<u32>, AllocError>
    requires { map pair_seen pairs.now ≡ permitted parts.now }
    ensures { IfOk result (λ found.
        found ≡ option_map (λ e. e.0) (first (filter (λ e.
        not (list_any (λ pair. pair.connects && is_for pair e.1) (permitted parts.now)))
        (enumerate_from 0 parts.now.connections)))) }
{
    if parts.connections.is_empty() {
        return Ok(None);
    }
    let names = names_of_pairs(alloc, pairs)?;
    for (place, connection) in parts.connections.as_slice().iter().enumerate() {
        if !is_permitted(&names, connection) {
            return Ok(Some(number(place)?));
        }
    }
    Ok(None)
}

/// Refuses the first item of `connections` that is for none of the permitted pairs, or for one of a
/// stateless service.
pub fn budgets_are_permitted<'a>(
    alloc: Global,
    parts: &'a Parts,
    pairs: &[Pair<'a>],
) -> Result<(), ReadError>
    requires { map pair_seen pairs.now ≡ permitted parts.now }
    ensures { Keeps result (budgets_without_permission parts.now) }
{
    match first_without_permission(alloc, parts, pairs)? {
        Some(place) => refused(
            alloc,
            BUDGET_WITHOUT_PERMISSION,
            &[PathStep::Key(Key::Connections), PathStep::Index(place)],
        ),
        None => Ok(()),
    }
}
