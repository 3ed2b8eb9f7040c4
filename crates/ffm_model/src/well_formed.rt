//! Whether the parts of a system fit each other.
ghost use Rattle.std.specs.Prelude.{◌≡◌, ℕ, ◌+◌, ◌<◌, ◌≤◌, ◌==◌, ◌^◌, ◌&&◌, ◌||◌, not, true, false, length, slice_get, sum_by, count_by, nat_lt, nat_le};
ghost use Rattle.std.specs.List.{list_all, list_any, enumerate_from};
ghost use Rattle.std.specs.Option.{option_map_or};
ghost use Rattle.ffm_model.specs.WellFormed.{each_pair, apart, is_ram_in, is_ram, is_nonsecure, owner_below, regions_fit, is_signal_bit, signal_fits, signals_fit, is_well_formed, partitions_fit, budgets_fit, budget_before, budget_is_fitting, stateless_fit, ram_size, functions_fit, models_fit};
ghost use Rattle.ffm_model.specs.declared.constants.TheConstants.{MAX_STATELESS};

use crate::constants::MAX_STATELESS;
use crate::name::Name;
use crate::system::{Budget, Class, Partition, Region, Service, Source};

fn are_apart(a: &Region, b: &Region) -> bool
    ensures { result ≡ apart a.now b.now }
{
    a.size == 0
        || (b.size == 0
            || (a.base as u64 + a.size as u64 <= b.base as u64
                || b.base as u64 + b.size as u64 <= a.base as u64))
}

fn are_all_apart_from(region: &Region, rest: &[Region]) -> bool
    ensures { result ≡ list_all (apart region.now) rest.now }
{
    rest.iter().all(|r| are_apart(region, r))
}

fn all_apart(regions: &[Region]) -> bool
    ensures { result ≡ each_pair apart regions.now }
{
    match regions {
        [] => true,
        [first, rest @ ..] => are_all_apart_from(first, rest) && all_apart(rest),
    }
}

fn is_non_secure(region: &Region) -> bool
    ensures { result ≡ is_nonsecure region.now.class }
{
    matches!(region.class, Class::NonSecure)
}

fn is_region_right(region: &Region, partitions: usize) -> bool
    ensures { result ≡ owner_below partitions region.now.class && nat_le region.now.size 1048576
        && nat_le (region.now.base + region.now.size) 4294967296 }
{
    let owned = match region.class {
        Class::Mmio { owner, .. } => (owner as usize) < partitions,
        _ => true,
    };
    owned && region.size <= 1048576 && region.base as u64 + region.size as u64 <= 4294967296
}

fn non_secure_count(regions: &[Region]) -> usize
    ensures { result ≡ count_by (λ r. is_nonsecure r.class) regions.now }
{
    regions.iter().filter(|r| is_non_secure(r)).count()
}

fn total_size(regions: &[Region]) -> u64
    requires { length regions.now < 2 ^ 31 }
    ensures { result ≡ sum_by (λ r. r.size) regions.now }
{
    regions.iter().map(|r| r.size as u64).sum()
}

fn are_regions_right(regions: &[Region], partitions: usize) -> bool
    ensures { result ≡ list_all (λ r.
        owner_below partitions r.class && nat_le r.size 1048576
        && nat_le (r.base + r.size) 4294967296) regions.now }
{
    regions.iter().all(|r| is_region_right(r, partitions))
}

/// Whether the regions lie apart, within the limits, with one non-secure RAM.
pub(crate) fn do_regions_fit(partitions: usize, regions: &[Region]) -> bool
    requires { length regions.now < 2 ^ 31 }
    ensures { result ≡ regions_fit partitions regions.now }
{
    non_secure_count(regions) == 1
        && are_regions_right(regions, partitions)
        && total_size(regions) <= 16777216
        && all_apart(regions)
}

fn comes_before(a: &Budget, b: &Budget) -> bool
    ensures { result ≡ budget_before a.now b.now }
{
    a.client.0 < b.client.0 || (a.client.0 == b.client.0 && a.service < b.service)
}

fn comes_before_all(budget: &Budget, rest: &[Budget]) -> bool
    ensures { result ≡ list_all (budget_before budget.now) rest.now }
{
    rest.iter().all(|b| comes_before(budget, b))
}

fn are_in_order(budgets: &[Budget]) -> bool
    ensures { result ≡ each_pair budget_before budgets.now }
{
    match budgets {
        [] => true,
        [first, rest @ ..] => comes_before_all(first, rest) && are_in_order(rest),
    }
}

fn is_budget_right(budget: &Budget, actors: usize, services: &[Service]) -> bool
    ensures { result ≡ nat_lt budget.now.client.0 actors
        && option_map_or (λ v. not (v.owner == budget.now.client.0))
        (slice_get services.now budget.now.service) false }
{
    let other = match services.get(budget.service as usize) {
        Some(service) => service.owner != budget.client.0,
        None => false,
    };
    (budget.client.0 as usize) < actors && other
}

fn total_count(budgets: &[Budget]) -> u64
    requires { length budgets.now < 2 ^ 31 }
    ensures { result ≡ sum_by (λ b. b.count) budgets.now }
{
    budgets.iter().map(|b| b.count as u64).sum()
}

fn are_right(budgets: &[Budget], actors: usize, services: &[Service]) -> bool
    ensures { result ≡ list_all (λ b.
        nat_lt b.client.0 actors
        && option_map_or (λ v. not (v.owner == b.client.0))
        (slice_get services.now b.service) false) budgets.now }
{
    budgets.iter().all(|b| is_budget_right(b, actors, services))
}

/// Whether each budget is of an actor for a service of another, in order, and they are few enough.
pub(crate) fn do_budgets_fit(actors: usize, services: &[Service], budgets: &[Budget]) -> bool
    requires { length budgets.now < 2 ^ 31 }
    ensures { result ≡ budgets_fit actors services.now budgets.now }
{
    are_right(budgets, actors, services) && are_in_order(budgets) && total_count(budgets) <= 256
}

fn are_low(services: &[Service]) -> bool
    ensures { result ≡ list_all (λ v. nat_le v.stateless MAX_STATELESS) services.now }
{
    services.iter().all(|v| v.stateless <= MAX_STATELESS)
}

fn has_own_index(service: &Service, rest: &[Service]) -> bool
    ensures { result ≡ list_all
        (λ w. (service.now.stateless == 0) || not (service.now.stateless == w.stateless)) rest.now }
{
    rest.iter().all(|w| service.stateless == 0 || service.stateless != w.stateless)
}

fn have_own_indices(services: &[Service]) -> bool
    ensures { result ≡ each_pair
        (λ v w. (v.stateless == 0) || not (v.stateless == w.stateless)) services.now }
{
    match services {
        [] => true,
        [first, rest @ ..] => has_own_index(first, rest) && have_own_indices(rest),
    }
}

fn is_budget_fitting(budget: &Budget, services: &[Service]) -> bool
    ensures { result ≡ budget_is_fitting services.now budget.now }
{
    match services.get(budget.service as usize) {
        Some(service) => service.stateless == 0 || budget.count == 0,
        None => true,
    }
}

fn are_fitting(budgets: &[Budget], services: &[Service]) -> bool
    ensures { result ≡ list_all (budget_is_fitting services.now) budgets.now }
{
    budgets.iter().all(|b| is_budget_fitting(b, services))
}

/// Whether stateless services have indices of their own, and no declared connections.
pub(crate) fn do_stateless_fit(services: &[Service], budgets: &[Budget]) -> bool
    ensures { result ≡ stateless_fit services.now budgets.now }
{
    are_low(services) && have_own_indices(services) && are_fitting(budgets, services)
}

fn has_its_ram(partition: &Partition, regions: &[Region]) -> bool
    ensures { result ≡ option_map_or (λ r. is_ram_in partition.now.domain r.class)
        (slice_get regions.now partition.now.ram) false }
{
    match regions.get(partition.ram as usize) {
        Some(region) => match region.class {
            Class::Ram { domain } => domain == partition.domain,
            _ => false,
        },
        None => false,
    }
}

fn all_have_their_ram(partitions: &[Partition], regions: &[Region]) -> bool
    ensures { result ≡ list_all (λ p.
        option_map_or (λ r. is_ram_in p.domain r.class)
        (slice_get regions.now p.ram) false) partitions.now }
{
    partitions.iter().all(|p| has_its_ram(p, regions))
}

fn shares_no_ram(partition: &Partition, rest: &[Partition]) -> bool
    ensures { result ≡ list_all (λ q. not (partition.now.ram == q.ram)) rest.now }
{
    rest.iter().all(|q| partition.ram != q.ram)
}

fn share_no_ram(partitions: &[Partition]) -> bool
    ensures { result ≡ each_pair (λ p q. not (p.ram == q.ram)) partitions.now }
{
    match partitions {
        [] => true,
        [first, rest @ ..] => shares_no_ram(first, rest) && share_no_ram(rest),
    }
}

fn is_someones_ram(partitions: &[Partition], place: usize) -> bool
    ensures { result ≡ list_any (λ p. p.ram == place) partitions.now }
{
    partitions.iter().any(|p| p.ram as usize == place)
}

fn is_ram_owned(region: &Region, place: usize, partitions: &[Partition]) -> bool
    ensures { result ≡ not (is_ram region.now.class)
        || list_any (λ p. p.ram == place) partitions.now }
{
    !matches!(region.class, Class::Ram { .. }) || is_someones_ram(partitions, place)
}

fn is_each_ram_owned(regions: &[Region], partitions: &[Partition]) -> bool
    ensures { result ≡ list_all (λ e.
        not (is_ram e.1.class) || list_any (λ p. p.ram == e.0) partitions.now)
        (enumerate_from 0 regions.now) }
{
    regions
        .iter()
        .enumerate()
        .all(|(i, r)| is_ram_owned(r, i, partitions))
}

/// Whether each partition has a RAM of its own in its domain.
pub(crate) fn do_partitions_fit(partitions: &[Partition], regions: &[Region]) -> bool
    ensures { result ≡ partitions_fit partitions.now regions.now }
{
    all_have_their_ram(partitions, regions)
        && share_no_ram(partitions)
        && is_each_ram_owned(regions, partitions)
}

fn ram_size(partition: &Partition, regions: &[Region]) -> u32
    ensures { result ≡ ram_size regions.now partition.now }
{
    match regions.get(partition.ram as usize) {
        Some(region) => region.size,
        None => 0,
    }
}

fn has_service(services: &[Service], place: usize) -> bool
    ensures { result ≡ list_any (λ v. v.owner == place) services.now }
{
    services.iter().any(|v| v.owner as usize == place)
}

fn do_functions_fit(
    partition: &Partition,
    place: usize,
    services: &[Service],
    regions: &[Region],
) -> bool
    ensures { result ≡ functions_fit services.now regions.now (place, partition.now) }
{
    !partition.sfn || (has_service(services, place) && 48 <= ram_size(partition, regions))
}

fn do_all_functions_fit(partitions: &[Partition], services: &[Service], regions: &[Region]) -> bool
    ensures { result ≡ list_all (functions_fit services.now regions.now)
        (enumerate_from 0 partitions.now) }
{
    partitions
        .iter()
        .enumerate()
        .all(|(i, p)| do_functions_fit(p, i, services, regions))
}

fn do_heaps_fit(partitions: &[Partition], regions: &[Region]) -> bool
    ensures { result ≡ list_all (λ p. nat_le p.heap (ram_size regions.now p)) partitions.now }
{
    partitions.iter().all(|p| p.heap <= ram_size(p, regions))
}

/// Whether partitions with functions have what these need, and each heap lies in its RAM.
pub(crate) fn do_models_fit(
    partitions: &[Partition],
    services: &[Service],
    regions: &[Region],
) -> bool
    ensures { result ≡ models_fit partitions.now services.now regions.now }
{
    do_all_functions_fit(partitions, services, regions) && do_heaps_fit(partitions, regions)
}

fn has_own_sid(service: &Service, rest: &[Service]) -> bool
    ensures { result ≡ list_all (λ w. not (service.now.sid.0 == w.sid.0)) rest.now }
{
    rest.iter().all(|w| service.sid.0 != w.sid.0)
}

/// Whether no two services have one SID.
pub(crate) fn have_own_sids(services: &[Service]) -> bool
    ensures { result ≡ each_pair (λ v w. not (v.sid.0 == w.sid.0)) services.now }
{
    match services {
        [] => true,
        [first, rest @ ..] => has_own_sid(first, rest) && have_own_sids(rest),
    }
}

fn is_bit(k: u32, word: u32) -> bool
    requires { k < 32 }
    ensures { result ≡ (2 ^ k == word) }
{
    1u32 << k == word
}

fn is_signal(word: u32) -> bool
    ensures { result ≡ is_signal_bit word }
{
    (4..32u32).any(|k| is_bit(k, word))
}

fn does_signal_fit(partitions: usize, owner: u32, signal: u32) -> bool
    ensures { result ≡ signal_fits partitions owner signal }
{
    (owner as usize) < partitions && is_signal(signal)
}

fn do_service_signals_fit(services: &[Service], partitions: usize) -> bool
    ensures { result ≡ list_all (λ v. signal_fits partitions v.owner v.signal) services.now }
{
    services
        .iter()
        .all(|v| does_signal_fit(partitions, v.owner, v.signal))
}

fn do_source_signals_fit(sources: &[Source], partitions: usize) -> bool
    ensures { result ≡ list_all (λ v. signal_fits partitions v.owner v.signal) sources.now }
{
    sources
        .iter()
        .all(|v| does_signal_fit(partitions, v.owner, v.signal))
}

fn clashes_with_no_service(service: &Service, rest: &[Service]) -> bool
    ensures { result ≡ list_all
        (λ w. not ((service.now.owner == w.owner) && (service.now.signal == w.signal))) rest.now }
{
    rest.iter().all(|w| !(service.owner == w.owner && service.signal == w.signal))
}

fn no_services_clash(services: &[Service]) -> bool
    ensures { result ≡ each_pair
        (λ v w. not ((v.owner == w.owner) && (v.signal == w.signal))) services.now }
{
    match services {
        [] => true,
        [first, rest @ ..] => clashes_with_no_service(first, rest) && no_services_clash(rest),
    }
}

fn clashes_with_no_later(source: &Source, rest: &[Source]) -> bool
    ensures { result ≡ list_all
        (λ w. not ((source.now.owner == w.owner) && (source.now.signal == w.signal))) rest.now }
{
    rest.iter().all(|w| !(source.owner == w.owner && source.signal == w.signal))
}

fn no_sources_clash(sources: &[Source]) -> bool
    ensures { result ≡ each_pair
        (λ v w. not ((v.owner == w.owner) && (v.signal == w.signal))) sources.now }
{
    match sources {
        [] => true,
        [first, rest @ ..] => clashes_with_no_later(first, rest) && no_sources_clash(rest),
    }
}

fn clashes_with_no_source(service: &Service, sources: &[Source]) -> bool
    ensures { result ≡ list_all (λ w.
        not ((service.now.owner == w.owner) && (service.now.signal == w.signal)))
        sources.now }
{
    sources.iter().all(|w| !(service.owner == w.owner && service.signal == w.signal))
}

fn no_service_clashes_with_a_source(services: &[Service], sources: &[Source]) -> bool
    ensures { result ≡ list_all (λ v.
        list_all (λ w. not ((v.owner == w.owner) && (v.signal == w.signal)))
        sources.now) services.now }
{
    services.iter().all(|v| clashes_with_no_source(v, sources))
}

/// Whether each service and each source has a bit of its own among its owner's signals.
pub(crate) fn do_signals_fit(partitions: usize, services: &[Service], sources: &[Source]) -> bool
    ensures { result ≡ signals_fit partitions services.now sources.now }
{
    do_service_signals_fit(services, partitions)
        && do_source_signals_fit(sources, partitions)
        && no_services_clash(services)
        && no_sources_clash(sources)
        && no_service_clashes_with_a_source(services, sources)
}

/// Whether the parts of a system fit each other.
#[tactic(auto, unfolding(crate::specs::WellFormed::is_well_formed))]
pub(crate) fn do_parts_fit(
    level: u32,
    partitions: &[Partition],
    services: &[Service],
    sources: &[Source],
    regions: &[Region],
    clients: &[Name],
    budgets: &[Budget],
) -> bool
    requires regions { length regions.now < 2 ^ 31 }
    requires budgets { length budgets.now < 2 ^ 31 }
    ensures few_partitions { result ≡ true → length partitions.now ≤ 32 }
    ensures few_clients { result ≡ true → length clients.now ≤ 16 }
    ensures fit { result ≡ is_well_formed level partitions.now services.now sources.now
        regions.now clients.now budgets.now }
{
    1 <= level
        && level <= 3
        && partitions.len() <= 32
        && clients.len() <= 16
        && do_models_fit(partitions, services, regions)
        && do_stateless_fit(services, budgets)
        && do_partitions_fit(partitions, regions)
        && do_regions_fit(partitions.len(), regions)
        && do_signals_fit(partitions.len(), services, sources)
        && have_own_sids(services)
        && do_budgets_fit(partitions.len() + clients.len(), services, budgets)
}
