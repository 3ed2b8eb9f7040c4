//! How many partitions there may be, and how many signals of each.
ghost use Rattle.std.specs.Prelude.{◌≡◌, ◌+◌, ◌≤◌, length, nat_lt, filter, option_map};
ghost use Rattle.std.specs.List.{enumerate_from};
ghost use Rattle.ffm_model.specs.Repeats.{first};
ghost use Rattle.ffm_model.specs.Rules.{too_many_signals, too_many_partitions};
ghost use Rattle.manifest_compile.specs.Keeps.{Keeps};

use crate::refusals::refused;
use ffm_model::{
    Key, MAX_PARTITIONS, MAX_SIGNALS, Manifest, Parts, PathStep, ReadError, TOO_MANY_PARTITIONS,
    TOO_MANY_SIGNALS,
};
use std::alloc::Global;

fn has_too_many_signals(manifest: &Manifest) -> bool
    ensures { result ≡ nat_lt MAX_SIGNALS
        (length manifest.now.services + length manifest.now.irqs) }
{
    let most = MAX_SIGNALS as usize;
    let services = manifest.services.len();
    services > most || manifest.irqs.len() > most - services
}

// The first manifest with too many services and interrupts.
fn first_with_too_many_signals(manifests: &[Manifest]) -> Option<u32>
    requires { length manifests.now ≤ 256 }
    ensures { result ≡ option_map (λ e. e.0) (first (filter (λ e.
        nat_lt MAX_SIGNALS (length e.1.services + length e.1.irqs))
        (enumerate_from 0 manifests.now))) }
{
    for (k, manifest) in manifests.iter().enumerate() {
        if has_too_many_signals(manifest) {
            return Some(k as u32);
        }
    }
    None
}

/// Refuses the first manifest whose services and interrupts are more than a partition's signals.
pub fn signals_are_few(alloc: Global, parts: &Parts) -> Result<(), ReadError>
    ensures { Keeps result (too_many_signals parts.now) }
{
    match first_with_too_many_signals(parts.manifests.as_slice()) {
        Some(k) => refused(
            alloc,
            TOO_MANY_SIGNALS,
            &[PathStep::Key(Key::Manifests), PathStep::Index(k)],
        ),
        None => Ok(()),
    }
}

/// Refuses more partitions than there may be.
pub fn partitions_are_few(alloc: Global, parts: &Parts) -> Result<(), ReadError>
    ensures { Keeps result (too_many_partitions parts.now) }
{
    if parts.manifests.len() > MAX_PARTITIONS as usize {
        return refused(alloc, TOO_MANY_PARTITIONS, &[PathStep::Key(Key::Manifests)]);
    }
    Ok(())
}
