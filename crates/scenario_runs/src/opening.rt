//! The memory with which a system runs again.

ghost use Rattle.std.specs.Prelude.{◌≡◌, ◌<◌, IfOk, IfSome, false, is_some, length};
ghost use Rattle.std.specs.Option.{option_map_or};
ghost use Rattle.ffm_model.specs.Restarts.{is_ended, is_mmio, memory_after, memory_reset, some_panicked};
ghost use Rattle.ffm_model.specs.Signals.{is_panicked};
ghost use Rattle.ffm_model.specs.State.{phase_of};
ghost use Rattle.ffm_model.specs.Ranges.{ranges_of};
ghost use Rattle.memory_image.specs.Pieces.{byte_at, regions_of};
ghost use Rattle.spm_core.specs.Manager.{state_of};
ghost use Rattle.scenario_runs.specs.Policy.{runs_again};

use ffm_model::{ActorId, Class, Memory, Phase, Verdict};
use memory_image::Image;
use spm_core::Spm;
use std::alloc::Global;

fn is_mmio(class: Class) -> bool
    ensures { result ≡ is_mmio class }
{
    matches!(class, Class::Mmio { .. })
}

fn is_ended(verdict: Verdict) -> bool
    ensures { result ≡ is_ended verdict }
{
    matches!(verdict, Verdict::Quiet | Verdict::Stalled)
}

fn is_panicked(ended: &Spm, partition: u32) -> bool
    requires { partition < length ended.now.opening.system.partitions }
    ensures { result ≡ option_map_or (λ st. is_panicked (phase_of st.spm partition))
        (state_of ended.now) false }
{
    matches!(ended.phase(ActorId(partition)), Phase::Panicked)
}

fn is_some_panicked(ended: &Spm) -> bool
    ensures { result ≡ option_map_or (some_panicked ended.now.opening.system)
        (state_of ended.now) false }
{
    for partition in 0..ended.system().counts().partitions {
        if is_panicked(ended, partition) {
            return true;
        }
    }
    false
}

// Whether the run came to an end, and a partition panicked in it.
fn runs_again(ended: &Spm) -> bool
    ensures { result ≡ runs_again ended.now }
{
    match ended.verdict() {
        Some(verdict) => is_ended(verdict) && is_some_panicked(ended),
        None => false,
    }
}

// The first memory, with the MMIO bytes that the run left.
fn reset(alloc: Global, first: &Image, ended: &Spm) -> Result<Image, Memory>
    requires { regions_of first.now ≡ ranges_of ended.now.opening.system.regions }
    ensures regions { IfOk result (λ image.
        regions_of image ≡ ranges_of ended.now.opening.system.regions) }
    ensures bytes { IfOk result (λ image.
        byte_at image ≡ memory_reset ended.now.opening.system (byte_at first.now) (memory_after
        ended.now.opening.system (byte_at ended.now.opening.memory) ended.now.history)) }
{
    let mut image = first.copy_of(alloc)?;
    let last = ended.image();
    for region in ended.system().regions.as_slice() {
        if is_mmio(region.class) {
            image.store_bytes(region.base, last.bytes(region.base, region.size as usize));
        }
    }
    Ok(image)
}

/// The memory with which the system runs again after a run in which a partition panicked. None where
/// no partition is panicked, or the run isn't Quiet or Stalled. MMIO bytes are as the run left them,
/// and all others as in the memory of the first run, which has the regions of the system. Memory
/// where no memory was found.
pub fn next_opening(alloc: Global, first: &Image, ended: &Spm) -> Result<Option<Image>, Memory>
    requires { regions_of first.now ≡ ranges_of ended.now.opening.system.regions }
    ensures again { IfOk result (λ next. is_some next ≡ runs_again ended.now) }
    ensures regions { IfOk result (λ next.
        IfSome next (λ image. regions_of image ≡ ranges_of ended.now.opening.system.regions)) }
    ensures bytes { IfOk result (λ next.
        IfSome next (λ image.
        byte_at image ≡ memory_reset ended.now.opening.system (byte_at first.now) (memory_after
        ended.now.opening.system (byte_at ended.now.opening.memory) ended.now.history))) }
{
    if !runs_again(ended) {
        return Ok(None);
    }
    Ok(Some(reset(alloc, first, ended)?))
}
