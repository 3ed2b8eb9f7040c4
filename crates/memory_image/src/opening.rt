//! The memory that a trace begins with.

ghost use Rattle.std.specs.Prelude.{◌≡◌, IfOk};
ghost use Rattle.ffm_model.specs.Memory.{opening_memory};
ghost use Rattle.ffm_model.specs.Ranges.{ranges_of};
ghost use Rattle.ffm_model.specs.Scenarios.{IsScenarioOf};
ghost use Rattle.memory_image.specs.Pieces.{byte_at, regions_of};

use crate::image::Image;
use ffm_model::{Memory, Scenario, System};
use std::alloc::Global;

/// The memory that each run and each trace of a scenario over a system begins with. The only error
/// is out of memory.
#[tactic(auto, using(crate::proofs::Systems::system_fits))]
pub fn opening_image(alloc: Global, system: &System, scenario: &Scenario) -> Result<Image, Memory>
    requires { IsScenarioOf system.now scenario.now }
    ensures regions { IfOk result (λ image. regions_of image ≡ ranges_of system.now.regions) }
    ensures bytes { IfOk result (λ image. byte_at image ≡ opening_memory scenario.now.memory) }
{
    Image::new(alloc, system.regions.list(), &scenario.memory)
}
