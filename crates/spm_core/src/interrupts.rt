//! The interrupts of the device, by the handling of their sources.
ghost use Rattle.std.specs.Prelude.{◌≡◌, ◌&&◌, nat_lt, nat_le, not, length};
ghost use Rattle.ffm_model.specs.declared.machine.Outcome.TheVariants as outcome;
ghost use Rattle.ffm_model.specs.SignalCalls.{has_flih, fire, raise};
ghost use Rattle.law_calls.specs.Named.{KeepsNames};
ghost use Rattle.spm_tables.specs.Answers.{Answers};
ghost use Rattle.spm_tables.specs.TablesView.{MadeFor, shape_of, spm_of};

use doorbell_irq::{fire, raise};
use ffm_model::{Fault, System};
use spm_tables::Tables;

// Whether there is such a source, and it has a second-level handler.
fn may_raise(system: &System, source: u32) -> bool
    ensures { result ≡ nat_lt source (length system.now.sources)
        && not (has_flih system.now source) }
{
    match system.sources.as_slice().get(source as usize) {
        Some(source) => !source.flih,
        None => false,
    }
}

// Whether there is such a source, it has a first-level handler, and the answer is one.
fn may_fire(system: &System, source: u32, answer: u32) -> bool
    ensures { result ≡ nat_lt source (length system.now.sources)
        && (has_flih system.now source && nat_le answer 1) }
{
    match system.sources.as_slice().get(source as usize) {
        Some(source) => source.flih && answer <= 1,
        None => false,
    }
}

/// The device raises an interrupt of a source with a second-level handler. Fault exactly where no such source
/// has the number, and then nothing changed.
pub(crate) fn raise_interrupt(
    system: &System,
    tables: &mut Tables,
    source: u32,
) -> Result<(), Fault>
    requires made { MadeFor tables.old system.now }
    ensures answer { Answers (λ _. outcome.Done) (raise system.now (spm_of tables.old) source)
        tables.old result tables.new }
    ensures shape { shape_of tables.new ≡ shape_of tables.old }
    ensures names { KeepsNames system.now tables.old tables.new }
{
    if !may_raise(system, source) {
        return Err(Fault);
    }
    raise(tables, source);
    Ok(())
}

/// The device raises an interrupt of a source with a first-level handler, which gives this answer. Fault exactly
/// where no such source has the number or the answer is neither 0 nor 1, and then nothing changed.
pub(crate) fn fire_interrupt(
    system: &System,
    tables: &mut Tables,
    source: u32,
    answer: u32,
) -> Result<(), Fault>
    requires made { MadeFor tables.old system.now }
    ensures answer { Answers (λ _. outcome.Done) (fire system.now (spm_of tables.old) source answer)
        tables.old result tables.new }
    ensures shape { shape_of tables.new ≡ shape_of tables.old }
    ensures names { KeepsNames system.now tables.old tables.new }
{
    if !may_fire(system, source, answer) {
        return Err(Fault);
    }
    fire(tables, source, answer);
    Ok(())
}
