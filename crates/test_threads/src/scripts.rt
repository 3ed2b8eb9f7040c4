//! Scripts out of their lines.
ghost use Rattle.std.specs.Prelude.{◌≡◌, IfOk, length};

use ffm_model::{ActorKind, Lines, List, Name, Script};
use ns_contexts::join;
use script_asm::assemble;
use std::alloc::Global;
use std::process::Abort;
use std::test::Fail;

/// The script of one part with these lines.
pub(crate) fn script_of(rt: &impl Abort, alloc: Global, text: &str) -> Result<Script, Fail>
    ensures { IfOk result (λ s. length s ≡ 1) }
{
    let mut lines = Vec::new(alloc);
    for line in text.split('\n') {
        lines.push(Name::of(String::from_str(alloc, line)?))?;
    }
    let lines = Lines::of(List::of(lines)).ok_or("the lines are few")?;
    let script = assemble(alloc, &lines, ActorKind::Partition, 0)?;
    assert!(rt; script.parts.len() == 1);
    Ok(script)
}

/// The script of one thread, or of two.
pub(crate) fn script_of_threads(
    rt: &impl Abort,
    alloc: Global,
    first: &str,
    second: Option<&str>,
) -> Result<Script, Fail> {
    let script = script_of(rt, alloc, first)?;
    let Some(text) = second else {
        return Ok(script);
    };
    let other = script_of(rt, alloc, text)?;
    Ok(join(alloc, List::of(vec![in alloc; script, other]?))?)
}
