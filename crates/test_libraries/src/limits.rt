//! Limits that no stored file shows: of a manifest file, the list of manifests and a script, which would be too long
//! for one, and of a run where its scenario names none.

use ffm_model::{
    BAD_VALUE, FILE_TOO_LONG, Key, Memory, Parts, PartsError, PathStep, ReadError, Refusal,
    Scenario, System,
};
use manifest_compile::compile;
use outside_io::MemoryFiles;
use std::alloc::{AllocError, Global};
use std::test::Fail;
use system_json::{read_scenario, read_system};

const VAULT: &str =
    r#"{"psa_framework_version":1.0,"name":"VAULT","type":"PSA-ROT","priority":"LOW","entry_point":"main","stack_size":64}"#;

const ONE_MANIFEST: &str = r#"{"isolation_level":1,"manifests":["vault"]}"#;

const ONE_CLIENT: &str = r#"{"isolation_level":1,"manifests":[],"clients":["NS"]}"#;

/// What the system file reads, where the manifest's file has blanks up to a length.
fn parts_of(alloc: Global, system: &str, length: usize) -> Result<Parts, PartsError> {
    let mut files = vault_file(alloc, length)?;
    read_system(alloc, system.as_bytes(), &mut files)
}

fn vault_file(alloc: Global, length: usize) -> Result<MemoryFiles, Memory> {
    let mut bytes = VAULT.as_bytes().to_vec(alloc)?;
    bytes.resize(length, b' ')?;
    let mut files = MemoryFiles::new(alloc);
    files.add(alloc, "vault", &bytes)?;
    Ok(files)
}

fn is_at(refusal: &Refusal, code: u8, steps: &[PathStep]) -> bool {
    refusal.code == code && refusal.place.steps.as_slice() == steps
}

#[test]
fn a_manifest_file(rt: HostRuntime) -> Result<(), Fail> {
    let parts = parts_of(rt.alloc(), ONE_MANIFEST, 1_048_576)?;
    assert!(rt; parts.manifests.len() == 1);
    let place = [PathStep::Key(Key::Manifests), PathStep::Index(0)];
    let longer = parts_of(rt.alloc(), ONE_MANIFEST, 1_048_577);
    assert!(rt;
        matches!(&longer, Err(PartsError::Refused(refusal)) if is_at(refusal, FILE_TOO_LONG, &place))
    );
    Ok(())
}

/// A text with an item so often, with commas between.
fn repeated(
    alloc: Global,
    front: &str,
    item: &str,
    count: u32,
    back: &str,
) -> Result<String, AllocError> {
    let mut text = String::from_str(alloc, front)?;
    for k in 0..count {
        text.push_str(if k > 0 { "," } else { "" })?;
        text.push_str(item)?;
    }
    text.push_str(back)?;
    Ok(text)
}

#[test]
fn a_list_of_manifests(rt: HostRuntime) -> Result<(), Fail> {
    let front = r#"{"isolation_level":1,"manifests":["#;
    let text = repeated(rt.alloc(), front, "\"vault\"", 256, "]}")?;
    let parts = parts_of(rt.alloc(), text.as_str(), VAULT.len())?;
    assert!(rt; parts.manifests.len() == 256);
    Ok(())
}

fn client_alone(alloc: Global) -> Result<System, PartsError> {
    let parts = read_system(alloc, ONE_CLIENT.as_bytes(), &mut MemoryFiles::new(alloc))?;
    Ok(compile(alloc, &parts)?)
}

/// What a scenario says with a script of so many lines, all the same.
fn scenario_of(
    alloc: Global,
    system: &System,
    line: &str,
    count: u32,
) -> Result<Scenario, ReadError> {
    let front = r#"{"scripts":[{"actor":"NS","lines":["#;
    let text = repeated(alloc, front, line, count, "]}]}")?;
    read_scenario(alloc, text.as_bytes(), system)
}

/// How many lines the one script of the one actor has.
fn line_count(scenario: &Scenario) -> Option<usize> {
    let [scripts] = scenario.lines.as_slice() else {
        return None;
    };
    let [lines] = scripts.as_slice() else {
        return None;
    };
    Some(lines.len())
}

#[test]
fn a_script(rt: HostRuntime) -> Result<(), Fail> {
    let system = client_alone(rt.alloc())?;
    let scenario = scenario_of(rt.alloc(), &system, "\"end\"", 4096)?;
    assert!(rt; line_count(&scenario) == Some(4096));
    let place = [
        PathStep::Key(Key::Scripts),
        PathStep::Index(0),
        PathStep::Key(Key::Lines),
    ];
    // The length is looked at before the items, of which none is a line.
    let longer = scenario_of(rt.alloc(), &system, "7", 4097);
    assert!(rt;
        matches!(&longer, Err(ReadError::Refused(refusal)) if is_at(refusal, BAD_VALUE, &place))
    );
    Ok(())
}

#[test]
fn events_of_a_run(rt: HostRuntime) -> Result<(), Fail> {
    let system = client_alone(rt.alloc())?;
    let scenario = read_scenario(rt.alloc(), b"{}", &system)?;
    assert!(rt; scenario.limit == 4096);
    Ok(())
}
