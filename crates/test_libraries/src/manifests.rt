//! What manifests say beyond a listing: the version, the model, the entry point, and mapped vectors.

use ffm_model::{List, Manifest, Place, Root};
use manifest_json::{read_manifest, read_tree};
use std::alloc::Global;
use std::test::Fail;

struct Case {
    /// They stand behind the others. Where a name stands twice, the later value counts.
    members: &'static str,
    framework: u32,
    sfn: bool,
    entry_point: &'static str,
    mapped: bool,
}

static CASES: [Case; 9] = [
    Case {
        members: r#""psa_framework_version":"1.0","entry_point":"main","stack_size":64"#,
        framework: 256,
        sfn: false,
        entry_point: "main",
        mapped: false,
    },
    Case {
        members: r#""entry_point":"main","stack_size":64"#,
        framework: 257,
        sfn: false,
        entry_point: "main",
        mapped: false,
    },
    Case {
        members: r#""entry_point":"main","stack_size":64,"model":"IPC""#,
        framework: 257,
        sfn: false,
        entry_point: "main",
        mapped: false,
    },
    Case {
        members: r#""psa_framework_version":1.0,"entry_point":"main","stack_size":47,"model":"SFN""#,
        framework: 256,
        sfn: false,
        entry_point: "main",
        mapped: false,
    },
    Case {
        members: r#""stack_size":48,"model":"SFN","services":[{"name":"V","sid":1,"non_secure_clients":true}]"#,
        framework: 257,
        sfn: true,
        entry_point: "",
        mapped: false,
    },
    Case {
        members: r#""stack_size":48,"model":"SFN","entry_point":"main","services":[{"name":"V","sid":1,"non_secure_clients":true}]"#,
        framework: 257,
        sfn: true,
        entry_point: "main",
        mapped: false,
    },
    Case {
        members: r#""entry_point":"main","stack_size":64,"services":[{"name":"V","sid":1,"non_secure_clients":true,"mm_iovec":"enable"}]"#,
        framework: 257,
        sfn: false,
        entry_point: "main",
        mapped: true,
    },
    Case {
        members: r#""entry_point":"main","stack_size":64,"services":[{"name":"V","sid":1,"non_secure_clients":true,"mm_iovec":"disable"}]"#,
        framework: 257,
        sfn: false,
        entry_point: "main",
        mapped: false,
    },
    Case {
        members: r#""psa_framework_version":"1.0","entry_point":"main","stack_size":64,"services":[{"name":"V","sid":1,"non_secure_clients":true,"mm_iovec":7}]"#,
        framework: 256,
        sfn: false,
        entry_point: "main",
        mapped: false,
    },
];

fn manifest_of(alloc: Global, members: &str) -> Result<Manifest, Fail> {
    let text = format!(in alloc;
        r#"{{"psa_framework_version":"1.1","name":"V","type":"PSA-ROT","priority":"LOW",{members}}}"#
    )?;
    let place = Place {
        root: Root::System,
        steps: List::of(Vec::new(alloc)),
    };
    let tree = read_tree(alloc, text.as_bytes(), place)?;
    Ok(read_manifest(alloc, &tree, 0)?)
}

fn says(manifest: &Manifest, case: &Case) -> bool {
    let mapped = manifest
        .services
        .as_slice()
        .iter()
        .any(|service| service.mm);
    (manifest.framework, manifest.sfn, mapped) == (case.framework, case.sfn, case.mapped)
        && manifest.entry_point.as_str() == case.entry_point
}

#[test]
fn beyond_listings(rt: HostRuntime) -> Result<(), Fail> {
    for case in &CASES {
        let manifest = manifest_of(rt.alloc(), case.members)?;
        assert!(rt; says(&manifest, case), "{}", case.members);
    }
    Ok(())
}
