//! The files that are made by numbers: the last service, and a client's descriptors.

use std::test::Fail;
use system_texts::{scenario_text, system_text};

#[test]
fn texts_by_numbers(rt: HostRuntime) -> Result<(), Fail> {
    let system = system_text(rt.alloc())?;
    let scenario = scenario_text(rt.alloc(), 1)?;
    let system = str::from_utf8(&system).map_err(|_| "the text is ASCII")?;
    let scenario = str::from_utf8(&scenario).map_err(|_| "the text is ASCII")?;
    assert!(rt;
        system.contains(
            r#""services":[{"name":"S16","sid":4112,"non_secure_clients":true}]}],"clients":["N1","N2","#
        ),
        "{system}"
    );
    assert!(rt;
        scenario.contains(r#"},{"address":536873472,"bytes":"200a002004000000300a002004000000"},"#),
        "{scenario}"
    );
    Ok(())
}
