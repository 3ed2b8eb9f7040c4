//! Texts, each with its decimals between quotation marks.

use manifest_json::quote_decimals;
use std::test::Fail;

static TEXTS: [(&str, &str); 10] = [
    ("1.0", r#""1.0""#),
    ("[-0,0,-5]", r#"["-0",0,-5]"#),
    ("1e5 1E5 -1.", r#""1e5" "1E5" "-1.""#),
    ("1234567890123456789", "1234567890123456789"),
    ("12345678901234567890", r#""12345678901234567890""#),
    ("true,e1,.5,+1.5", "true,e1,.5,+1.5"),
    (r#""1.5",2.5"#, r#""1.5","2.5""#),
    (r#""a\"1.5",2.5"#, r#""a\"1.5","2.5""#),
    (r#""1.5"#, r#""1.5"#),
    (r#"{"a":1.0.0}"#, r#"{"a":"1.0.0"}"#),
];

#[test]
fn quoted(rt: HostRuntime) -> Result<(), Fail> {
    for (text, wanted) in &TEXTS {
        let quoted = quote_decimals(rt.alloc(), text.as_bytes())?;
        assert!(rt; quoted.as_slice() == wanted.as_bytes(), "{text}");
    }
    Ok(())
}
