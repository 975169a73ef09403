//! Tables of colours that are read or refused.
use crate::expecting::expect_equal;
use av_map::Colours;
use av_types::Fault;
use std::process::Abort;
use std::test::Fail;

#[test]
fn colours(rt: HostRuntime) -> Result<(), Fail> {
    let alloc = rt.alloc();
    for (text, wanted) in [
        ("", None),
        ("\"a:b\" = \"#0aF9b7\"", None),
        ("\"a:b\" = \"0aF9b7\"", Some(Fault::BadTable)),
        ("\"a:b\" = \"#0aF9b\"", Some(Fault::BadTable)),
        ("\"a:b\" = \"#0aF9b70\"", Some(Fault::BadTable)),
        ("\"a:b\" = \"#0aF9bg\"", Some(Fault::BadTable)),
        ("\"a:b\" = \"\"", Some(Fault::BadTable)),
        ("\"a:b\" = 7", Some(Fault::BadTable)),
        ("[a]\nb = \"#000000\"", Some(Fault::BadTable)),
        ("a:b = \"#000000\"", Some(Fault::BadTable)),
    ] {
        let found = match Colours::read(alloc, text.as_bytes()) {
            Ok(_) => None,
            Err(fault) => Some(fault),
        };
        expect_equal(&rt, found, wanted);
    }
    Ok(())
}
