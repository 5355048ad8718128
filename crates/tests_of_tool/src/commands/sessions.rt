//! `session` as a whole command.

use crate::commands::{FAULTLESS, expect};
use acl_tool::{Status, UsageFault, UsageKind};
use std::test::Fail;

const SESSION: &[&str] = &["session", "r"];

#[test]
fn a_script_is_answered_whole_or_refused(rt: HostRuntime) -> Result<(), Fail> {
    let alloc = rt.alloc();
    let most = vec![in alloc; b' '; 16_777_216]?;
    let long = vec![in alloc; b' '; 16_777_217]?;
    let unknown = Status::Usage(UsageFault {
        word: 3,
        kind: UsageKind::UnknownOption,
    });
    let cases: [(&[&str], &[u8], Status, &str, &str); 5] = [
        (SESSION, b"", Status::Done, "", ""),
        (
            SESSION,
            b"context 1\nhello",
            Status::Done,
            "refused layout 1\nbad line\n",
            "",
        ),
        (SESSION, &most, Status::Done, "", ""),
        (
            SESSION,
            &long,
            Status::ScriptRefused,
            "",
            "aclc: script: too long\n",
        ),
        (
            &["session", "r", "stats=on"],
            b"",
            unknown,
            "",
            "aclc: usage: word 3: unknown option\n",
        ),
    ];
    for (words, script, status, out, err) in cases {
        expect(&rt, words, script, b"", FAULTLESS, (status, out, err, 0))?;
    }
    Ok(())
}
