//! Scripts and their replies.

use acl_session::session;
use std::alloc::AllocError;
use std::process::Abort;
use std::test::Fail;

/// A byte of bits and a range of four bytes, a context of two rules, and one rule.
const EXAMPLE: (&[u8], &str) = (
    b"field bits 1 0 0
field range 4 1 4
context 2
rule 5 1 7 0&0 10:20
classify 1 000000000000000f
build 51
build 52
classify 1 000000000000000f
classify 1 0000000000000015
rule 6 1 8 0&0 5:4
context 2
hello
",
    "ok\nok\nok\nok\nrefused not built\nrefused words 52 budget 51\nok\n7\n0\n\
refused rule 8 1\nrefused layout 1\nbad line\n",
);

/// CR LF, tabs, comments, blank lines, bytes that are no text, and a last line without LF.
const SPELLINGS: (&[u8], &str) = (
    b"\t field\tbits 0x01 000000000000000000000 0X0 \r\n # \xff\r\n\r\n \t\n\xff\xfe\ncontext 1\r",
    "ok\nbad line\nok\n",
);

/// A script of lines that say nothing, and how many they are.
const BAD_LINES: &[u8] = b"Field mask 1 0 0
field mask 1 0
field mask 1 0 0 0
field masks 1 0 0
field mask 256 0 0
field mask 1 0 4294967296
field mask 1 0 -1
field mask 1 256 0
field mask 1 0 0x
field mask 1 0 100000000000000000000
field mask 1 0 0 # and no comment
context
context 1 2
context 262145
context 100000000000000000000
rule 1 2
rule 2147483648 1 1
rule 1 4294967296 1
rule 1 1 4294967296
rule 1 1 1 0
rule 1 1 1 0/
rule 1 1 1 /0
rule 1 1 1 0/256
rule 1 1 1 0/1:2
rule 1 1 1 0:1:2
rule 1 1 1 0 : 1
rule 1 1 1 18446744073709551616:0
rule 1 1 1 0&100000000000000000000
build
build 0
build 67108865
build 16 16
reset now
reset-rules 1
Reset
classify
classify 1
classify 0 00
classify 17 00
classify 1 0
classify 1 000
classify 1 0g
classify 1 0x00
classify 2 00
classify 1 00 00
";

const BAD_LINE_COUNT: usize = 45;

/// Each call on a context before there is one.
const NO_CONTEXT: (&[u8], &str) = (
    b"rule 1 1 1\nbuild 1\nreset\nreset-rules\nclassify 16 00\n",
    "refused no context\nrefused no context\nrefused no context\nrefused no context\n\
refused no context\n",
);

/// Each fault of a layout but that of a field index, which is always its place.
const LAYOUTS: (&[u8], &str) = (
    b"context 1
field mask 3 0 0
context 1
field mask 2 0 0
context 1
field mask 1 1 0
context 1
field mask 1 0 0
field mask 2 1 1
context 1
field mask 1 0 0
field mask 2 1 1
field mask 2 1 2
context 1
field mask 1 0 65536
context 1
",
    "refused layout 1\nok\nrefused layout 3 0\nok\nrefused layout 4\nok\nrefused layout 5 0\n\
ok\nok\nrefused layout 6 1\nok\nok\nok\nrefused layout 7 2\nok\nrefused layout 8 0\n",
);

/// Each fault of a rule.
const RULES: (&[u8], &str) = (
    b"field mask 1 0 0
field range 4 1 1
context 9
rule 1 1 1
rule 1 1 1 0:0 0:0
rule 1 65536 1 0/0 0:0
rule 536870912 1 1 0/0 0:0
rule 1 1 1 256/8 0:0
rule 1 1 1 0/9 0:0
rule 1 1 1 0/0 2:1
",
    "ok\nok\nok\nrefused rule 1\nrefused rule 2 0\nrefused rule 3\nrefused rule 4\n\
refused rule 6 0\nrefused rule 7 0\nrefused rule 8 1\n",
);

/// Which rules a verdict is of.
const BUILDS: (&[u8], &str) = (
    b"field bits 1 0 0
context 1
rule 1 1 5 0&0
rule 1 1 6 0&0
classify 1 00
build 32
classify 1 00
build 33
classify 1 00
build 32
classify 4 00ff
reset-rules
classify 1 00
build 16
classify 1 00
reset
classify 1 00
build 16
context 1
classify 1 00
field bits 1 0 1
context 0
classify 1 0000
classify 1 00
",
    "ok\nok\nok\nrefused full\nrefused not built\nrefused words 33 budget 32\n\
refused not built\nok\n5\nrefused words 33 budget 32\n5 0 0 0\nok\n5\nok\n0\nok\n\
refused not built\nok\nrefused layout 1\n0\nok\nok\nrefused not built\n\
refused short buffer\n",
);

/// Which of two replies is given: a full context and a faulty rule, a short buffer and no table.
const FIRST_REPLIES: (&[u8], &str) = (
    b"field bits 1 0 1
context 0
rule 1 1 1
classify 1 00
classify 1 0000
",
    "ok\nok\nrefused full\nrefused short buffer\nrefused not built\n",
);

/// As many verdicts as there are categories, of buffers in digits of either case, and longer than
/// the fields reach. The rule is in the first category and in the last.
const CATEGORIES: (&[u8], &str) = (
    b"field bits 1 0 0
context 1
rule 1 0x8001 4294967295 0xAB&0xFF
build 67108864
classify 1 ab
classify 4 AB
classify 0x8 aB00
classify 12 0xAB
classify 12 ac
classify 16 abFFff
",
    "ok\nok\nok\nok\n4294967295\n4294967295 0 0 0\n4294967295 0 0 0 0 0 0 0\nbad line\n\
0 0 0 0 0 0 0 0 0 0 0 0\n4294967295 0 0 0 0 0 0 0 0 0 0 0 0 0 0 4294967295\n",
);

/// Compares the replies to a script.
fn expect<R: Abort + AllocGlobal>(rt: &R, script: &[u8], replies: &[u8]) -> Result<(), AllocError> {
    let told = session(rt.alloc(), script)?;
    assert!(rt; told.as_slice() == replies);
    Ok(())
}

/// The piece so many times.
fn repeated<R: AllocGlobal>(rt: &R, piece: &[u8], count: usize) -> Result<Vec<u8>, AllocError> {
    let mut text = Vec::new(rt.alloc());
    for _ in 0..count {
        text.extend_from_slice(piece)?;
    }
    Ok(text)
}

#[test]
fn each_line_is_answered_by_the_lines_before(rt: HostRuntime) -> Result<(), Fail> {
    let cases = [
        (b"".as_slice(), ""),
        EXAMPLE,
        SPELLINGS,
        NO_CONTEXT,
        LAYOUTS,
        RULES,
        BUILDS,
        FIRST_REPLIES,
        CATEGORIES,
    ];
    for (script, replies) in cases {
        expect(&rt, script, replies.as_bytes())?;
    }
    Ok(())
}

#[test]
fn lines_of_no_form_say_nothing(rt: HostRuntime) -> Result<(), Fail> {
    let replies = repeated(&rt, b"bad line\n", BAD_LINE_COUNT)?;
    expect(&rt, BAD_LINES, &replies)?;
    Ok(())
}

#[test]
fn a_field_and_a_value_too_many_are_refused(rt: HostRuntime) -> Result<(), Fail> {
    let mut script = repeated(&rt, b"field mask 1 0 0\n", 65)?;
    script.extend_from_slice(b"context 1\nfield bits 1 0 0\ncontext 1\nrule 1 1 1")?;
    script.extend_from_slice(&repeated(&rt, b" 0&0", 65)?)?;
    let mut replies = repeated(&rt, b"ok\n", 64)?;
    replies.extend_from_slice(b"refused too many fields\nrefused layout 5 1\nok\nok\n")?;
    replies.extend_from_slice(b"refused rule 1\n")?;
    expect(&rt, &script, &replies)?;
    Ok(())
}

/// The lines of 64 fields in 65 bytes: a byte, 15 groups of four bytes, and a group of two bytes
/// and two of one.
fn add_fields<R: AllocGlobal>(rt: &R, script: &mut Vec<u8>) -> Result<(), AllocError> {
    script.extend_from_slice(b"field mask 1 0 0\n")?;
    for place in 0..60u32 {
        let line = format!(in rt.alloc(); "field mask 1 {} {}\n", place / 4 + 1, place + 1)?;
        script.extend_from_slice(line.as_bytes())?;
    }
    script.extend_from_slice(b"field mask 2 16 61\nfield mask 1 16 63\nfield mask 1 16 64\n")
}

#[test]
fn as_many_fields_as_there_may_be_decide_a_buffer(rt: HostRuntime) -> Result<(), Fail> {
    let mut script = Vec::new(rt.alloc());
    add_fields(&rt, &mut script)?;
    script.extend_from_slice(b"context 1\nrule 1 1 9")?;
    script.extend_from_slice(&repeated(&rt, b" 0/0", 63)?)?;
    script.extend_from_slice(b" 0xAB/8\nbuild 1000\nclassify 1 ")?;
    let zeros = repeated(&rt, b"00", 64)?;
    script.extend_from_slice(&zeros)?;
    script.extend_from_slice(b"ab\nclassify 1 ")?;
    script.extend_from_slice(&zeros)?;
    script.extend_from_slice(b"ac\n")?;
    let mut replies = repeated(&rt, b"ok\n", 67)?;
    replies.extend_from_slice(b"9\n0\n")?;
    expect(&rt, &script, &replies)?;
    Ok(())
}
