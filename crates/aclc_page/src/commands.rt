//! The words and files of each command.

ghost use Rattle.std.specs.Prelude.{◌∷◌, [], IfOk};
ghost use Rattle.aclc_page.specs.Words.{audit_words, classify_words, compare_words, session_words};
ghost use Rattle.aclc_page.specs.Words.{rules_file, capture_file, second_file, script_file};
ghost use Rattle.aclc_page.specs.Ran.{Ran};

use crate::desk::file_of;
use crate::exports::Asked;
use crate::printing::{Printed, print};
use crate::words::{audit_words, classify_words, compare_words, session_words};
use std::alloc::{AllocError, Global};

/// Runs `classify` over these bytes.
pub(crate) fn classify(
    alloc: Global,
    rules: &[u8],
    capture: &[u8],
    asked: &Asked,
) -> Result<Printed, AllocError>
    ensures { IfOk result (λ printed. Ran (classify_words asked.now)
        (rules_file rules.now ∷ capture_file capture.now ∷ [])
        printed.out.text printed.err.text printed.code) }
{
    let words = classify_words(alloc, asked)?;
    let mut files = Vec::new(alloc);
    files.push(file_of(alloc, "rules", rules)?)?;
    files.push(file_of(alloc, "capture", capture)?)?;
    print(alloc, words, files)
}

/// Runs `audit` over these bytes.
pub(crate) fn audit(alloc: Global, rules: &[u8], asked: &Asked) -> Result<Printed, AllocError>
    ensures { IfOk result (λ printed. Ran (audit_words asked.now) (rules_file rules.now ∷ [])
        printed.out.text printed.err.text printed.code) }
{
    let words = audit_words(alloc, asked)?;
    let mut files = Vec::new(alloc);
    files.push(file_of(alloc, "rules", rules)?)?;
    print(alloc, words, files)
}

/// Runs `compare` over these bytes.
pub(crate) fn compare(
    alloc: Global,
    rules: &[u8],
    second: &[u8],
    asked: &Asked,
) -> Result<Printed, AllocError>
    ensures { IfOk result (λ printed. Ran (compare_words asked.now)
        (rules_file rules.now ∷ second_file second.now ∷ [])
        printed.out.text printed.err.text printed.code) }
{
    let words = compare_words(alloc, asked)?;
    let mut files = Vec::new(alloc);
    files.push(file_of(alloc, "rules", rules)?)?;
    files.push(file_of(alloc, "second", second)?)?;
    print(alloc, words, files)
}

/// Runs `session` over these bytes.
pub(crate) fn session(alloc: Global, script: &[u8]) -> Result<Printed, AllocError>
    ensures { IfOk result (λ printed. Ran session_words (script_file script.now ∷ [])
        printed.out.text printed.err.text printed.code) }
{
    let words = session_words(alloc)?;
    let mut files = Vec::new(alloc);
    files.push(file_of(alloc, "script", script)?)?;
    print(alloc, words, files)
}
