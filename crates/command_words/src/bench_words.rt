//! The words after `bench`: three numbers.

ghost use Rattle.std.specs.Prelude.{◌≡◌, ◌≤◌, IfOk, IfErr, Ok, Err, map, string_bytes};
ghost use Rattle.std.specs.Prelude.{IfSome, nat_le};
ghost use Rattle.command_words.specs.BenchWords.{number_at, numbers_of};
ghost use Rattle.command_words.specs.CommandLine.{numbers_in};
ghost use Rattle.command_words.specs.Options.{lawful};

use crate::bench_numbers::{BenchNumbers, MAX_PACKETS};
use crate::options::number_in;
use crate::usage_fault::{UsageFault, UsageKind};
use workload_gen::MAX_WORKLOAD_RULES;

/// The numbers of the words after the command, or the first fault from the left. It takes no
/// memory.
pub fn read_numbers(words: &[String]) -> Result<BenchNumbers, UsageFault>
    ensures numbers { IfOk result
        (λ numbers. numbers_of (map string_bytes words.now) ≡ Ok (numbers_in numbers)) }
    ensures fault { IfErr result (λ fault. numbers_of (map string_bytes words.now) ≡ Err fault) }
{
    let seed = number_at(words, 0, u64::MAX)?;
    let rules = number_at(words, 1, u64::from(MAX_WORKLOAD_RULES))?;
    let packets = number_at(words, 2, u64::from(MAX_PACKETS))?;
    if words.len() > 3 {
        return Err(UsageFault {
            word: 5,
            kind: UsageKind::UnknownOption,
        });
    }
    Ok(BenchNumbers {
        seed,
        rules: rules as u32,
        packets: packets as u32,
    })
}

/// The number that the word at a place is, up to the greatest that it may be.
fn number_at(words: &[String], place: usize, greatest: u64) -> Result<u64, UsageFault>
    requires { place ≤ 2 }
    ensures number { result ≡ number_at (map string_bytes words.now) place greatest }
    ensures bound { IfOk result (λ number. number ≤ greatest) }
{
    let word = place as u32 + 2;
    let Some(text) = words.get(place) else {
        return Err(UsageFault {
            word,
            kind: UsageKind::MissingName,
        });
    };
    match at_most(greatest, number_in(text.as_bytes())) {
        Some(number) => Ok(number),
        None => Err(UsageFault {
            word,
            kind: UsageKind::BadValue,
        }),
    }
}

/// The number, where it is at most the greatest.
fn at_most(greatest: u64, number: Option<u64>) -> Option<u64>
    ensures number { result ≡ lawful (λ value. nat_le value greatest) number }
    ensures bound { IfSome result (λ number. number ≤ greatest) }
{
    let number = number?;
    if number <= greatest {
        Some(number)
    } else {
        None
    }
}
