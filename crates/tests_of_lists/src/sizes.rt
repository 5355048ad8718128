//! A list as long as users have.

use crate::runs::expect_in;
use std::alloc::AllocError;
use std::test::Fail;

/// How many rules the chain has.
const RULES: u32 = 2000;

/// What the rule file says of its packets.
const PREMISES: &str = "# IPv4 packets that come to this chain of filter:
# INPUT
# Other tables weren't in this list, so whether one drops them isn't known.
# Of each of them this is assumed:
# nothing
# Headers are complete: legacy iptables drops others at -m tcp, udp and sctp.
# No fragments: on later ones a match of ports fails.
# data= is 1 to accept, 2 to drop and 3 to reject.
";

/// The number's digit that stands so many places before its last one.
fn digit(number: u32, place: u32) -> u8 {
    b'0' + (number / 10u32.wrapping_pow(place).max(1) % 10) as u8
}

/// The address 10.0.0.0 to 10.9.9.9 that the lowest three digits of a number make.
fn push_address(text: &mut Vec<u8>, number: u32) -> Result<(), AllocError> {
    text.extend_from_slice(b"10")?;
    for place in [2, 1, 0] {
        text.push(b'.')?;
        text.push(digit(number, place))?;
    }
    Ok(())
}

/// The rule of this number, from 0, as `iptables-save` prints it: packets of an address to a port
/// are dropped.
fn push_rule(text: &mut Vec<u8>, number: u32) -> Result<(), AllocError> {
    text.extend_from_slice(b"-A INPUT -s ")?;
    push_address(text, number)?;
    text.extend_from_slice(b"/32 -p tcp -m tcp --dport 4")?;
    text.push(digit(number, 3))?;
    text.extend_from_slice(b" -j DROP\n")
}

/// The number's last six digits.
fn push_six(text: &mut Vec<u8>, number: u32) -> Result<(), AllocError> {
    for place in [5, 4, 3, 2, 1, 0] {
        text.push(digit(number, place))?;
    }
    Ok(())
}

/// The same rule in the rule file, with the verdict of packets that are dropped.
fn push_line(text: &mut Vec<u8>, number: u32) -> Result<(), AllocError> {
    text.extend_from_slice(b"# ")?;
    push_rule(text, number)?;
    text.push(b'@')?;
    push_address(text, number)?;
    text.extend_from_slice(b"/32\t0.0.0.0/0\t0 : 65535\t4")?;
    text.push(digit(number, 3))?;
    text.extend_from_slice(b" : 4")?;
    text.push(digit(number, 3))?;
    text.extend_from_slice(b"\t0x06/0xFF\tpri=")?;
    push_six(text, 262_144u32.wrapping_sub(number))?;
    text.extend_from_slice(b" cat=65535 data=2\n")
}

#[test]
fn a_list_of_two_thousand_rules_comes_to_its_rule_file(rt: HostRuntime) -> Result<(), Fail> {
    let alloc = rt.alloc();
    let mut list = Vec::from_slice(alloc, b"*filter\n:INPUT ACCEPT [0:0]\n")?;
    let mut rules = Vec::from_slice(alloc, PREMISES.as_bytes())?;
    for number in 0..RULES {
        push_rule(&mut list, number)?;
        push_line(&mut rules, number)?;
    }
    list.extend_from_slice(b"COMMIT\n")?;
    let policy = "# :INPUT ACCEPT [0:0]
@0.0.0.0/0\t0.0.0.0/0\t0 : 65535\t0 : 65535\t0x00/0x00\tpri=260144 cat=65535 data=1
";
    rules.extend_from_slice(policy.as_bytes())?;
    let words: &[&str] = &["iptables", "list", "INPUT", "data=verdict"];
    let want = (0, rules.as_slice(), b"" as &[u8], [0; 4]);
    expect_in(&rt, words, &list, 1_000_000, [0; 3], want)?;
    Ok(())
}
