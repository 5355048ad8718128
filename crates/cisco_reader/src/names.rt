//! Words that are known, numbers, and the words that name ports and protocols.

ghost use Rattle.std.specs.Prelude.{◌≡◌, ◌≤◌, IfSome};
ghost use Rattle.text_scan.specs.Parts.{words_of};
ghost use Rattle.cisco_reader.specs.Names as meant;

use text_scan::{digits_value, next_word};

/// The greatest port.
pub(crate) const MAX_PORT: u64 = 65_535;

/// The greatest number of a protocol.
pub(crate) const MAX_PROTOCOL: u64 = 255;

/// The number that a word spells in decimal, if it is at most so great.
pub(crate) fn number(word: &[u8], greatest: u64) -> Option<u64>
    ensures number { result ≡ meant.number_of greatest word.now }
    ensures bound { IfSome result (λ number. number ≤ greatest) }
{
    if word.is_empty() {
        return None;
    }
    let number = digits_value(word, 10)?;
    (number <= greatest).then_some(number)
}

/// The number that stands after a name, in a table of names and numbers between blanks.
#[tactic(auto, unfolding(crate::specs::Names::number_named))]
fn number_named(word: &[u8], table: &[u8]) -> Option<u64>
    ensures number { result ≡ meant.number_named word.now (words_of table.now) }
    ensures bound { IfSome result (λ number. number ≤ 65535) }
{
    let mut left = table;
    while let Some((name, rest)) = next_word(left) {
        let Some((value, rest)) = next_word(rest) else {
            return None;
        };
        if name == word {
            return number(value, MAX_PORT);
        }
        left = rest;
    }
    None
}

/// The numbers of ports by their names, as IOS has them.
#[tactic(auto, unfolding(crate::specs::Names::port_table))]
fn ports() -> &'static [u8]
    ensures { result.now ≡ meant.port_table }
{
    b"bgp 179 biff 512 bootpc 68 bootps 67 chargen 19 cmd 514 daytime 13 discard 9 dnsix 195 \
    domain 53 drip 3949 echo 7 exec 512 finger 79 ftp 21 ftp-data 20 gopher 70 hostname 101 \
    ident 113 irc 194 isakmp 500 klogin 543 kshell 544 ldp 646 login 513 lpd 515 \
    mobile-ip 434 msrpc 135 nameserver 42 netbios-dgm 138 netbios-ns 137 netbios-ss 139 \
    nntp 119 non500-isakmp 4500 ntp 123 pim-auto-rp 496 pop2 109 pop3 110 rip 520 smtp 25 \
    snmp 161 snmptrap 162 ssh 22 sunrpc 111 syslog 514 tacacs 49 talk 517 telnet 23 tftp 69 \
    time 37 uucp 540 who 513 whois 43 www 80 xdmcp 177"
        .as_slice()
}

/// The numbers of protocols by their names, as IOS has them.
#[tactic(auto, unfolding(crate::specs::Names::protocol_table))]
fn protocols() -> &'static [u8]
    ensures { result.now ≡ meant.protocol_table }
{
    b"ahp 51 eigrp 88 esp 50 gre 47 icmp 1 igmp 2 igrp 9 ipinip 4 nos 94 ospf 89 pcp 108 \
    pim 103 sctp 132 tcp 6 udp 17"
        .as_slice()
}

/// The number of a port, by its name or its number.
pub(crate) fn port(word: &[u8]) -> Option<u64>
    ensures number { result ≡ meant.port_of word.now }
    ensures bound { IfSome result (λ number. number ≤ 65535) }
{
    if let Some(number) = number_named(word, ports()) {
        return Some(number);
    }
    number(word, MAX_PORT)
}

/// The number of a protocol, by its name or its number.
pub(crate) fn protocol_number(word: &[u8]) -> Option<u64>
    ensures { result ≡ meant.protocol_of word.now }
{
    if let Some(number) = number_named(word, protocols()) {
        return Some(number);
    }
    number(word, MAX_PROTOCOL)
}

/// Kinds of words that are known.
#[derive(Clone, Copy)]
pub(crate) enum Known {
    /// They begin a comparison of an entry that a rule can't say.
    Compared,
    /// They begin a log at the end of an entry.
    Log,
    /// They begin entries of numbered lists.
    NumberedEntry,
    /// They begin parts of a configuration without entries of lists.
    Part,
    /// They begin entries of lists with names.
    Entry,
    /// They end a part.
    End,
    /// The protocols of lists with names, and `hardware`.
    Named,
    /// They stand for addresses.
    Address,
    /// The protocols of IP.
    Ip,
    /// The kinds of groups.
    GroupKind,
    /// They set something in the place of a number of a list.
    Unread,
    /// The kinds of lists whose entries aren't read.
    UnreadKind,
    /// They set something for lists, and begin none.
    Setting,
    /// The kinds of banners.
    BannerKind,
}

impl Known {
    ghost use Rattle.std.specs.Prelude.{◌≡◌};
    ghost use Rattle.cisco_reader.specs.Names as meant;

    /// The words, between blanks.
    #[tactic(auto, unfolding(crate::specs::Names::log_words, crate::specs::Names::entry_words))]
    fn words(self) -> &'static [u8]
        ensures { result.now ≡ meant.words_for self }
    {
        match self {
            Known::Compared => compared_words(),
            Known::Log => b"log log-input",
            Known::NumberedEntry => b"permit deny remark dynamic",
            Known::Part => part_words(),
            Known::Entry => b"permit deny remark evaluate",
            Known::End => b"exit end",
            Known::Named => b"ip ipv6 mac arp ipx appletalk ethernet-services hardware",
            Known::Address => b"any host object-group addrgroup net-group",
            Known::Ip => b"ip ipv6",
            Known::GroupKind => b"network service v6-network v6-service security",
            Known::Unread => b"compiled rate-limit dynamic-extended",
            Known::UnreadKind => b"role-based fqdn",
            Known::Setting => b"log-update logging persistent helper match-local-traffic",
            Known::BannerKind =>
                b"exec incoming login motd prompt-timeout slip-ppp config-save text",
        }
    }

    /// Whether a word is one of them.
    pub(crate) fn has(self, word: &[u8]) -> bool
        ensures { result ≡ meant.is_known self word.now }
    {
        is_among(word, self.words())
    }
}

/// The words that begin a comparison of an entry that a rule can't say.
#[tactic(auto, unfolding(crate::specs::Names::compared_words))]
fn compared_words() -> &'static [u8]
    ensures { result.now ≡ meant.words_for Known.Compared }
{
    b"fragments fragment-type dscp precedence tos time-range option ttl reflect evaluate \
    packet-length vlan routing dest-option mobility hbh destopts authen flow-label ack fin \
    psh rst syn urg established match-all match-any tcp-flags-mask"
        .as_slice()
}

/// The words that begin parts of a configuration without entries of lists.
#[tactic(auto, unfolding(crate::specs::Names::part_words))]
fn part_words() -> &'static [u8]
    ensures { result.now ≡ meant.words_for Known.Part }
{
    b"aaa access-session alias archive arp authentication banner bba-group bfd boot \
    boot-end-marker boot-start-marker bridge buffers Building call call-home card cdp class-map \
    clns clock config-register control-plane controller crypto cts Current device-tracking \
    diagnostic dial-peer dialer dialer-list dot11 dot1x dspfarm enable epm errdisable ethernet \
    event exception facility-alarm flow frame-relay ftp-server hostname hw-module identity \
    interface ip ipc ipv6 ipx isdn kerberos key kron l2 l2tp-class l2vpn lacp ldap license line \
    lldp logging login mab mac mac-address-table macro map-class map-list memory memory-size mls \
    modemcap monitor mpls multilink netconf netconf-yang network-clock network-policy ntp onep \
    parameter-map parser pcep platform policy-map port-channel power privilege process prompt \
    pseudowire-class ptp qos queue-list radius radius-server redundancy restconf rmon route-map \
    router rtr sampler scheduler sdm security service service-template shell sip-ua snmp \
    snmp-server software spanning-tree stackwise standby subscriber switch system tacacs \
    tacacs-server telemetry template tftp-server track transceiver tunnel udld upgrade username \
    Using version virtual-service virtual-template vlan voice voice-port vpdn vpdn-group vrf vtp \
    wireless wlan wsma x25 zone zone-pair"
        .as_slice()
}

/// Whether a word is one of those between blanks.
#[tactic(auto, unfolding(crate::specs::Names::is_among))]
fn is_among(word: &[u8], words: &[u8]) -> bool
    ensures { result ≡ meant.is_among word.now (words_of words.now) }
{
    let mut left = words;
    while let Some((one, rest)) = next_word(left) {
        if one == word {
            return true;
        }
        left = rest;
    }
    false
}
