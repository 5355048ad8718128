//! Names in tables: protocols, states, matches and targets.
//!
//! A table is a text of words. Those of protocols and states have words such as `udp=17`. In the
//! others the name of a match or target stands before its options, in the order in which
//! iptables-save prints them. After `/` stands how many words follow an option, if that isn't one.

ghost use Rattle.std.specs.Prelude.{◌≡◌, ◌<◌, drop, length};
ghost use Rattle.text_scan.specs.Parts.{words_of};
ghost use Rattle.iptables_reader.specs.Tables.{answer_table, count_said, is_elsewhere, is_option, match_table};
ghost use Rattle.iptables_reader.specs.Tables.{option_from, option_in, owner_from, owner_in};
ghost use Rattle.iptables_reader.specs.Tables.{protocol_table, state_table, target_in, target_table};

use crate::saved_tables::SavedTable;
use field_defs::Family;
use list_packets::plain_number;
use text_scan::{next_word, split_once};

/// The greatest number in a table.
const MAX_NUMBER: u64 = 255;

/// An option of a table: how many words follow it, and the place after it in the table.
#[derive(Clone, Copy)]
pub(crate) struct Listed {
    pub(crate) count: u64,
    pub(crate) after: usize,
}

/// The numbers of protocols by their names, as protocols(5) and iptables have them.
#[tactic(auto, unfolding(crate::specs::Tables::protocol_table))]
pub(crate) fn protocols() -> &'static [u8]
    ensures { result.now ≡ protocol_table }
{
    b"tcp=6 udp=17 icmp=1 ipv6-icmp=58 all=0 sctp=132 gre=47 esp=50 ah=51 ip=0 hopopt=0 igmp=2 \
    ggp=3 ipencap=4 st=5 egp=8 igp=9 pup=12 hmp=20 xns-idp=22 rdp=27 iso-tp4=29 dccp=33 \
    xtp=36 ddp=37 idpr-cmtp=38 ipv6=41 ipv6-route=43 ipv6-frag=44 idrp=45 rsvp=46 skip=57 \
    ipv6-nonxt=59 ipv6-opts=60 rspf=73 vmtp=81 eigrp=88 ospf=89 ax.25=93 ipip=94 etherip=97 \
    encap=98 pim=103 ipcomp=108 vrrp=112 l2tp=115 isis=124 fc=133 mobility-header=135 \
    udplite=136 mpls-in-ip=137 manet=138 hip=139 shim6=140 wesp=141 rohc=142 ethernet=143 \
    icmpv6=58 ipv6-mh=135 mh=135"
        .as_slice()
}

/// The states of a connection. Those whose addresses are changed have one number.
#[tactic(auto, unfolding(crate::specs::Tables::state_table))]
pub(crate) fn states() -> &'static [u8]
    ensures { result.now ≡ state_table }
{
    b"INVALID=1 NEW=2 ESTABLISHED=3 RELATED=4 UNTRACKED=5 SNAT=6 DNAT=6".as_slice()
}

/// The matches, each before those of its options that no rule file says.
#[tactic(auto, unfolding(crate::specs::Tables::match_table))]
pub(crate) fn matches() -> &'static [u8]
    ensures { result.now ≡ match_table }
{
    b"tcp --tcp-option --tcp-flags/2 --syn/0 udp comment multiport state iprange icmp sctp \
    --chunk-types/2 icmp6 --icmpv6-type conntrack --ctproto --ctorigsrc --ctorigdst \
    --ctreplsrc --ctrepldst --ctorigsrcport --ctorigdstport --ctreplsrcport \
    --ctrepldstport --ctstatus --ctexpire --ctdir addrtype --limit-iface-in/0 \
    --limit-iface-out/0 limit --limit --limit-burst mark --mark connmark --mark mac \
    --mac-source length --length hashlimit --hashlimit-upto --hashlimit-above \
    --hashlimit-burst --hashlimit-mode --hashlimit-name --hashlimit-htable-size \
    --hashlimit-htable-max --hashlimit-htable-gcinterval --hashlimit-htable-expire \
    --hashlimit-srcmask --hashlimit-dstmask --hashlimit-rate-match/0 \
    --hashlimit-rate-interval recent --set/0 --rcheck/0 --update/0 --remove/0 --seconds \
    --reap/0 --hitcount --rttl/0 --name --mask --rsource/0 --rdest/0 set --match-set/2 \
    --return-nomatch/0 --update-counters/0 --update-subcounters/0 ttl --ttl-eq --ttl-gt \
    --ttl-lt hl --hl-eq --hl-gt --hl-lt tos --tos dscp --dscp --dscp-class pkttype \
    --pkt-type owner --socket-exists/0 --uid-owner --gid-owner --suppl-groups/0 helper \
    --helper quota --quota physdev --physdev-is-in/0 --physdev-in --physdev-is-out/0 \
    --physdev-out --physdev-is-bridged/0 connlimit --connlimit-upto --connlimit-above \
    --connlimit-mask --connlimit-saddr/0 --connlimit-daddr/0 string --string --hex-string \
    --algo --from --to --icase/0 statistic --mode --probability --every --packet time \
    --timestart --timestop --contiguous/0 --weekdays --monthdays --datestart --datestop \
    --kerneltz/0 policy --dir --pol --strict/0 --reqid --spi --proto --mode --tunnel-src \
    --tunnel-dst --next/0 tcpmss --mss rpfilter --loose/0 --validmark/0 --accept-local/0 \
    --invert/0 u32 --u32 socket --transparent/0 --nowildcard/0 --restore-skmark/0 \
    connbytes --connbytes --connbytes-mode --connbytes-dir"
        .as_slice()
}

/// The targets after which the next rule is asked, each before its options.
#[tactic(auto, unfolding(crate::specs::Tables::target_table))]
pub(crate) fn targets() -> &'static [u8]
    ensures { result.now ≡ target_table }
{
    b"LOG --log-prefix --log-level --log-tcp-sequence/0 --log-tcp-options/0 --log-ip-options/0 \
    --log-uid/0 --log-macdecode/0 NFLOG --nflog-prefix --nflog-group --nflog-range \
    --nflog-size --nflog-threshold ULOG --ulog-prefix --ulog-nlgroup --ulog-cprange \
    --ulog-qthreshold TRACE MARK --set-mark --set-xmark --and-mark --or-mark --xor-mark \
    CONNMARK --set-mark --set-xmark --and-mark --or-mark --xor-mark --save-mark/0 \
    --restore-mark/0 --nfmask --ctmask --mask SECMARK --selctx CONNSECMARK --save/0 \
    --restore/0 CLASSIFY --set-class AUDIT --type CHECKSUM --checksum-fill/0 TCPMSS \
    --set-mss --clamp-mss-to-pmtu/0 NOTRACK CT --notrack/0 --helper --ctevents --expevents \
    --zone --zone-orig --zone-reply --timeout SET --add-set/2 --del-set/2 --map-set/2 \
    --exist/0 --timeout --map-mark/0 --map-prio/0 --map-queue/0 LED --led-trigger-id \
    --led-delay --led-always-blink/0 RATEEST --rateest-name --rateest-interval \
    --rateest-ewmalog TOS --set-tos --and-tos --or-tos --xor-tos DSCP --set-dscp \
    --set-dscp-class TTL --ttl-set --ttl-dec --ttl-inc HL --hl-set --hl-dec --hl-inc \
    DNAT --to-destination --random/0 --persistent/0 SNAT --to-source --random/0 \
    --random-fully/0 --persistent/0 MASQUERADE --to-ports --random/0 \
    --random-fully/0 REDIRECT --to-ports --random/0 NETMAP --to"
        .as_slice()
}

/// The answers of REJECT of a family, besides a reset.
#[tactic(auto, unfolding(crate::specs::Tables::answer_table))]
pub(crate) fn answers(family: Family) -> &'static [u8]
    ensures { result.now ≡ answer_table family }
{
    match family {
        Family::Ip4 => b"icmp-port-unreachable icmp-net-unreachable icmp-host-unreachable \
            icmp-proto-unreachable icmp-net-prohibited icmp-host-prohibited icmp-admin-prohibited"
            .as_slice(),
        Family::Ip6 => b"icmp6-port-unreachable icmp6-no-route icmp6-adm-prohibited \
            icmp6-addr-unreachable icmp6-policy-fail icmp6-reject-route"
            .as_slice(),
    }
}

/// The place after the name of a match or target.
pub(crate) fn owner_in(table: &[u8], name: &[u8]) -> Option<usize>
    ensures { result ≡ owner_in name.now table.now }
{
    if is_option(name) {
        return None;
    }
    let mut place = 0;
    let mut left = table;
    while let Some((word, rest)) = next_word(left) {
        place += 1;
        if word == name {
            return Some(place);
        }
        left = rest;
    }
    None
}

/// The place after the name of a target that may stand in a rule of a table.
pub(crate) fn target_in(table: SavedTable, name: &[u8]) -> Option<usize>
    ensures { result ≡ target_in table name.now }
{
    if is_elsewhere(table, name) {
        return None;
    }
    owner_in(targets(), name)
}

/// Whether a target stands in no rule of a table: those that change addresses stand in `nat`.
fn is_elsewhere(table: SavedTable, name: &[u8]) -> bool
    ensures { result ≡ is_elsewhere table name.now }
{
    match table {
        SavedTable::Nat => false,
        SavedTable::Filter | SavedTable::Raw | SavedTable::Mangle | SavedTable::Security => {
            owner_in(b"DNAT SNAT MASQUERADE REDIRECT NETMAP".as_slice(), name).is_some()
        }
    }
}

/// Whether a word is an option.
fn is_option(word: &[u8]) -> bool
    ensures { result ≡ is_option word.now }
{
    matches!(word, [b'-', ..])
}

/// An option of a match or target, from a place on after its name.
pub(crate) fn option_in(table: &[u8], place: usize, name: &[u8]) -> Option<Listed>
    ensures { result ≡ option_in name.now place table.now }
{
    let mut after = place;
    let mut left = words_from(table, place);
    while let Some((word, rest)) = next_word(left) {
        if !is_option(word) {
            return None;
        }
        after = after.saturating_add(1);
        match count_said(word, name) {
            Some(count) => return Some(Listed { count, after }),
            None => left = rest,
        }
    }
    None
}

/// The text of a table from a word on.
fn words_from(table: &[u8], place: usize) -> &[u8]
    ensures { words_of result.now ≡ drop place (words_of table.now) }
{
    let mut left = table;
    for _ in 0..place {
        match next_word(left) {
            Some((_, rest)) => left = rest,
            None => return left,
        }
    }
    left
}

/// How many words follow an option, if the word of a table is that of the name.
fn count_said(word: &[u8], name: &[u8]) -> Option<u64>
    ensures { result ≡ count_said name.now word.now }
{
    match split_once(word, b'/') {
        Some((named, count)) => {
            if named != name {
                return None;
            }
            plain_number(count, MAX_NUMBER)
        }
        None => (word == name).then_some(1),
    }
}
