//! Lists of each form, and the rule files that they come to, worked out by hand.

/// A list of `iptables-save`: packets to port 80 from 10.0.0.0/8 are accepted, and others dropped.
pub(crate) const SAVED: &str = "*filter
:INPUT ACCEPT [0:0]
:WEB - [0:0]
-A INPUT -p tcp -m tcp --dport 80 -j WEB
-A INPUT -j DROP
-A WEB -s 10.0.0.0/8 -j ACCEPT
COMMIT
";

/// Its rules, each with the number of its line.
pub(crate) const SAVED_LINES: &str = "# IPv4 packets that come to this chain of filter:
# INPUT
# Other tables weren't in this list, so whether one drops them isn't known.
# Of each of them this is assumed:
# nothing
# Headers are complete: legacy iptables drops others at -m tcp, udp and sctp.
# No fragments: on later ones a match of ports fails.
# data= is the number of the line that decides.
# -A WEB -s 10.0.0.0/8 -j ACCEPT
@10.0.0.0/8\t0.0.0.0/0\t0 : 65535\t80 : 80\t0x06/0xFF\tpri=262144 cat=65535 data=6
# -A INPUT -j DROP
@0.0.0.0/0\t0.0.0.0/0\t0 : 65535\t0 : 65535\t0x00/0x00\tpri=262143 cat=65535 data=5
";

/// The same with verdicts: 1 accepts and 2 drops.
pub(crate) const SAVED_VERDICTS: &str = "# IPv4 packets that come to this chain of filter:
# INPUT
# Other tables weren't in this list, so whether one drops them isn't known.
# Of each of them this is assumed:
# nothing
# Headers are complete: legacy iptables drops others at -m tcp, udp and sctp.
# No fragments: on later ones a match of ports fails.
# data= is 1 to accept, 2 to drop and 3 to reject.
# -A WEB -s 10.0.0.0/8 -j ACCEPT
@10.0.0.0/8\t0.0.0.0/0\t0 : 65535\t80 : 80\t0x06/0xFF\tpri=262144 cat=65535 data=1
# -A INPUT -j DROP
@0.0.0.0/0\t0.0.0.0/0\t0 : 65535\t0 : 65535\t0x00/0x00\tpri=262143 cat=65535 data=2
";

/// A list of `ip6tables-save` of a policy alone.
pub(crate) const SAVED6: &str = "*filter\n:FORWARD DROP [0:0]\nCOMMIT\n";

/// A chain without rules lets its policy decide, which has the number of its line.
pub(crate) const SAVED6_LINES: &str = "# IPv6 packets that come to this chain of filter:
# FORWARD
# Other tables weren't in this list, so whether one drops them isn't known.
# Of each of them this is assumed:
# nothing
# Headers are complete, without AH: legacy ip6tables drops others, or looks behind AH.
# No fragments: on later ones a match of ports fails.
# data= is the number of the line that decides.
# :FORWARD DROP [0:0]
@0:0:0:0:0:0:0:0/0\t0:0:0:0:0:0:0:0/0\t0 : 65535\t0 : 65535\t0x00/0x00\tpri=262144 cat=65535 data=2
";

/// An extended list of Cisco IOS.
pub(crate) const ROUTER: &str = "ip access-list extended EDGE
 10 permit tcp any host 10.0.0.1 eq 443
 20 deny ip any any
";

/// Its rules.
pub(crate) const ROUTER_LINES: &str = "# IPv4 packets that this access list is applied to:
# EDGE
# Whether another access list drops them isn't known.
# Of each of them this is assumed:
# nothing
# Headers are complete.
# No fragments: an entry that permits ports permits later ones by addresses alone.
# data= is the number of the line that decides, and 0 if none does.
#  10 permit tcp any host 10.0.0.1 eq 443
@0.0.0.0/0\t10.0.0.1/32\t0 : 65535\t443 : 443\t0x06/0xFF\tpri=262144 cat=65535 data=2
#  20 deny ip any any
@0.0.0.0/0\t0.0.0.0/0\t0 : 65535\t0 : 65535\t0x00/0x00\tpri=262143 cat=65535 data=3
";

/// A ruleset of `nft -j`: a base chain that drops packets of one address.
pub(crate) const RULESET: &str = r#"{"nftables":[
{"table":{"family":"ip","name":"t","handle":1}},
{"chain":{"family":"ip","table":"t","name":"in","handle":2,
"type":"filter","hook":"input","prio":0,"policy":"accept"}},
{"rule":{"family":"ip","table":"t","chain":"in","handle":4,"expr":[
{"match":{"op":"==","left":{"payload":{"protocol":"ip","field":"saddr"}},"right":"10.0.0.1"}},
{"drop":null}]}}]}
"#;

/// Its rules, each with its handle, the chain's where its policy decides.
pub(crate) const RULESET_LINES: &str = "# IPv4 packets that come to this base chain:
# in
# No other base chain of this ruleset drops them.
# Of each of them this is assumed:
# nothing
# Headers are complete: on others a match of ports fails.
# No fragments: on later ones a match of ports fails.
# data= is the handle of the rule that decides, or of the chain by its policy.
# handle 4
@10.0.0.1/32\t0.0.0.0/0\t0 : 65535\t0 : 65535\t0x00/0x00\tpri=262144 cat=65535 data=4
# handle 2
@0.0.0.0/0\t0.0.0.0/0\t0 : 65535\t0 : 65535\t0x00/0x00\tpri=262143 cat=65535 data=2
";
