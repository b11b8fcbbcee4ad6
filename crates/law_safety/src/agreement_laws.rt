//! How far two nodes of one round are apart in true time, each law a function that does nothing and has the law as its
//! contract.

ghost use Rattle.law_trails.specs.OnePacket.{one_packet, drifting, one_packet_log};
ghost use Rattle.law_safety.specs.AgreeingNodes.{AgreeInProfileOne, AgreeInProfileTwo, HeedfulNodesAgree, LawfulNodesAgree};
ghost use Rattle.law_safety.specs.AgreeingNodes.{OpensAt};

/// Two nodes that take part in a round, each at a tick of its own, come to each point of each of its slots at true ticks that
/// differ by less than the profile's budget for two zeros, each by its own clock and reference. By that much differ too the
/// ticks at which they open their windows of one slot, also where a window opens late. So it is in every protocol-obedient
/// log (`heedful`) and every valid one (`lawful`), whatever is lost and whichever nodes reboot: less than 44,960 ticks in
/// profile 1 (`first`), and less than 58,300 in profile 2 (`second`).
pub fn nodes_of_a_round_agree()
    ensures heedful { HeedfulNodesAgree }
    ensures lawful { LawfulNodesAgree }
    ensures first { AgreeInProfileOne }
    ensures second { AgreeInProfileTwo }
{}

/// Worked example, in the rounds of one packet, whose log is valid: node 1 hosts, its clock gains 20 millionths, and that of node
/// 2 loses as much. They open their windows of slot 0 in frame 9 at ticks 2367952641 (`host`) and 2367993428 (`member`): 40,787
/// ticks apart, by a schedule that is four frames old.
pub fn openings_of_one_packet()
    ensures host { OpensAt one_packet drifting one_packet_log 1 2367952641 0 9 0 2367952641 }
    ensures member { OpensAt one_packet drifting one_packet_log 2 2367993428 0 9 0 2367993428 }
{}
