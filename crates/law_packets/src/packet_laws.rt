//! Packets that are put, sent and delivered, each law a function that does nothing and has the law as its contract.

ghost use Rattle.std.specs.Prelude.{◌≡◌, ◌+◌, ℕ, flat_map, map};
ghost use Rattle.std.specs.List.{sum_by};
ghost use Rattle.scenario_text.specs.ScenarioParts.{ScenarioParts};
ghost use Rattle.bus_terms.specs.Bus.{bus_deliveries};
ghost use Rattle.bus_terms.specs.Fates.{bus_fates, counts_of, deliveries_of, hosted_of};
ghost use Rattle.scenario_text.specs.OverLines.{IsOverScenario};
ghost use Rattle.bus_terms.specs.Packets.{bus_puts, bus_sent};
ghost use Rattle.law_packets.specs.Sendings.{AreOfSentPackets, AreQueuedOnce, AreSentInOrder, AreSentOnce, WerePut};
ghost use Rattle.law_packets.specs.Waiting.{WaitInQueues};

/// Each put line has one fate, in the order of the text.
pub fn each_put_has_one_fate()
    ensures { (s : ScenarioParts) → map (λ x. x.put) (bus_fates s) ≡ bus_puts s }
{}

/// Of the packets that a stream's put lines put, each was dropped, sent, waits at the end, or was cleared.
pub fn counts_add_up()
    ensures { (s : ScenarioParts) (v i : ℕ) → (counts_of s v i).put
        ≡ (counts_of s v i).dropped + (counts_of s v i).sent + (counts_of s v i).waiting + (counts_of s v i).cleared }
{}

/// Each packet that is sent is sent in a round that one node hosts: the counts of a stream by host add up to its packets sent.
pub fn hosted_counts_add_up()
    ensures { (s : ScenarioParts) → IsOverScenario s → (v i : ℕ) → sum_by (λ h. h.count) (hosted_of s (counts_of s v i)) ≡ (counts_of s v i).sent }
{}

/// The packets that are sent, each with its deliveries, are the deliveries of the bus in their order, so each delivery is of
/// just one of them (`whole`); it has the frame, the rank and the slot in which that was sent (`slots`).
pub fn deliveries_are_of_sent_packets()
    ensures whole { (s : ScenarioParts) → flat_map (λ t. deliveries_of s t.packet) (bus_sent s) ≡ bus_deliveries s }
    ensures slots { (s : ScenarioParts) → AreOfSentPackets s }
{}

/// Along a run the numbers of the packets that are sent of one stream of one boot strictly ascend (`order`), so no packet is
/// sent twice (`once`).
pub fn packets_are_sent_once()
    ensures order { (s : ScenarioParts) → AreSentInOrder (bus_sent s) }
    ensures once { (s : ScenarioParts) → AreSentOnce (bus_sent s) }
{}

/// Each packet that is sent was queued by a put line of its frame or of one before (`put`), and no two lines queue the same
/// packet (`once`).
pub fn sent_packets_were_put()
    ensures put { (s : ScenarioParts) → WerePut s }
    ensures once { (s : ScenarioParts) → AreQueuedOnce (bus_puts s) }
{}

/// A packet that a put line queued is said to wait if and only if it is in the queue of its stream after the last frame: at the
/// node of the line, which is on, and in the boot in which it was put.
pub fn waiting_packets_are_queued()
    ensures { (s : ScenarioParts) → IsOverScenario s → WaitInQueues s }
{}
