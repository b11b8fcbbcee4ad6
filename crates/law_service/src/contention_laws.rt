//! Nodes that request in the same contention slot again and again, each law a function that does nothing and has the law as
//! its contract.

ghost use Rattle.law_service.specs.Contenders.{ContendersAreLost, ContendersStayTied, ContentionKeepsTies, DifferentPacketsCollide};
ghost use Rattle.law_service.specs.Contenders.{SchedulesKeepTies, ThreeSlotsPart, TiesShareSlots};

/// After equal tries, nodes whose ids are equal modulo 16 have the same contention slot of one, of two and of four
/// (`shared`), and nodes whose ids are 16 apart have different ones of three (`parted`).
pub fn ids_equal_modulo_16_share_slots()
    ensures shared { TiesShareSlots }
    ensures parted { ThreeSlotsPart }
{}

/// Take two nodes with ids that are equal modulo 16, and with equal tries and equal backoff. These are equal again after a
/// contention slot of their own in which both have a request due (`contention`). So they are after a schedule that acknowledges
/// neither, from a host that both know or neither knows (`schedules`).
pub fn ties_are_kept()
    ensures contention { ContentionKeepsTies }
    ensures schedules { SchedulesKeepTies }
{}

/// In a step in which two different packets reach a node that captures neither, it receives nothing (`step`). In a
/// contention slot without losses and capture lines in which two members request that have the same neighbours, nobody
/// accepts either request (`lost`). If their ids are equal modulo 16 and their tries and backoff equal, these are equal
/// again after the slot (`tied`).
pub fn contenders_meet_again()
    ensures step { DifferentPacketsCollide }
    ensures lost { ContendersAreLost }
    ensures tied { ContendersStayTied }
{}
