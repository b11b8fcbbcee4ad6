//! The course of a node at worked rounds. Each law is a function that does nothing and has the law as its contract.

ghost use Rattle.law_windows.specs.WorkedCourses.{AwaitsInFrame9, ClosesSlot0, EndsFrame5};
ghost use Rattle.law_windows.specs.WorkedCourses.{OpensSlot0, OpensSlot1, RestsInFrame7, StandsInFrame7And9};

/// Worked example, over clocks that drift apart: node 2 ends frame 5 as the closing schedule that it accepted has left it
/// (`ends`), rests in frame 7 without a window (`rests`), and awaits slot 0 at the start of frame 9 (`awaits`), each by its
/// tune (`stands`). There the window of slot 0 opens at this node (`opens`) and closes to one that awaits slot 1 (`closes`), at
/// which the next window opens (`follows`).
pub fn a_worked_node_goes_through_its_frames()
    ensures ends { EndsFrame5 }
    ensures rests { RestsInFrame7 }
    ensures awaits { AwaitsInFrame9 }
    ensures stands { StandsInFrame7And9 }
    ensures opens { OpensSlot0 }
    ensures closes { ClosesSlot0 }
    ensures follows { OpensSlot1 }
{}
