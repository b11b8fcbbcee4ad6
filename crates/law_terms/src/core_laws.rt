//! What happens to a node's core, on the bus and in the node table. Each law is a function that does nothing.

ghost use Rattle.law_terms.specs.CoreLaws.{OpeningsAreTheSame, ClosingsAreTheSame, FrameEndsAreTheSame, ScriptsAreTheSame, LossesAreTheSame};

/// When a window opens or closes, or a frame ends, the row of the node table leaves the core that the rules of the bus give.
pub fn rows_change_the_core_as_the_bus()
    ensures opening { OpeningsAreTheSame }
    ensures closing { ClosingsAreTheSame }
    ensures frame { FrameEndsAreTheSame }
{}

/// A node that matches the bus before the script lines of a frame matches it after them (`script`), and each line loses the
/// same packet (`losses`).
pub fn script_lines_do_the_same()
    ensures script { ScriptsAreTheSame }
    ensures losses { LossesAreTheSame }
{}
