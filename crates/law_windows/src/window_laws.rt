//! What each window of a node is, each law a function that does nothing and has the law as its contract.

ghost use Rattle.law_windows.specs.WindowLaws.{DeliveriesAreOfWindows, FloodsAreHistory, FramesBeginSo, HearingsHappen};
ghost use Rattle.law_windows.specs.WindowLaws.{HistoryIsOnAir, NodesSendAsCalled, NodesTakePart, OneWindowASlot};
ghost use Rattle.law_windows.specs.WindowLaws.{RadiosAreOnInWindows, RoundsAreChained, ScannersJoinFirst, SlotsKeepApart};
ghost use Rattle.law_windows.specs.WindowLaws.{WindowsAreApart, WindowsCloseByRows, WindowsCloseInTheirFrames};
ghost use Rattle.law_windows.specs.WindowLaws.{FloodsAreOfTheirSlot, OnePartASlot, WindowsAreForTheirPart, WindowsCloseInTime};
ghost use Rattle.law_windows.specs.WindowLaws.{WindowsCoverTheirSlot, WindowsHaveEvents, WindowsOpenByRows};
ghost use Rattle.law_windows.specs.WindowLaws.{WindowsOpenInTime, WindowsStandByPower};

/// Each window opens by a row of the node table, at a member whose alarm is due or a scanning node that receives a schedule of
/// its rank (`opening`). Until it closes nothing of its node changes but the window, and then it closes by its row (`closing`).
pub fn windows_go_by_rows()
    ensures opening { WindowsOpenByRows }
    ensures closing { WindowsCloseByRows }
{}

/// Each window opens in its frame: where the node's clock comes to the opening of the slot, or as the window before closes, or
/// with a reference by the schedule that was received (`opening`). It closes where the clock comes to the closing of the slot
/// (`closing`).
pub fn windows_keep_to_their_times()
    ensures opening { WindowsOpenInTime }
    ensures closing { WindowsCloseInTime }
{}

/// A node that is in a window has that one open and no other, and any other node has none (`stand`). Each window has closed
/// before the next opened (`apart`) and before the next frame starts (`closed`), and no two are of one slot of one round
/// (`once`). The node's deliveries are those of its windows that have closed (`deliveries`).
pub fn windows_are_all_there_is()
    ensures stand { WindowsStandByPower }
    ensures apart { WindowsAreApart }
    ensures closed { WindowsCloseInTheirFrames }
    ensures once { OneWindowASlot }
    ensures deliveries { DeliveriesAreOfWindows }
{}

/// While a window is open, what ends on its channel and in its frame is of its slot (`apart`). What is sent in its slot ends
/// before it closes, and starts after it has opened by its alarm (`covered`).
pub fn windows_are_open_for_their_slot()
    ensures apart { SlotsKeepApart }
    ensures covered { WindowsCoverTheirSlot }
{}

/// The flood of each window is what was done when it opened, and all that happened in it, have made of it (`flood`). What happened is in the
/// log: receptions of its frame and channel, and its own transmissions in its slot, one after another since it opened
/// (`history`). Nothing that its node received meanwhile is left out (`all`).
pub fn windows_have_their_history()
    ensures flood { FloodsAreHistory }
    ensures history { HistoryIsOnAir }
    ensures all { HearingsHappen }
{}

/// A node sends what its windows call for, and nothing else: what it says as it begins a flood, at the start of the slot, and
/// each relay with which a window's flood answers what was received, a turnaround after it. A transmission that is over has its
/// end in the window that called for it.
pub fn nodes_send_what_their_windows_call_for()
    ensures { NodesSendAsCalled }
{}

/// A window of slot 0 that opens by its alarm, and one that a received schedule opens, find their node as the script lines of
/// the frame have left it (`first`). A window of a later slot that opens by its alarm finds it as the window of the slot before
/// has left it, in the same round; so does the next after each window that closes with slots to come, unless the node still
/// awaits it (`next`). A scanning node's window opens by the first schedule of its rank that its node receives in the frame
/// (`joining`).
pub fn windows_of_a_round_follow_one_another()
    ensures first { FramesBeginSo }
    ensures next { RoundsAreChained }
    ensures joining { ScannersJoinFirst }
{}

/// At each tick of a window its node is tuned, by the log, to the channel of the window as long as fewer transmissions have
/// ended in it than a node sends at most, and to no channel from then on.
pub fn radios_are_on_in_windows()
    ensures { RadiosAreOnInWindows }
{}

/// Along a valid (`Lawful`) log the events of a window are all receptions of its slot and all of its own transmissions in it,
/// by their ends and none twice, and the flood of the window is what they have made of it (`events`). By these its node takes
/// part in the flood of the slot: with counter 0 it sends what it says, and with another counter exactly what its flood relays,
/// a turnaround after what it received (`part`).
pub fn windows_have_their_events()
    ensures events { WindowsHaveEvents }
    ensures part { NodesTakePart }
{}

/// The part that a window goes by is the opening schedule, in slot 0, or what the plan that was sent for its round has in its
/// slot (`part`), and its flood is of the kind of that part (`flood`). So windows of one slot go by one part, at all nodes
/// (`one`).
pub fn windows_of_a_slot_are_for_one_part()
    ensures part { WindowsAreForTheirPart }
    ensures flood { FloodsAreOfTheirSlot }
    ensures one { OnePartASlot }
{}
