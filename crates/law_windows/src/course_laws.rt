//! The course of a node through a frame. Each law is a function that does nothing.

ghost use Rattle.law_terms.specs.FrameCourses.{CoursesLaw};
ghost use Rattle.law_windows.specs.FramePlaces.{PlacesLaw, StrangersLaw};

/// In each frame of a valid (`Lawful`) run each node is either off throughout, or goes from the script lines at the start of
/// the frame through its windows, slot by slot, to the end of the frame. There its core is what the last window left, changed
/// as the end of a frame changes it.
pub fn nodes_go_through_frames_window_by_window()
    ensures { CoursesLaw }
{}

/// After the script lines of a frame a node that is on is where its tune puts it: it scans, awaits slot 0 of the round that is
/// due in this frame, or waits for a later one, and it is not fresh (`places`). An id that is no node has no windows
/// (`strangers`).
pub fn nodes_begin_frames_by_their_tune()
    ensures places { PlacesLaw }
    ensures strangers { StrangersLaw }
{}
