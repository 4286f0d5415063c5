//! Laws of code and its runs, for all programs.
ghost use Rattle.cs_cfg.specs.Laws.{BlocksBeginAtSpots, CodeKeepsRunLaws, FramesBeginAsTheFlow, FramesEndAsTheFlow, JumpsAreSilent, LoweredCodeFollowsFlow, LoweredCodePassesAlike, PlacedCodeIsLowered, PlacedCodeRunsAlike, PointsAreAtSpots, ProgramsFollowFlow, ProgramsKeepRunLaws, StepsGoBySpots, StepsTouchAsReported};

/// Code whose graphs execute the bodies of a program's functions runs as the reference machine does: for every entry with a body, all
/// inputs, guesses and budgets, both runs end alike, or neither ends; with the same events, paths read and touches; the same is pending at
/// each event; and both return the same value and leave the same memory.
pub fn placed_code_runs_alike()
    ensures { PlacedCodeRunsAlike }
{}

/// Such code is the lowering of its program if each control point of its blocks is one of a function's statements, and each way out of it is
/// one of that point's. Then the graph of each function has exactly the control points of the function's statements, and on each way out of
/// each of them reaches next what the statements determine.
pub fn placed_code_is_lowered()
    ensures { PlacedCodeIsLowered }
{}

/// Code that is lowered from a program passes the events that the program passes, and reads the paths that it reads, and no others;
/// as far as two of their runs go, they show the same events, with the same pending at each.
pub fn lowered_code_passes_alike()
    ensures { LoweredCodePassesAlike }
{}

/// A run of any code depends on its inputs only through the cells that they yield where it looks one up; what is pending at an event doesn't
/// depend on guesses there and later, nor on a budget of events that allows it; and guesses that equal the results that a run has anyway
/// change only what its events show.
pub fn code_keeps_run_laws()
    ensures { CodeKeepsRunLaws }
{}

/// The same for runs of the reference machine.
pub fn programs_keep_run_laws()
    ensures { ProgramsKeepRunLaws }
{}

/// Each point of a function's graph, which is the rest of a block, is at a spot of the function.
pub fn points_are_at_spots()
    ensures { PointsAreAtSpots }
{}

/// Each block of a function is the point at the spot where it begins.
pub fn blocks_begin_at_spots()
    ensures { BlocksBeginAtSpots }
{}

/// The step of a run of any code from a state whose frames are at spots is that of the instruction at the spot of the current frame:
/// an operation works in the state whose frame is at the next spot.
pub fn steps_go_by_spots()
    ensures { StepsGoBySpots }
{}

/// A run of any code that is at a spot reaches each spot to which only jumps lead, without an event, a lookup or a touch on the way.
pub fn jumps_are_silent()
    ensures { JumpsAreSilent }
{}

/// A step of a run of any code touches what `Code::touch` reports for the spot from which it comes, in the current frame: exactly this, once,
/// if the run continues, and at most this if it ends.
pub fn steps_touch_as_reported()
    ensures { StepsTouchAsReported }
{}

/// Runs of the lowering of a program follow its flow: where a frame touches a control point other than a `return` or the end of the body,
/// and the run continues, the frame has left the point by a way that the flow of its function names, which the events show; and the control
/// point that this frame touches next, whatever other frames run in between, is the one that the flow names for that way.
pub fn lowered_code_follows_flow()
    ensures { LoweredCodeFollowsFlow }
{}

/// The same for runs of the reference machine.
pub fn programs_follow_flow()
    ensures { ProgramsFollowFlow }
{}

/// The first control point that a frame of a run touches is the beginning of its function, both in runs of code whose graphs execute the
/// bodies of a program's functions and in those of the reference machine.
pub fn frames_begin_as_the_flow()
    ensures { FramesBeginAsTheFlow }
{}

/// Once a frame of a run of the reference machine has touched a `return`, or the end of its function's body, it touches no more control points.
pub fn frames_end_as_the_flow()
    ensures { FramesEndAsTheFlow }
{}
