//! Control points as lines of text.
ghost use Rattle.std.specs.Prelude.{◌≡◌, ◌++◌, OnOk};
ghost use Rattle.std.specs.List.{flat_map};
ghost use Rattle.cs_cfg.specs.FlowText as cfg;
ghost use Rattle.cs_flow.specs.PointView.{exit_of, from_of, next_of, point_of, points_of};

use crate::point::{ControlPoint, Exit, Met, Way};
use crate::points::Points;
use cs_events::PointKind;
use cs_names::Name;
use cs_report_parts::{append, append_place};
use std::alloc::AllocError;

/// Appends the lines of control points, in their order.
pub(crate) fn append_points(
    text: &mut Vec<u8>,
    files: &[Name],
    points: &Points,
) -> Result<(), AllocError>
    ensures { OnOk result (text.new.items
        ≡ text.old.items ++ flat_map (cfg.point_lines files.now) (points_of points.now)) }
{
    for point in points.list.iter() {
        append_point(text, files, point)?;
    }
    Ok(())
}

/// Appends the lines of a control point: one for each way on which another one is reached.
fn append_point(text: &mut Vec<u8>, files: &[Name], point: &ControlPoint) -> Result<(), AllocError>
    ensures { OnOk result (text.new.items
        ≡ text.old.items ++ cfg.point_lines files.now (point_of point.now)) }
{
    let from = Met {
        kind: point.kind,
        place: point.place,
    };
    for way in &point.ways {
        append_way(text, files, from, *way)?;
    }
    Ok(())
}

/// Appends `  KIND PLACE WAY -> KIND PLACE`, if a control point is reached on the way.
fn append_way(text: &mut Vec<u8>, files: &[Name], from: Met, way: Way) -> Result<(), AllocError>
    ensures { OnOk result (text.new.items
        ≡ text.old.items ++ cfg.next_line files.now (from_of from) (exit_of way.exit)
        (next_of way.next)) }
{
    let Some(next) = way.next else {
        return Ok(());
    };
    append(text, "  ")?;
    append_met(text, files, from)?;
    append_exit(text, way.exit)?;
    append(text, " -> ")?;
    append_met(text, files, next)?;
    append(text, "\n")
}

/// Appends the text of a way out of a control point, after a space; nothing if it is the only way.
fn append_exit(text: &mut Vec<u8>, exit: Exit) -> Result<(), AllocError>
    ensures { OnOk result (text.new.items ≡ text.old.items ++ cfg.exit_text (exit_of exit)) }
{
    match exit {
        Exit::Onward => Ok(()),
        Exit::Truth(holds) => append(text, format_args!(" {holds}")),
        Exit::Case(number) => append(text, format_args!(" case {number}")),
    }
}

/// Appends `KIND PLACE`.
fn append_met(text: &mut Vec<u8>, files: &[Name], met: Met) -> Result<(), AllocError>
    ensures { OnOk result (text.new.items
        ≡ text.old.items ++ cfg.point_text files.now met.kind met.place) }
{
    append(text, kind_name(met.kind))?;
    append(text, " ")?;
    append_place(text, files, met.place)
}

/// Returns the word for a kind of control points.
fn kind_name(kind: PointKind) -> &'static str
    ensures { result.now ≡ cfg.kind_text kind }
{
    match kind {
        PointKind::Enter => "enter",
        PointKind::Head => "head",
        PointKind::Label => "label",
        PointKind::Branch => "branch",
        PointKind::Switch => "switch",
        PointKind::Return => "return",
        PointKind::End => "end",
    }
}
