// A path's strokes in fixed numbers, drawn one by one: the pen point, the subpath's start and the pen go in by value and come
// back, beside the lent words. zeno's `Rasterizer` without its storage and its sweep.
#![tactic(auto)]

ghost use Rattle.std.specs.Prelude.{◌≡◌};
ghost use Rattle.storage.specs.Answers.{Within};
ghost use Rattle.pen.specs.Drawing.{Ready, Added, Drew, lifted, stand_of};
ghost use Rattle.raster.specs.Path.{corner, move_marks, end_of};
ghost use Rattle.raster.specs.Tracing.{ReachAll, Stroked};

mod tracks;

use cubic::Cubic;
use fixed::FixedPoint;
use pen::{Board, Pen};
use quad::Quad;
use storage::Kept;
pub use tracks::Track;

// A command in fixed numbers.
#[derive(Clone, Copy, Debug, PartialEq, Eq)]
pub enum Stroke {
    Move(FixedPoint),
    Line(FixedPoint),
    Quad(FixedPoint, FixedPoint),
    Cubic(FixedPoint, FixedPoint, FixedPoint),
    Close,
}

// Before the first stroke: the pen is in no cell.
pub fn begin() -> Track
    ensures pen { result.pen ≡ lifted }
    ensures at { result.at ≡ corner }
    ensures start { result.start ≡ corner }
{
    let corner = FixedPoint {
        x: fixed::BIAS,
        y: fixed::BIAS,
    };
    Track {
        pen: pen::lift(),
        at: corner,
        start: corner,
    }
}

// MoveTo: the open subpath is closed, and the pen enters the new point's cell.
fn move_to(ws: &mut [u32], board: Board, t: Track, b: FixedPoint) -> Pen
    requires ready { Ready board ws.old }
    requires within { Within board.cap t.pen.kept }
    ensures { Drew board ws.old ws.new t.pen result (move_marks board.frame t.at t.start b) }
{
    let closed = line::line_to(ws, board, t.pen, t.at, t.start);
    pen::set_cell(
        ws,
        board,
        closed,
        fixed::trunc(b.x) as u64,
        fixed::trunc(b.y) as u64,
    )
}

// Draws one stroke.
pub fn trace(ws: &mut [u32], board: Board, t: Track, s: Stroke) -> Track
    requires ready { Ready board ws.old }
    requires within { Within board.cap t.pen.kept }
    requires reach { ReachAll s }
    ensures { Stroked board ws.old ws.new t s result }
{
    let a = t.at;
    let start = t.start;
    match s {
        Stroke::Move(b) => {
            let pen = move_to(ws, board, t, b);
            Track {
                pen,
                at: b,
                start: b,
            }
        }
        Stroke::Line(b) => {
            let pen = line::line_to(ws, board, t.pen, a, b);
            Track { pen, at: b, start }
        }
        Stroke::Quad(c, b) => {
            let pen = quad::quad_to(ws, board, t.pen, Quad { a, c, b });
            Track { pen, at: b, start }
        }
        Stroke::Cubic(c, d, b) => {
            let pen = cubic::curve_to(ws, board, t.pen, Cubic { a, c, d, b });
            Track { pen, at: b, start }
        }
        Stroke::Close => {
            let pen = line::line_to(ws, board, t.pen, a, start);
            Track {
                pen,
                at: start,
                start,
            }
        }
    }
}

// The end: the open subpath is closed, and the last cell is stored.
pub fn finish(ws: &mut [u32], board: Board, t: Track) -> Kept
    requires ready { Ready board ws.old }
    requires within { Within board.cap t.pen.kept }
    ensures within { Within board.cap result }
    ensures added { Added board ws.old ws.new t.pen.kept result (end_of board.frame (stand_of t.pen) t.at t.start) }
{
    let closed = line::line_to(ws, board, t.pen, t.at, t.start);
    pen::finish(ws, board, closed)
}
