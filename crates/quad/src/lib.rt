// Quads, from zeno's raster.rs. A quad is halved over a stack of 33 points, and a line goes to the end of each part: the
// pen makes the marks of those lines. The top of the stack is the part that comes next, its end first.
#![tactic(auto)]

ghost use Rattle.std.specs.Prelude.{◌≡◌, ◌^◌, ◌≤◌};
ghost use Rattle.storage.specs.Answers.{Within};
ghost use Rattle.pen.specs.Drawing.{Ready, Drew};
ghost use Rattle.quad.specs.Quads.{bend, doublings, quad_marks};
ghost use Rattle.quad.specs.Stack.{halved};

mod quads;

use fixed::FixedPoint;
use pen::{Board, Pen};
pub use quads::Quad;

// The larger |p0 + p2 - 2c|.
fn bend_of(quad: Quad) -> u32
    ensures { result ≡ bend quad.a quad.c quad.b }
{
    let Quad { a, c, b, .. } = quad;
    let dx = (a.x + b.x).abs_diff(2 * c.x);
    let dy = (a.y + b.y).abs_diff(2 * c.y);
    dx.max(dy)
}

// How many lines: one, doubled as often as the bend is quartered until it is at most 64.
fn lines_of(bend: u32) -> u32
    ensures { result ≡ 2 ^ doublings 16 bend }
{
    let mut d = bend;
    let mut n: u32 = 1;
    while d > 64 {
        d /= 4;
        n *= 2;
    }
    n
}

// The part at `top` is halved: its end half stays there, its start half comes above it.
fn halve(arc: [FixedPoint; 33], top: usize) -> [FixedPoint; 33]
    requires { top ≤ 28 }
    ensures { result ≡ halved arc top }
{
    let five = fixed::split_quad([arc[top], arc[top + 1], arc[top + 2]]);
    let mut parts = arc;
    parts[top + 1] = five[1];
    parts[top + 2] = five[2];
    parts[top + 3] = five[3];
    parts[top + 4] = five[4];
    parts
}

// A quad from a to b: `draw` lines are left, and the part at the top is halved as often as `rest` is even.
// The loop is not that of a cubic: how often a quad is halved is counted before it, while each part of a cubic is tested.
// The stack is an array of points with its top beside it: nothing here has a heap, and parts that lie next to each other share an
// end point, which a stack of quads would hold twice.
pub fn quad_to(ws: &mut [u32], board: Board, pen: Pen, quad: Quad) -> Pen
    requires ready { Ready board ws.old }
    requires within { Within board.cap pen.kept }
    ensures { Drew board ws.old ws.new pen result (quad_marks board.frame quad.a quad.c quad.b) }
{
    let Quad { a, c, b, .. } = quad;
    if line::all_past(board.frame, [a, c, b]) || line::all_ahead(board.frame, [a, c, b]) {
        return pen;
    }
    let mut arc = [FixedPoint { x: 0, y: 0 }; 33];
    arc[0] = b;
    arc[1] = c;
    arc[2] = a;
    let mut top: usize = 0;
    let mut draw = lines_of(bend_of(quad));
    let mut rest = draw;
    let mut from = a;
    let mut drawn = pen;
    loop {
        if rest % 2 == 0 {
            arc = halve(arc, top);
            top += 2;
            rest /= 2;
        } else {
            let to = arc[top];
            drawn = line::line_to(ws, board, drawn, from, to);
            draw -= 1;
            if draw == 0 {
                return drawn;
            }
            from = to;
            top -= 2;
            rest = draw;
        }
    }
}
