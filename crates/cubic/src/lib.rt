// Cubics, from zeno's raster.rs: a cubic is split in halves over a stack of points until each part is nearly straight,
// and a line goes to the end of each part. p0 is a cubic's end and p3 its start, as in the Rust.
#![tactic(auto)]

ghost use Rattle.std.specs.Prelude.{◌≡◌};
ghost use Rattle.storage.specs.Answers.{Within};
ghost use Rattle.pen.specs.Drawing.{Ready, Drew};
ghost use Rattle.line.specs.Lines.{along};
ghost use Rattle.cubic.specs.Cubics.{far, bent, curved, cubic_of, cubic_points, cubic_marks};

mod cubics;

pub use cubics::Cubic;
use fixed::FixedPoint;
use pen::{Board, Pen};

// A cubic is one line unless a number of its flatness test exceeds this.
const HALF_PIXEL: u64 = 128;

// The stack's points: a cubic's four, and three more for each cubic that waits below it.
const PLACES: usize = 129;

// Whether two numbers are more than half a pixel apart.
fn is_far(a: u64, b: u64) -> bool
    ensures { result ≡ far a b }
{
    HALF_PIXEL < a.abs_diff(b)
}

// Whether a cubic bends too far for one line, on one axis.
#[tactic(auto, unfolding(crate::specs::Cubics::bent))]
fn is_bent(p0: u32, p1: u32, p2: u32, p3: u32) -> bool
    ensures { result ≡ bent p0 p1 p2 p3 }
{
    is_far(2 * u64::from(p0) + u64::from(p3), 3 * u64::from(p1))
        || is_far(u64::from(p0) + 2 * u64::from(p3), 3 * u64::from(p2))
}

// The same on either axis.
#[tactic(auto, unfolding(crate::specs::Cubics::curved))]
fn is_curved(p: [FixedPoint; 4]) -> bool
    ensures { result ≡ curved (cubic_of p) }
{
    let p0 = p[0];
    let p1 = p[1];
    let p2 = p[2];
    let p3 = p[3];
    is_bent(p0.x, p1.x, p2.x, p3.x) || is_bent(p0.y, p1.y, p2.y, p3.y)
}

// The lines of a cubic from a to b with the control points c and d. The cubic at hand has its end at arc[top], and those
// that wait lie below it, the next one nearest.
// The loop is not that of a quad: each part is tested before it is halved, while a quad's halvings are counted before its loop.
// The stack is an array of points with its top beside it: nothing here has a heap, and cubics that lie next to each other share an
// end point, which a stack of cubics would hold twice.
fn flatten(ws: &mut [u32], board: Board, start: Pen, cubic: Cubic) -> Pen
    requires ready { Ready board ws.old }
    requires within { Within board.cap start.kept }
    ensures { Drew board ws.old ws.new start result (along board.frame cubic.a (cubic_points cubic.a cubic.c cubic.d cubic.b)) }
{
    let Cubic { a, c, d, b, .. } = cubic;
    let mut arc = [FixedPoint { x: 0, y: 0 }; PLACES];
    arc[0] = b;
    arc[1] = d;
    arc[2] = c;
    arc[3] = a;
    let mut top: usize = 0;
    let mut pen = start;
    let mut from = a;
    loop {
        let four = [arc[top], arc[top + 1], arc[top + 2], arc[top + 3]];
        if is_curved(four) {
            if PLACES < top + 7 {
                return line::line_to(ws, board, pen, from, b);
            }
            let seven = fixed::split_cubic(four);
            arc[top + 1] = seven[1];
            arc[top + 2] = seven[2];
            arc[top + 3] = seven[3];
            arc[top + 4] = seven[4];
            arc[top + 5] = seven[5];
            arc[top + 6] = seven[6];
            top += 3;
        } else {
            let p = arc[top];
            pen = line::line_to(ws, board, pen, from, p);
            if top == 0 {
                return pen;
            }
            from = p;
            top -= 3;
        }
    }
}

// A cubic from the pen point a to b, with the control points c and d. One whose points are all past one band edge only
// moves the pen point, which the caller keeps.
pub fn curve_to(ws: &mut [u32], board: Board, pen: Pen, cubic: Cubic) -> Pen
    requires ready { Ready board ws.old }
    requires within { Within board.cap pen.kept }
    ensures { Drew board ws.old ws.new pen result (cubic_marks board.frame cubic.a cubic.c cubic.d cubic.b) }
{
    let Cubic { a, c, d, b, .. } = cubic;
    let frame = board.frame;
    if line::all_past(frame, [a, c, d, b]) || line::all_ahead(frame, [a, c, d, b]) {
        return pen;
    }
    flatten(ws, board, pen, cubic)
}
