// A path list as a whole: its records are judged front to back, and an accepted list is drawn stroke by stroke into the pool.
// Also the refusals of the table in docs/RULES.md, which all public answers share.
#![tactic(auto)]

ghost use Rattle.std.specs.Prelude.{◌≡◌, ◌&&◌, [], ◌∷◌, ◌≤◌, ◌<◌, length};
ghost use Rattle.storage.specs.Answers.{most_rows};
ghost use Rattle.pen.specs.Drawing.{Ready};
ghost use Rattle.line.specs.Range.{Reach};
ghost use Rattle.raster.specs.Tracing.{ReachAll};
ghost use Rattle.path.specs.Refusals.{number_of, of_no_record, refusal_of};
ghost use Rattle.path.specs.Inputs.{finite_point, finite_transform, inputs_of};
ghost use Rattle.path.specs.Reading.{place_of, spot_at, cuts_at, verdict_of, ruled, points_ruled, read_list, judged_of};
ghost use Rattle.path.specs.Strokes.{fixed_at, stroke_of};
ghost use Rattle.path.specs.Pouring.{pool_of, frame_of, Fits, Traced, Poured};
ghost use Rattle.command.specs.Commands.{points_of};

use command::Command;
use fixed::{FixedPoint, Spot};
use geometry::{Point, Transform};
use list::{Commands, Reason};
use pen::{Board, Frame};
use raster::Stroke;

// The longest list, in bytes.
const MOST_BYTES: usize = 65536;

// The most cells that a pool has.
const MOST_CELLS: usize = 16384;

// Why a label is turned away.
#[derive(Clone, Copy, Debug, PartialEq, Eq)]
pub enum Refusal {
    // 1: width or height above 4,096.
    Size,
    // 2: first > end, or end > height.
    Band,
    // 3: the pitch is below the width, or above 65,536.
    Pitch,
    // 4: the mask is too short.
    Mask,
    // 5: the workspace has fewer words than rows.
    Workspace,
    // 6: a number of the transform or of the offset is not finite.
    NotFinite,
    // 7: the list is longer than 65,536 bytes.
    Long,
    // 8: a record is cut.
    Cut,
    // 9: a kind is not 1 to 5.
    Kind,
    // 10: a length is not the kind's.
    Length,
    // 11: the first record is not MoveTo.
    First,
    // 12: the point rule refuses a point.
    Outside,
    // 13: more places than the pool holds.
    Full,
    // 18: a LineTo, QuadTo or CurveTo directly after Close.
    AfterClose,
}

// A label turned away, and the index of the record at fault: 0 where none is.
#[derive(Clone, Copy, Debug, PartialEq, Eq)]
pub struct Refused {
    pub why: Refusal,
    pub record: u32,
}

// A refusal for which no record is at fault.
impl From<Refusal> for Refused {
    ghost from_gives = { λ why r. r ≡ of_no_record why };

    fn from(why: Refusal) -> Refused {
        Refused { why, record: 0 }
    }
}

// The number of a refusal.
impl From<Refusal> for u32 {
    ghost from_gives = { λ why n. n ≡ number_of why };

    fn from(why: Refusal) -> u32 {
        match why {
            Refusal::Size => 1,
            Refusal::Band => 2,
            Refusal::Pitch => 3,
            Refusal::Mask => 4,
            Refusal::Workspace => 5,
            Refusal::NotFinite => 6,
            Refusal::Long => 7,
            Refusal::Cut => 8,
            Refusal::Kind => 9,
            Refusal::Length => 10,
            Refusal::First => 11,
            Refusal::Outside => 12,
            Refusal::Full => 13,
            Refusal::AfterClose => 18,
        }
    }
}

// The refusal of a record that cannot be read.
impl From<Reason> for Refusal {
    ghost from_gives = { λ reason why. why ≡ refusal_of reason };

    fn from(reason: Reason) -> Refusal {
        match reason {
            Reason::Cut => Refusal::Cut,
            Reason::Kind => Refusal::Kind,
            Reason::Length => Refusal::Length,
        }
    }
}

fn finite_point(p: Point) -> bool
    ensures { result ≡ finite_point p }
{
    float::is_finite(p.x) && float::is_finite(p.y)
}

// The transform and the offset that a list's points are seen under: first the one, and then the other.
#[derive(Clone, Copy, Debug, PartialEq)]
pub struct View {
    pub transform: Transform,
    pub offset: Point,
}

impl View {
    fn is_finite(self) -> bool
        ensures { result ≡ (finite_transform self.transform && finite_point self.offset) }
    {
        let t = self.transform;
        finite_point(Point { x: t.xx, y: t.xy })
            && finite_point(Point { x: t.yx, y: t.yy })
            && finite_point(Point { x: t.x, y: t.y })
            && finite_point(self.offset)
    }

    // Where a point of the list is seen.
    fn place(self, p: Point) -> Point
        ensures { result ≡ place_of self.transform self.offset p }
    {
        self.transform.transform_point(p).plus(self.offset)
    }

    // A point of the list, by the point rule. Where its x strays its y is not computed, and so raises no flag of the processor; little is left of the
    // second look at x when this is compiled.
    fn spot(self, p: Point) -> Option<Spot>
        ensures { result ≡ spot_at self.transform self.offset p }
    {
        fixed::to_fixed(self.place(p).x)?;
        fixed::from_point(self.place(p))
    }

    // How many of a point's coordinates are cut, unless the point rule refuses it.
    fn rule_point(self, p: Point) -> Result<u32, Refusal>
        ensures { result ≡ points_ruled self.transform self.offset (p ∷ []) }
    {
        let spot = self.spot(p).ok_or(Refusal::Outside)?;
        Ok(spot.cuts)
    }

    fn rule_two(self, a: Point, b: Point) -> Result<u32, Refusal>
        ensures { result ≡ points_ruled self.transform self.offset (a ∷ b ∷ []) }
    {
        Ok(self.rule_point(a)? + self.rule_point(b)?)
    }

    // Every point of a command by the point rule. What stands behind one that strays is not computed, and so raises no flag of the processor.
    fn rule_points(self, k: Command) -> Result<u32, Refusal>
        ensures { result ≡ points_ruled self.transform self.offset (points_of k) }
    {
        match k {
            Command::MoveTo(p) => self.rule_point(p),
            Command::LineTo(p) => self.rule_point(p),
            Command::QuadTo(c, p) => self.rule_two(c, p),
            Command::CurveTo(c, d, p) => Ok(self.rule_point(c)? + self.rule_two(d, p)?),
            Command::Close => Ok(0),
        }
    }

    // The record of index i: 11, then 18, then 12. `closed` says whether the record directly before it is Close.
    #[tactic(auto, unfolding(crate::specs::Reading::verdict_of))]
    fn rule(self, i: u32, closed: bool, k: Command) -> Result<u32, Refusal>
        ensures { result ≡ ruled (verdict_of self.transform self.offset i closed k) (cuts_at self.transform self.offset (points_of k)) }
    {
        if i == 0 && !k.is_move() {
            return Err(Refusal::First);
        }
        if closed && k.draws() {
            return Err(Refusal::AfterClose);
        }
        self.rule_points(k)
    }

    // A point in fixed numbers.
    fn fixed(self, p: Point) -> FixedPoint
        ensures { (result ≡ fixed_at self.transform self.offset p) × Reach result }
    {
        match self.spot(p) {
            Some(spot) => spot.point,
            None => FixedPoint {
                x: fixed::BIAS,
                y: fixed::BIAS,
            },
        }
    }

    // A command in fixed numbers.
    fn stroke(self, k: Command) -> Stroke
        ensures { (result ≡ stroke_of self.transform self.offset k) × ReachAll result }
    {
        match k {
            Command::MoveTo(p) => Stroke::Move(self.fixed(p)),
            Command::LineTo(p) => Stroke::Line(self.fixed(p)),
            Command::QuadTo(c, p) => Stroke::Quad(self.fixed(c), self.fixed(p)),
            Command::CurveTo(c, d, p) => {
                Stroke::Cubic(self.fixed(c), self.fixed(d), self.fixed(p))
            }
            Command::Close => Stroke::Close,
        }
    }
}

// Checks 6 and 7.
#[tactic(auto, unfolding(crate::specs::Inputs::inputs_of))]
pub fn check_inputs(view: View, list: usize) -> Result<(), Refusal>
    ensures { result ≡ inputs_of view.transform view.offset list }
{
    if !view.is_finite() {
        return Err(Refusal::NotFinite);
    }
    if MOST_BYTES < list {
        return Err(Refusal::Long);
    }
    Ok(())
}

// An accepted list: how many records it has, and how many coordinates that are cut.
#[derive(Clone, Copy, Debug, PartialEq, Eq)]
pub struct Records {
    pub count: u32,
    pub cut: u32,
}

// Judges the records front to back, and counts the coordinates that are cut.
pub fn judge(list: &[u8], view: View) -> Result<Records, Refused>
    requires { length list.now ≤ 65536 }
    ensures { result ≡ judged_of view.transform view.offset (read_list view.transform view.offset list.now) }
{
    let mut n: u32 = 0;
    let mut cut: u32 = 0;
    let mut closed = false;
    for command in Commands::new(list) {
        let command = command.map_err(|why| Refused {
            why: why.into(),
            record: n,
        })?;
        cut += view
            .rule(n, closed, command)
            .map_err(|why| Refused { why, record: n })?;
        n += 1;
        closed = command.is_close();
    }
    Ok(Records { count: n, cut })
}

// The record of this index was too much for the pool. The end counts as the record behind the last.
#[derive(Clone, Copy, Debug, PartialEq, Eq)]
pub struct Overfull {
    pub record: usize,
}

// Draws the list's strokes into a pool that holds nothing yet, up to a record that is too much for it, and counts the cells.
fn trace_list(ws: &mut [u32], board: Board, list: &[u8], view: View) -> Result<usize, Overfull>
    requires { Ready board ws.old }
    ensures { Traced board ws.old ws.new view.transform view.offset list.now result }
{
    let mut track = raster::begin();
    let mut n: usize = 0;
    for command in Commands::new(list) {
        let Ok(command) = command else {
            break;
        };
        track = raster::trace(ws, board, track, view.stroke(command));
        track.pen.kept.ok_or(Overfull { record: n })?;
        n += 1;
    }
    raster::finish(ws, board, track).ok_or(Overfull { record: n })
}

// How many cells the workspace has room for behind the rows' heads.
pub fn pool_of(words: usize, rows: usize) -> usize
    requires { rows ≤ words }
    ensures { result ≡ pool_of rows words }
{
    MOST_CELLS.min((words - rows) / 4)
}

// The drawing's edges, as cells.
fn frame_of(width: usize, first: usize, end: usize) -> Frame
    requires { (width ≤ most_rows) × (first ≤ most_rows) × (end ≤ most_rows) }
    ensures { result ≡ frame_of width first end }
{
    Frame {
        wide: (8192 + width) as u64,
        first: (8192 + first) as u64,
        end: (8192 + end) as u64,
    }
}

// The list's strokes drawn into the workspace, whatever it held, for the band [first, end) of a label of this width.
pub fn pour(
    list: &[u8],
    view: View,
    width: usize,
    first: usize,
    end: usize,
    words: &mut [u32],
) -> Result<usize, Overfull>
    requires { Fits width first end (length words.old) }
    ensures { Poured view.transform view.offset width first end list.now words.old words.new result }
{
    let rows = end - first;
    let cap = pool_of(words.len(), rows);
    let frame = frame_of(width, first, end);
    storage::clear(words, rows);
    trace_list(words, Board { frame, cap }, list, view)
}
