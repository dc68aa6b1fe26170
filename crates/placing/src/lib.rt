// The public face for where a path list lies: the box of its points, and the placement of its mask.
// Both refuse by 6 to 12 and 18 of the table in docs/RULES.md, and answer whatever they are lent.
#![tactic(auto)]

ghost use Rattle.std.specs.Prelude.{◌≡◌};
ghost use Rattle.fixed.specs.Fixed.{spot_of};
ghost use Rattle.geometry.specs.Box.{box_from};
ghost use Rattle.list.specs.Records.{step_at};
ghost use Rattle.path.specs.Reading.{passed, judged_of};
ghost use Rattle.placing.specs.Placing.{moved_points, nowhere, read_checked, bounds_of, laid_box, laid_of};
ghost use Rattle.placing.specs.Numbers.{box_numbers_of, place_numbers_of};
ghost use Rattle.placing.specs.Measuring.{first_in, start_of, Boxes, Lies};

use command::Command;
use geometry::{Bounds, Origin, Placement, Point, Transform};
use list::Commands;
use path::{Records, Refusal, Refused, View};

// Where a mask lies: the new offset, the placement, and how many coordinates are cut.
#[derive(Clone, Copy, Debug, PartialEq)]
pub struct Laid {
    pub offset: Point,
    pub placement: Placement,
    pub cut: u32,
}

// The answers in the rules' numbers, laid out for C.
#[repr(C)]
#[derive(Clone, Copy, Debug, PartialEq)]
pub struct BoxNumbers {
    pub number: u32,
    pub index: u32,
    pub min_x: f32,
    pub min_y: f32,
    pub max_x: f32,
    pub max_y: f32,
}

#[repr(C)]
#[derive(Clone, Copy, Debug, PartialEq)]
pub struct PlaceNumbers {
    pub number: u32,
    pub index: u32,
    pub offset_x: f32,
    pub offset_y: f32,
    pub left: i32,
    pub top: i32,
    pub width: u32,
    pub height: u32,
    pub cut: u32,
}

// The point (0, 0).
fn zero_point() -> Point
    ensures { result ≡ nowhere }
{
    Point { x: 0.0, y: 0.0 }
}

// Refusals 6 to 12 and 18. Inlined, so that what is refused at once costs no call.
#[inline(always)]
fn judge_inputs(list: &[u8], view: View) -> Result<Records, Refused>
    ensures { result ≡ judged_of view.transform view.offset (read_checked view.transform view.offset list.now) }
{
    path::check_inputs(view, list.len())?;
    path::judge(list, view)
}

// The box around the points of one command more.
fn grow(b: Bounds, t: Transform, k: Command) -> Bounds
    ensures { result ≡ box_from b (moved_points t k) }
{
    match k {
        Command::MoveTo(p) => b.add(t.transform_point(p)),
        Command::LineTo(p) => b.add(t.transform_point(p)),
        Command::QuadTo(c, p) => b.add(t.transform_point(c)).add(t.transform_point(p)),
        Command::CurveTo(c, d, p) => b
            .add(t.transform_point(c))
            .add(t.transform_point(d))
            .add(t.transform_point(p)),
        Command::Close => b,
    }
}

// The box of a MoveTo.
fn first_box(t: Transform, k: Command) -> Bounds
    ensures { result ≡ first_in t k }
{
    match k {
        Command::MoveTo(p) => Bounds::of(t.transform_point(p)),
        Command::LineTo(_) => Bounds::of(zero_point()),
        Command::QuadTo(_, _) => Bounds::of(zero_point()),
        Command::CurveTo(_, _, _) => Bounds::of(zero_point()),
        Command::Close => Bounds::of(zero_point()),
    }
}

// The box to start from: that of the first point, or (0, 0) to (0, 0).
fn start_box(list: &[u8], t: Transform) -> Bounds
    ensures { result ≡ start_of t (step_at list.now 0) }
{
    match list::step_at(list, 0) {
        Ok(Some(record)) => first_box(t, record.command),
        Ok(None) | Err(_) => Bounds::of(zero_point()),
    }
}

// The box of an accepted list's points. The first point is added once more, which changes nothing.
fn box_list(list: &[u8], t: Transform) -> Bounds
    ensures { Boxes t list.now result }
{
    let mut b = start_box(list, t);
    for command in Commands::new(list) {
        let Ok(command) = command else {
            return b;
        };
        b = grow(b, t, command);
    }
    b
}

// The box of a list's points under a transform.
pub fn bounds(list: &[u8], t: Transform) -> Result<Bounds, Refused>
    ensures { result ≡ bounds_of t list.now }
{
    let view = View {
        transform: t,
        offset: zero_point(),
    };
    judge_inputs(list, view)?;
    Ok(box_list(list, t))
}

// Whether the offset alone passes the point rule.
fn offset_passes(o: Point) -> bool
    ensures { result ≡ passed (spot_of o) }
{
    fixed::from_point(o).is_some()
}

// The placement of a box that lies near, with so many coordinates that are cut.
fn lay(origin: Origin, o: Point, b: Bounds, cut: u32) -> Result<Laid, Refused>
    requires { Lies o b }
    ensures { result ≡ laid_box origin o b cut }
{
    let placed = Placement::compute(origin, o, b).ok_or(Refusal::Outside)?;
    Ok(Laid {
        offset: placed.offset,
        placement: placed.placement,
        cut,
    })
}

// Where the mask of a list lies, under a transform and an offset.
pub fn placement(list: &[u8], view: View, origin: Origin) -> Result<Laid, Refused>
    ensures { result ≡ laid_of origin view.transform view.offset list.now }
{
    let judged = judge_inputs(list, view)?;
    if judged.count == 0 && !offset_passes(view.offset) {
        return Err(Refusal::Outside.into());
    }
    let around = box_list(list, view.transform);
    lay(origin, view.offset, around, judged.cut)
}

impl From<Result<Bounds, Refused>> for BoxNumbers {
    ghost from_gives = { λ a n. n ≡ box_numbers_of a };

    fn from(a: Result<Bounds, Refused>) -> BoxNumbers {
        match a {
            Ok(b) => BoxNumbers {
                number: 0,
                index: 0,
                min_x: b.min.x,
                min_y: b.min.y,
                max_x: b.max.x,
                max_y: b.max.y,
            },
            Err(refused) => BoxNumbers {
                number: refused.why.into(),
                index: refused.record,
                min_x: 0.0,
                min_y: 0.0,
                max_x: 0.0,
                max_y: 0.0,
            },
        }
    }
}

impl From<Result<Laid, Refused>> for PlaceNumbers {
    ghost from_gives = { λ a n. n ≡ place_numbers_of a };

    fn from(a: Result<Laid, Refused>) -> PlaceNumbers {
        match a {
            Ok(laid) => PlaceNumbers {
                number: 0,
                index: 0,
                offset_x: laid.offset.x,
                offset_y: laid.offset.y,
                left: laid.placement.left,
                top: laid.placement.top,
                width: laid.placement.width,
                height: laid.placement.height,
                cut: laid.cut,
            },
            Err(refused) => PlaceNumbers {
                number: refused.why.into(),
                index: refused.record,
                offset_x: 0.0,
                offset_y: 0.0,
                left: 0,
                top: 0,
                width: 0,
                height: 0,
                cut: 0,
            },
        }
    }
}
