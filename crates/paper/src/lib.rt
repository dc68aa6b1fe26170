// The rules of drawing a label, over whole numbers with a sign: the definitions stand in specs/, section by section as docs/RULES.md has them, and
// what the calls promise here is what those say, for every input. Each hands its arguments to a crate below.
#![tactic(auto)]

ghost use Rattle.std.specs.Prelude.{◌≡◌};
ghost use Rattle.paper.specs.Drawing as drawing;
ghost use Rattle.paper.specs.Drawing.{left};
ghost use Rattle.paper.specs.Placing as placings;

use geometry::{Origin, Point, Transform};
use label::{Label, Numbers};
use path::View;
use placing::{BoxNumbers, PlaceNumbers};

// Draws a label's band.
pub fn draw(list: &[u8], l: Label, mask: &mut [u8], words: &mut [u32]) -> Numbers
    ensures { left result mask.new words.new ≡ drawing.draw l list.now mask.old words.old }
{
    label::draw(list, l, mask, words).into()
}

// Draws it in bands of so many rows.
pub fn draw_in_bands(
    list: &[u8],
    l: Label,
    step: usize,
    mask: &mut [u8],
    words: &mut [u32],
) -> Numbers
    ensures { left result mask.new words.new ≡ drawing.draw_in_bands step l list.now mask.old words.old }
{
    bands::draw_in_bands(list, l, step, mask, words).into()
}

// The box of a list's points.
pub fn bounds(list: &[u8], t: Transform) -> BoxNumbers
    ensures { result ≡ placings.bounds t list.now }
{
    placing::bounds(list, t).into()
}

// Where its mask lies.
pub fn placement(list: &[u8], t: Transform, o: Point, origin: Origin) -> PlaceNumbers
    ensures { result ≡ placings.placement origin t o list.now }
{
    let view = View {
        transform: t,
        offset: o,
    };
    placing::placement(list, view, origin).into()
}
