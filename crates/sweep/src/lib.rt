// From cells to bytes, `coverage` and the sweep of the Rust: each row's cells in rising column, a running sum of their cover, a byte a pixel.
// Each function stays inside the words and the mask it is lent and ends, whatever they hold.
// Of the pool it takes rows and count, and no `storage::Sizes`: that knows of a cap and of `most_cells`, which the sweep does not ask for (`Fits`).
#![tactic(auto)]

ghost use Rattle.std.specs.Prelude.{◌≡◌, ◌+◌, ◌-◌, ◌*◌, ◌%◌, ◌^◌, ◌<◌, ◌≤◌, min, length};
ghost use Rattle.sweep.specs.Pixels.{signed, byte_of};
ghost use Rattle.sweep.specs.Rows.{Painted, CellSwept, RowFits, RowSwept};
ghost use Rattle.sweep.specs.Masks.{Fits, Swept};

// Which pixels are inside.
#[derive(Clone, Copy, Debug, PartialEq, Eq)]
pub enum Fill {
    NonZero,
    EvenOdd,
}

// At most 255.
fn capped(n: u32) -> u8
    ensures { result ≡ min 255 n }
{
    n.min(255) as u8
}

// A value shifted right 9 is a number s of 23 bits. Below 0, that is from 2^22 on, it becomes -s - 1.
fn nonzero(v: u32) -> u8
    ensures { result ≡ byte_of Fill.NonZero (signed v) }
{
    let s = v / 512;
    if s < 4194304 {
        return capped(s);
    }
    capped(8388608 - s - 1)
}

// The remainder by 512, folded: 256 becomes 255, 511 becomes 0.
fn even_odd(v: u32) -> u8
    ensures { result ≡ byte_of Fill.EvenOdd (signed v) }
{
    let t = v / 512 % 512;
    if t < 256 {
        return t as u8;
    }
    (511 - t) as u8
}

// The byte of a value.
pub fn coverage(fill: Fill, v: u32) -> u8
    ensures { result ≡ byte_of fill (signed v) }
{
    match fill {
        Fill::NonZero => nonzero(v),
        Fill::EvenOdd => even_odd(v),
    }
}

// 512 times a number, wrapping.
fn times512(x: u32) -> u32
    ensures { result ≡ (512 * x) % 2 ^ 32 }
{
    x.wrapping_mul(512)
}

// The byte between cells.
fn run_byte(fill: Fill, cover: u32) -> u8
    ensures { result ≡ byte_of fill (signed ((512 * cover) % 2 ^ 32)) }
{
    coverage(fill, times512(cover))
}

// The byte at a cell.
fn cell_byte(fill: Fill, cover: u32, area: u32) -> u8
    ensures { result ≡ byte_of fill (signed ((512 * cover + (2 ^ 32 - area)) % 2 ^ 32)) }
{
    coverage(fill, times512(cover).wrapping_sub(area))
}

// One byte in the columns from low up to high, counted from column -1, which has no byte.
fn paint(out: &mut [u8], low: usize, high: usize, b: u8)
    requires { high ≤ length out.old + 1 }
    ensures { Painted out.old out.new low high b }
{
    let from = low.max(1);
    if from < high {
        out[from - 1..high - 1].fill(b);
    }
}

// Paints the columns from low up to a cell's, and the cell's; answers the cover with the cell's.
fn sweep_cell(
    ws: &[u32],
    at: usize,
    low: usize,
    column: usize,
    cover: u32,
    fill: Fill,
    out: &mut [u8],
) -> u32
    requires { (at + 2 < length ws.now) × (low ≤ column) × (column ≤ length out.old) }
    ensures { CellSwept ws.now at out.old out.new low column cover fill result }
{
    paint(out, low, column, run_byte(fill, cover));
    let sum = storage::sum(cover, ws[at + 1]);
    paint(out, column, column + 1, cell_byte(fill, sum, ws[at + 2]));
    sum
}

// Paints a row's pixels. `low` rises at each step, so that the walk ends on any words.
fn sweep_row(
    ws: &[u32],
    rows: usize,
    count: usize,
    row: usize,
    width: usize,
    fill: Fill,
    out: &mut [u8],
)
    requires { RowFits ws.now out.old rows count row width }
    ensures { RowSwept ws.now out.old out.new rows count row width fill }
{
    let start = storage::PER_ROW * row;
    let mut low: usize = 0;
    let mut cover: u32 = 0;
    let mut next = storage::next_in(ws[row]);
    while next != 0 {
        if count < next {
            return;
        }
        let at = rows + 4 * (next - 1);
        let here = storage::word(ws, at);
        if here < start + low {
            return;
        }
        let column = here - start;
        if width < column {
            return;
        }
        cover = sweep_cell(ws, at, low, column, cover, fill, out);
        low = column + 1;
        next = storage::next_in(ws[at + 3]);
    }
    paint(out, low, width + 1, run_byte(fill, cover));
}

// Paints the pixels of every row, each in its line of the mask: the first at the top, or at the bottom when up.
pub fn sweep(
    ws: &[u32],
    rows: usize,
    count: usize,
    width: usize,
    fill: Fill,
    up: bool,
    pitch: usize,
    mask: &mut [u8],
)
    requires { Fits ws.now mask.old rows count width pitch }
    ensures { Swept ws.now mask.old mask.new rows count width fill up pitch }
{
    for l in 0..rows {
        let row = if up { rows - 1 - l } else { l };
        let at = pitch * l;
        let end = at + width;
        sweep_row(ws, rows, count, row, width, fill, &mut mask[at..end]);
    }
}
