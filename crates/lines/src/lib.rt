// Lines, read one after the other by a cursor. Text, place and buffer are passed one by one: in a reader with methods
// each clause would name them behind `self`, and each step still takes a place and gives the next.
#![tactic(auto)]

ghost use Rattle.std.specs.Prelude.{◌≡◌, [], ◌∷◌, ◌+◌, ◌*◌, ◌≤◌, ◌<◌, ◌^◌, length};
ghost use Rattle.job.specs.declared.Refusal.TheVariants.{Form};
ghost use Rattle.lines.specs.Forms.{numbered, row_forms, matrix_forms};
ghost use Rattle.lines.specs.Steps.{form_of, Placed, Field, Headed, Itemed, Ready, Read};

use cursor::Cursor;
use job::Refusal;

// What follows the head of a line: so many numbers, each from -low to high.
#[derive(Clone, Copy)]
pub struct Numbers {
    pub count: usize,
    pub low: u64,
    pub high: u64,
}

// The first line that is broken, by its number in the text, from 1.
#[derive(Clone, Copy)]
pub struct BrokenLine {
    pub line: usize,
}

impl From<BrokenLine> for Refusal {
    ghost from_gives = { λ b e. e ≡ Form b.line };

    fn from(broken: BrokenLine) -> Refusal {
        Refusal::Form { line: broken.line }
    }
}

// Where the field that begins at `from` ends.
fn end_field(s: &[u8], from: usize) -> usize
    requires { from ≤ length s.now }
    ensures { Field s.now from result }
{
    let rest = &s[from..];
    from + rest.iter().position(|b| *b <= b'\n').unwrap_or(rest.len())
}

// The tab and the number from -low to high at the cursor.
fn read_item(s: &[u8], c: Cursor, low: u64, high: u64) -> Option<(i64, Cursor)>
    requires { Placed s.now c × (low ≤ 2 ^ 63) × (high < 2 ^ 63) }
    ensures { Itemed s.now c low high result }
{
    if !s[c.byte..].starts_with(b"\t") {
        return None;
    }
    let from = c.byte + 1;
    let end = end_field(s, from);
    if end == s.len() {
        return None;
    }
    let x = text::read_number(&s[from..end], low, high)?;
    Some((x, cursor::behind_field(c, end)))
}

// The place behind the bytes h at the cursor.
fn pass_head(s: &[u8], c: Cursor, h: &[u8]) -> Option<Cursor>
    requires { Placed s.now c }
    ensures { Headed s.now c h.now result }
{
    if !s[c.byte..].starts_with(h) {
        return None;
    }
    let tabs = h.iter().filter(|b| **b == b'\t').count();
    Some(Cursor {
        byte: c.byte + h.len(),
        line: c.line,
        field: c.field + tabs,
    })
}

// The numbers of a line and its line feed; the numbers are stored from the index `from` on.
fn read_numbers(
    s: &[u8],
    c: Cursor,
    n: Numbers,
    w: &mut [i64],
    from: usize,
) -> Result<Cursor, BrokenLine>
    requires { Ready s.now c n (from + n.count) w.old }
    ensures { Read s.now c (form_of n [] ∷ []) from w.old w.new result }
{
    let broken = BrokenLine { line: c.line + 1 };
    let mut d = c;
    for j in 0..n.count {
        let (x, e) = read_item(s, d, n.low, n.high).ok_or(broken)?;
        w[from + j] = x;
        d = e;
    }
    if !s[d.byte..].starts_with(b"\n") {
        return Err(broken);
    }
    Ok(cursor::behind_line(c, d.byte + 1))
}

// A line with the head h.
pub fn read_line(
    s: &[u8],
    c: Cursor,
    h: &[u8],
    n: Numbers,
    w: &mut [i64],
    from: usize,
) -> Result<Cursor, BrokenLine>
    requires { Ready s.now c n (from + n.count) w.old }
    ensures { Read s.now c (form_of n h.now ∷ []) from w.old w.new result }
{
    let d = pass_head(s, c, h).ok_or(BrokenLine { line: c.line + 1 })?;
    read_numbers(s, d, n, w, from)
}

// A line with the head h and the number i, of one digit.
fn read_row(
    s: &[u8],
    c: Cursor,
    h: &[u8],
    i: usize,
    n: Numbers,
    w: &mut [i64],
    from: usize,
) -> Result<Cursor, BrokenLine>
    requires { Ready s.now c n (from + n.count) w.old × (i < 10) }
    ensures { Read s.now c (form_of n (numbered h.now i) ∷ []) from w.old w.new result }
{
    let d = pass_head(s, c, h).ok_or(BrokenLine { line: c.line + 1 })?;
    read_line(s, d, &[b'\t', b'0' + i as u8], n, w, from)
}

// Lines with the head h and a number, of one digit, from `first` on.
pub fn read_rows(
    s: &[u8],
    c: Cursor,
    h: &[u8],
    first: usize,
    rows: usize,
    n: Numbers,
    w: &mut [i64],
    from: usize,
) -> Result<Cursor, BrokenLine>
    requires { Ready s.now c n (from + rows * n.count) w.old × (c.field ≡ 0) × (first + rows ≤ 10) }
    ensures { Read s.now c (row_forms (form_of n) h.now first rows) from w.old
        w.new result }
{
    let mut d = c;
    for k in 0..rows {
        d = read_row(s, d, h, first + k, n, w, from + k * n.count)?;
    }
    Ok(d)
}

// Lines with the word, a row and a column, row by row, from 1 on.
pub fn read_matrix(
    s: &[u8],
    c: Cursor,
    word: u8,
    rows: usize,
    columns: usize,
    n: Numbers,
    w: &mut [i64],
    from: usize,
) -> Result<Cursor, BrokenLine>
    requires { Ready s.now c n (from + rows * (columns * n.count)) w.old × (c.field ≡ 0) × (0 < rows) × (rows < 10)
        × (columns < 10) }
    ensures { Read s.now c (matrix_forms (form_of n) (word ∷ []) columns 1 rows) from w.old
        w.new result }
{
    let step = columns * n.count;
    let mut d = c;
    for k in 0..rows {
        let h = [word, b'\t', b'1' + k as u8];
        d = read_rows(s, d, &h, 1, columns, n, w, from + k * step)?;
    }
    Ok(d)
}
