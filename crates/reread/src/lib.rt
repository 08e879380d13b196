// Result sheets: the reader, which answers with what line 1 says.
#![tactic(auto)]

ghost use Rattle.std.specs.Prelude.{[], ◌∷◌, ◌≤◌, length};
ghost use Rattle.job.specs.declared.Kind.TheVariants.{Basis};
ghost use Rattle.lines.specs.Steps.{nth, form_of, Read};
ghost use Rattle.body.specs.Parts.{Small};
ghost use Rattle.sheet.specs.Rooms.{Filled};
ghost use Rattle.sheet.specs.Parts.{Entered, Bodied, Finished};
ghost use Rattle.result.specs.ResultSheet.{result_words, result_lines, result_forms, result_lengths};
ghost use Rattle.reread.specs.Read.{ResultOutcome};
ghost use Rattle.reread.specs.Parts.{Counted, Awaited, Roomy, Fillable};

use cursor::Cursor;
use job::{Header, Kind, Refusal};
use lines::{BrokenLine, Numbers};

// The words of y, or of Y and of Z.
#[derive(Clone, Copy)]
pub struct Counts {
    pub one: usize,
    pub two: usize,
}

// The words of a result; 0 where there is no second buffer.
#[tactic(auto, using(body::proofs::Sizes::sizes), unfolding(result::specs::ResultSheet::result_counts))]
fn count_words(kind: Kind, r: usize, n: usize) -> Counts
    requires { Small r n }
    ensures { Counted kind r n result }
{
    match kind {
        Kind::System => Counts { one: r * n, two: 0 },
        Kind::Basis => Counts {
            one: r * r * n,
            two: r * r * n,
        },
        Kind::Equation => Counts { one: n, two: 0 },
    }
}

// The lines of a basis behind line 1: Y, Z.
fn read_pair(
    s: &[u8],
    c: Cursor,
    r: usize,
    series: Numbers,
    w: &mut [i64],
) -> Result<Cursor, BrokenLine>
    requires { Awaited r series s.now c w.old }
    ensures { Read s.now c (result_lines Basis (form_of series) r) 0 w.old w.new result }
{
    let one = r * (r * series.count);
    let d = lines::read_matrix(s, c, b'Y', r, r, series, w, 0)?;
    lines::read_matrix(s, d, b'Z', r, r, series, w, one)
}

// The lines behind line 1; an equation has the one row 1.
fn read_lines(
    s: &[u8],
    c: Cursor,
    kind: Kind,
    r: usize,
    series: Numbers,
    w: &mut [i64],
) -> Result<Cursor, BrokenLine>
    requires { Awaited r series s.now c w.old }
    ensures { Read s.now c (result_lines kind (form_of series) r) 0 w.old w.new result }
{
    match kind {
        Kind::System => lines::read_rows(s, c, b"y", 1, r, series, w, 0),
        Kind::Basis => read_pair(s, c, r, series, w),
        Kind::Equation => lines::read_rows(s, c, b"y", 1, 1, series, w, 0),
    }
}

// The lines behind line 1, to the end of the text; their numbers, from -(p - 1) / 2 to p / 2, are stored.
fn read_body(s: &[u8], h: Header, c: Cursor, w: &mut [i64]) -> Result<(), Refusal>
    requires { Entered result_forms result_words s.now h c × (2048 ≤ length w.old) }
    ensures { Bodied result_forms s.now h w.new result }
{
    let kind = h.kind;
    let series = Numbers {
        count: h.n as usize,
        low: (h.p - 1) / 2,
        high: h.p / 2,
    };
    sheet::finish(s, read_lines(s, c, kind, h.r as usize, series, w))
}

// The rooms, each filled by the next numbers.
fn fill_rooms(p: u32, w: &[i64], l: Counts, one: &mut [u32], two: &mut [u32])
    requires { Fillable p w.now l one.old two.old }
    ensures { Filled p (nth w.now) 0 l.one one.old one.new
        × Filled p (nth w.now) l.one l.two two.old two.new }
{
    sheet::fill(p, &w[0..l.one], one);
    sheet::fill(p, &w[l.one..l.one + l.two], two);
}

// Behind a header that nothing refuses: the lines, and where they are a whole sheet, the rooms.
fn take_result(
    s: &[u8],
    h: Header,
    c: Cursor,
    one: &mut [u32],
    two: &mut [u32],
) -> Result<Header, Refusal>
    requires { Entered result_forms result_words s.now h c × Roomy one.old two.old }
    ensures { Finished result_forms result_lengths s.now h (one.old ∷ two.old ∷ []) result
        (one.new ∷ two.new ∷ []) }
{
    let kind = h.kind;
    let l = count_words(kind, h.r as usize, h.n as usize);
    let mut w = [0i64; 2048];
    read_body(s, h, c, &mut w)?;
    fill_rooms(h.p as u32, &w, l, one, two);
    Ok(h)
}

// Reads a result sheet into two rooms.
pub fn read_result(s: &[u8], one: &mut [u32], two: &mut [u32]) -> Result<Header, Refusal>
    ensures { ResultOutcome s.now (one.old ∷ two.old ∷ []) result
        (one.new ∷ two.new ∷ []) }
{
    refusal::check_lengths(1, [2048; 2], [one.len(), two.len()])?;
    if s.len() > 65536 {
        return Err(Refusal::Large);
    }
    let opening = sheet::open_kinds(s, b"result\tsystem", b"result\tbasis", b"result\tequation");
    let (h, c) = sheet::begin(s, opening)?;
    take_result(s, h, c, one, two)
}
