// Job sheets: the reader, which answers with what line 1 says. Its public parts serve every sort of sheets.
#![tactic(auto)]

ghost use Rattle.std.specs.Prelude.{[], ◌∷◌, ◌+◌, ◌≤◌, ◌<◌, length};
ghost use Rattle.lines.specs.Steps.{nth};
ghost use Rattle.header.specs.Header.{word_of};
ghost use Rattle.body.specs.Parts.{Measured};
ghost use Rattle.sheet.specs.JobSheet.{job_forms, job_lengths};
ghost use Rattle.sheet.specs.Read.{JobOutcome};
ghost use Rattle.sheet.specs.Rooms.{Filled};
ghost use Rattle.sheet.specs.Parts.{
  Entered,
  OpenedKinds,
  Starting,
  Inside,
  Bodied,
  Closing,
  Finished,
  Roomy,
  Fillable,
};

use body::Lengths;
use cursor::Cursor;
use job::{Header, Kind, Refusal};
use lines::{BrokenLine, Numbers};

// Line 1 of a sheet of one of the three kinds, each of which has its own first fields. Not by `or_else`: a proof
// is told nothing of what its closure answers.
pub fn open_kinds(
    s: &[u8],
    system: &[u8],
    basis: &[u8],
    equation: &[u8],
) -> Option<(Header, Cursor)>
    ensures { OpenedKinds system.now basis.now equation.now s.now result }
{
    if let Some(opened) = header::open_as(s, Kind::System, system) {
        return Some(opened);
    }
    if let Some(opened) = header::open_as(s, Kind::Basis, basis) {
        return Some(opened);
    }
    header::open_as(s, Kind::Equation, equation)
}

// 9 for line 1, 1 to 4, and 10 for r*r*N, where line 1 is what the opening says.
pub fn begin(s: &[u8], opening: Option<(Header, Cursor)>) -> Result<(Header, Cursor), Refusal>
    requires { length s.now ≤ 65536 }
    ensures { Starting s.now opening result }
{
    let (h, c) = opening.ok_or(Refusal::Form { line: 1 })?;
    refusal::check_small(h.r, h.n, h.p)?;
    Ok((h, c))
}

// The text ends behind the lines that were read, or a line is broken: one of them, or the next.
pub fn finish(s: &[u8], lines: Result<Cursor, BrokenLine>) -> Result<(), Refusal>
    requires { Inside s.now lines }
    ensures { Closing s.now lines result }
{
    let d = lines?;
    if d.byte < s.len() {
        return Err(Refusal::Form { line: d.line + 1 });
    }
    Ok(())
}

// The residues of the numbers w, from the room's first word on. By places: of a room that goes by `iter_mut` beside the
// numbers a proof is told too little.
pub fn fill(p: u32, w: &[i64], room: &mut [u32])
    requires { (0 < p) × (length w.now ≤ length room.old) }
    ensures { Filled p (nth w.now) 0 (length w.now) room.old room.new }
{
    for k in 0..w.len() {
        room[k] = text::reduce(w[k], p);
    }
}

// The rooms, each filled by the next numbers.
fn fill_rooms(p: u32, w: &[i64], l: Lengths, one: &mut [u32], two: &mut [u32], three: &mut [u32])
    requires { Fillable p w.now l one.old two.old three.old }
    ensures { Filled p (nth w.now) 0 l.one one.old one.new
        × Filled p (nth w.now) l.one l.two two.old two.new
        × Filled p (nth w.now) (l.one + l.two) l.three three.old three.new }
{
    let both = l.one + l.two;
    fill(p, &w[0..l.one], one);
    fill(p, &w[l.one..both], two);
    fill(p, &w[both..both + l.three], three);
}

// The lines behind line 1, to the end of the text; their numbers are stored.
fn read_body(s: &[u8], h: Header, c: Cursor, l: Lengths, w: &mut [i64]) -> Result<(), Refusal>
    requires { Entered job_forms word_of s.now h c × Measured h.kind h.r h.n l × (3080 ≤ length w.old) }
    ensures { Bodied job_forms s.now h w.new result }
{
    let kind = h.kind;
    let r = h.r as usize;
    let low = 9223372036854775808;
    let high = 9223372036854775807;
    let series = Numbers {
        count: h.n as usize,
        low,
        high,
    };
    let values = Numbers {
        count: r,
        low,
        high,
    };
    finish(s, body::read_lines(s, c, kind, r, series, values, l, w))
}

// Behind a header that nothing refuses: the lines, and where they are a whole sheet, the rooms.
fn take_job(
    s: &[u8],
    h: Header,
    c: Cursor,
    one: &mut [u32],
    two: &mut [u32],
    three: &mut [u32],
) -> Result<Header, Refusal>
    requires { Entered job_forms word_of s.now h c × Roomy one.old two.old three.old }
    ensures { Finished job_forms job_lengths s.now h (one.old ∷ two.old ∷ three.old ∷ [])
        result (one.new ∷ two.new ∷ three.new ∷ []) }
{
    let kind = h.kind;
    let l = body::measure(kind, h.r as usize, h.n as usize);
    let mut w = [0i64; 3080];
    read_body(s, h, c, l, &mut w)?;
    fill_rooms(h.p as u32, &w, l, one, two, three);
    Ok(h)
}

// Reads a job sheet into three rooms.
pub fn read_job(
    s: &[u8],
    one: &mut [u32],
    two: &mut [u32],
    three: &mut [u32],
) -> Result<Header, Refusal>
    ensures { JobOutcome s.now (one.old ∷ two.old ∷ three.old ∷ []) result
        (one.new ∷ two.new ∷ three.new ∷ []) }
{
    refusal::check_lengths(1, [2048; 3], [one.len(), two.len(), three.len()])?;
    if s.len() > 65536 {
        return Err(Refusal::Large);
    }
    let opening = open_kinds(s, b"system", b"basis", b"equation");
    let (h, c) = begin(s, opening)?;
    take_job(s, h, c, one, two, three)
}
