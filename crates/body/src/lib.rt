// The lines of a job sheet behind line 1.
#![tactic(auto)]

ghost use Rattle.lines.specs.Steps.{Read};
ghost use Rattle.body.specs.Parts.{lines_of, Small, Measured, Waiting};

use cursor::Cursor;
use job::Kind;
use lines::{BrokenLine, Numbers};

// The words of the buffers that a job reads.
#[derive(Clone, Copy)]
pub struct Lengths {
    pub one: usize,
    pub two: usize,
    pub three: usize,
}

// The words of the buffers that a job reads; 0 where a buffer is not read. (`refusal::lengths_of` gives the lengths of
// all five, but no crate of the refusals stands below the sheets' lines.)
#[tactic(auto, using(crate::proofs::Sizes::sizes))]
pub fn measure(kind: Kind, r: usize, n: usize) -> Lengths
    requires { Small r n }
    ensures { Measured kind r n result }
{
    match kind {
        Kind::System => Lengths {
            one: r * r * n,
            two: r * n,
            three: r,
        },
        Kind::Basis => Lengths {
            one: r * r * n,
            two: r * r,
            three: 0,
        },
        Kind::Equation => Lengths {
            one: (r + 1) * n,
            two: n,
            three: r,
        },
    }
}

// The lines of a system behind line 1: A, b, v.
fn read_system(
    s: &[u8],
    c: Cursor,
    r: usize,
    series: Numbers,
    values: Numbers,
    l: Lengths,
    w: &mut [i64],
) -> Result<Cursor, BrokenLine>
    requires { Waiting Kind.System r series values l s.now c w.old }
    ensures { Read s.now c (lines_of Kind.System series values r) 0 w.old w.new result }
{
    let matrix = lines::read_matrix(s, c, b'A', r, r, series, w, 0)?;
    let right = lines::read_rows(s, matrix, b"b", 1, r, series, w, l.one)?;
    lines::read_line(s, right, b"v", values, w, l.one + l.two)
}

// The lines of a basis behind line 1: A, V.
fn read_basis(
    s: &[u8],
    c: Cursor,
    r: usize,
    series: Numbers,
    values: Numbers,
    l: Lengths,
    w: &mut [i64],
) -> Result<Cursor, BrokenLine>
    requires { Waiting Kind.Basis r series values l s.now c w.old }
    ensures { Read s.now c (lines_of Kind.Basis series values r) 0 w.old w.new result }
{
    let matrix = lines::read_matrix(s, c, b'A', r, r, series, w, 0)?;
    lines::read_rows(s, matrix, b"V", 1, r, values, w, l.one)
}

// The lines of an equation behind line 1: a, b, start.
fn read_equation(
    s: &[u8],
    c: Cursor,
    r: usize,
    series: Numbers,
    values: Numbers,
    l: Lengths,
    w: &mut [i64],
) -> Result<Cursor, BrokenLine>
    requires { Waiting Kind.Equation r series values l s.now c w.old }
    ensures { Read s.now c (lines_of Kind.Equation series values r) 0 w.old w.new result }
{
    let rows = lines::read_rows(s, c, b"a", 0, r + 1, series, w, 0)?;
    let right = lines::read_line(s, rows, b"b", series, w, l.one)?;
    lines::read_line(s, right, b"start", values, w, l.one + l.two)
}

// The lines behind line 1.
pub fn read_lines(
    s: &[u8],
    c: Cursor,
    kind: Kind,
    r: usize,
    series: Numbers,
    values: Numbers,
    l: Lengths,
    w: &mut [i64],
) -> Result<Cursor, BrokenLine>
    requires { Waiting kind r series values l s.now c w.old }
    ensures { Read s.now c (lines_of kind series values r) 0 w.old w.new result }
{
    match kind {
        Kind::System => read_system(s, c, r, series, values, l, w),
        Kind::Basis => read_basis(s, c, r, series, values, l, w),
        Kind::Equation => read_equation(s, c, r, series, values, l, w),
    }
}
