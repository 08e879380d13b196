// Result sheets: the writer, which answers with the text's length in bytes. And the number and the places that an
// answer is told by.
#![tactic(auto)]

ghost use Rattle.std.specs.Prelude.{◌≡◌, [], ◌∷◌, ◌++◌, ℕ, ◌+◌, ◌*◌, ◌≤◌, ◌<◌, length, Err};
ghost use Rattle.job.specs.Refusal.{refusal_verdict, verdict_of};
ghost use Rattle.job.specs.declared.Refusal.TheVariants.{Form};
ghost use Rattle.job.specs.declared.Kind.TheVariants.{System, Basis, Equation};
ghost use Rattle.text.specs.Decimal.{digits, spell};
ghost use Rattle.text.specs.Class.{balanced};
ghost use Rattle.text.specs.Lines.{items, line, lines};
ghost use Rattle.text.specs.Put.{Put};
ghost use Rattle.lines.specs.Forms.{numbered, row_forms, matrix_forms};
ghost use Rattle.header.specs.Header.{header, header_form};
ghost use Rattle.result.specs.ResultSheet.{balanced_form, result_words, result_text};
ghost use Rattle.result.specs.Print.{places_of, number_at, Ready, line_room, Rows, VectorReady, BasisReady};
ghost use Rattle.result.specs.Write.{WriteOutcome};

use job::{Header, Kind, Refusal};

// Number, first place and second place.
#[derive(Clone, Copy)]
pub struct Places(pub u8, pub usize, pub u32);

// The number and the places of an answer: 0 where not named, and three zeros for done. A first place fits a byte, but
// for a broken line's number: it is below each bound from 256 up that such a number is below.
#[tactic(auto, unfolding(crate::specs::Print::places_of, job::specs::Refusal::refusal_verdict))]
pub fn place(a: Result<(), Refusal>) -> Places
    ensures is { result ≡ places_of (verdict_of a) }
    ensures near { (most : ℕ) → 256 ≤ most → ((line : ℕ) → a ≡ Err (Form line) → line < most) → result.1 < most }
{
    match a {
        Ok(()) => Places(0, 0, 0),
        Err(Refusal::Order) => Places(1, 0, 0),
        Err(Refusal::Terms) => Places(2, 0, 0),
        Err(Refusal::Modulus) => Places(3, 0, 0),
        Err(Refusal::TermsOverModulus) => Places(4, 0, 0),
        Err(Refusal::Length { buffer }) => Places(5, usize::from(buffer), 0),
        Err(Refusal::Word { buffer, index }) => Places(6, usize::from(buffer), index),
        Err(Refusal::Singular) => Places(7, 0, 0),
        Err(Refusal::LeadingZero) => Places(8, 0, 0),
        Err(Refusal::Form { line }) => Places(9, line, 0),
        Err(Refusal::Large) => Places(10, 0, 0),
    }
}

// The number and the places of a refusal.
impl From<Refusal> for Places {
    ghost from_gives = { λ e q. q ≡ places_of (refusal_verdict e) };

    fn from(refusal: Refusal) -> Places {
        place(Err(refusal))
    }
}

// The bytes h from `at` on.
pub fn put_bytes(d: &mut [u8], at: usize, h: &[u8]) -> usize
    requires { at + length h.now ≤ length d.old }
    ensures { Put at h.now d.old d.new result }
{
    // Byte by byte, for the reason at `room::copy`.
    for i in 0..h.len() {
        d[at + i] = h[i];
    }
    at + h.len()
}

// A tab and the digits of x.
fn put_field(d: &mut [u8], at: usize, x: u64) -> usize
    requires { at + 21 ≤ length d.old }
    ensures { Put at (9 ∷ digits x) d.old d.new result }
{
    let a = text::put_byte(d, at, 9);
    text::put_natural(d, a, x)
}

// How a line of three numbers goes on behind its words, which end at `at`: the numbers and the line feed.
pub fn put_three(d: &mut [u8], at: usize, x: u64, y: u64, z: u64) -> usize
    requires { at + 64 ≤ length d.old }
    ensures { Put at (numbered (numbered (numbered [] x) y) z ++ (10 ∷ []))
        d.old d.new result }
{
    let a = put_field(d, at, x);
    let b = put_field(d, a, y);
    let c = put_field(d, b, z);
    text::put_byte(d, c, 10)
}

// A tab and the number of the class c modulo p.
fn put_class(d: &mut [u8], at: usize, c: u32, p: u32) -> usize
    requires { (at + 22 ≤ length d.old) × (c < p) }
    ensures { Put at (9 ∷ spell (balanced c p)) d.old d.new result }
{
    let a = text::put_byte(d, at, 9);
    text::put_number(d, a, text::balance(c, p))
}

// The numbers of the words s, and the line feed.
fn put_numbers(d: &mut [u8], at: usize, s: &[u32], p: u32) -> usize
    requires { Ready p s.now d.old at (22 * length s.now + 1) }
    ensures { Put at (items (number_at p s.now) 0 (length s.now) ++ (10 ∷ []))
        d.old d.new result }
{
    let mut e = at;
    for c in s {
        e = put_class(d, e, *c, p);
    }
    text::put_byte(d, e, 10)
}

// The line with the head h, the number i, and the numbers of the words s.
fn put_row(d: &mut [u8], at: usize, h: &[u8], i: usize, s: &[u32], p: u32) -> usize
    requires { Ready p s.now d.old at (line_room (length h.now) (length s.now)) }
    ensures { Put at
        (line (balanced_form p (length s.now) (numbered h.now i)) (number_at p s.now) 0)
        d.old d.new result }
{
    let a = put_bytes(d, at, h);
    let b = put_field(d, a, i as u64);
    put_numbers(d, b, s, p)
}

// Such lines, one for each row of count words, from 1 on.
fn put_rows(
    d: &mut [u8],
    at: usize,
    h: &[u8],
    rows: usize,
    s: &[u32],
    count: usize,
    p: u32,
) -> usize
    requires { (length s.now ≡ rows * count)
        × Ready p s.now d.old at (rows * line_room (length h.now) count) }
    ensures { Put at
        (lines (row_forms (balanced_form p count) h.now 1 rows) (number_at p s.now) 0)
        d.old d.new result }
{
    let mut e = at;
    for i in 0..rows {
        let row = &s[i * count..(i + 1) * count];
        e = put_row(d, e, h, i + 1, row, p);
    }
    e
}

// The lines with the word, a row and a column, row by row.
fn put_matrix(
    d: &mut [u8],
    at: usize,
    word: u8,
    order: usize,
    s: &[u32],
    count: usize,
    p: u32,
) -> usize
    requires { (order ≤ 8) × (length s.now ≡ order * (order * count))
        × Ready p s.now d.old at (order * (order * line_room 3 count)) }
    ensures { Put at
        (lines (matrix_forms (balanced_form p count) (word ∷ []) order 1 order) (number_at p s.now) 0)
        d.old d.new result }
{
    let step = order * count;
    let mut e = at;
    for i in 0..order {
        let h = [word, 9, 49 + i as u8];
        let row = &s[i * step..(i + 1) * step];
        e = put_rows(d, e, &h, order, row, count, p);
    }
    e
}

// How line 1 begins: `result` and the kind's word.
fn put_lead(d: &mut [u8], kind: Kind) -> usize
    requires { 15 ≤ length d.old }
    ensures { Put 0 (result_words kind) d.old d.new result }
{
    match kind {
        Kind::System => put_bytes(d, 0, b"result\tsystem"),
        Kind::Basis => put_bytes(d, 0, b"result\tbasis"),
        Kind::Equation => put_bytes(d, 0, b"result\tequation"),
    }
}

// Line 1.
fn put_header(d: &mut [u8], h: Header) -> usize
    requires { 79 ≤ length d.old }
    ensures { Put 0 ((header_form (result_words h.kind) h).head ++ (10 ∷ []))
        d.old d.new result }
{
    let a = put_lead(d, h.kind);
    put_three(d, a, h.r, h.n, h.p)
}

// The sheet of y, of so many rows.
fn put_vector(d: &mut [u8], h: Header, rows: usize, y: &[u32]) -> usize
    requires { VectorReady h.kind h.r rows h.n h.p y.now d.old }
    ensures { Put 0 (result_text h (y.now ∷ []))
        d.old d.new result }
{
    let a = put_header(d, h);
    put_rows(d, a, b"y", rows, y, h.n as usize, h.p as u32)
}

// The sheet of Y and Z.
fn put_basis(d: &mut [u8], h: Header, y: &[u32], z: &[u32]) -> usize
    requires { (h.kind ≡ Basis) × BasisReady h.r h.n h.p y.now z.now d.old }
    ensures { Put 0 (result_text h (y.now ∷ z.now ∷ []))
        d.old d.new result }
{
    let order = h.r as usize;
    let terms = h.n as usize;
    let modulus = h.p as u32;
    let a = put_header(d, h);
    let b = put_matrix(d, a, b'Y', order, y, terms, modulus);
    put_matrix(d, b, b'Z', order, z, terms, modulus)
}

// The writer for y of so many rows.
fn write_vector(h: Header, rows: u64, y: &[u32], text: &mut [u8]) -> Result<usize, Refusal>
    requires { Rows h.kind h.r rows }
    ensures { WriteOutcome h (y.now ∷ [])
        text.old result text.new }
{
    refusal::check_small(h.r, h.n, h.p)?;
    let count = (rows * h.n) as usize;
    refusal::check_lengths(1, [count, 65536], [y.len(), text.len()])?;
    refusal::check_buffer(h.p as u32, 1, y, count)?;
    Ok(put_vector(text, h, rows as usize, y))
}

// The result sheet of a system, y of r rows with n terms each.
pub fn write_system(r: u64, n: u64, p: u64, y: &[u32], text: &mut [u8]) -> Result<usize, Refusal>
    ensures { WriteOutcome (header System r n p) (y.now ∷ [])
        text.old result text.new }
{
    let h = Header {
        kind: Kind::System,
        r,
        n,
        p,
    };
    write_vector(h, r, y, text)
}

// The result sheet of an equation, y of n terms.
pub fn write_equation(r: u64, n: u64, p: u64, y: &[u32], text: &mut [u8]) -> Result<usize, Refusal>
    ensures { WriteOutcome (header Equation r n p) (y.now ∷ [])
        text.old result text.new }
{
    let h = Header {
        kind: Kind::Equation,
        r,
        n,
        p,
    };
    write_vector(h, 1, y, text)
}

// The result sheet of a basis, Y and Z of r rows and columns with n terms each.
pub fn write_basis(
    r: u64,
    n: u64,
    p: u64,
    y: &[u32],
    z: &[u32],
    text: &mut [u8],
) -> Result<usize, Refusal>
    ensures { WriteOutcome (header Basis r n p) (y.now ∷ z.now ∷ [])
        text.old result text.new }
{
    refusal::check_small(r, n, p)?;
    let count = (r * r * n) as usize;
    refusal::check_lengths(1, [count, count, 65536], [y.len(), z.len(), text.len()])?;
    let q = p as u32;
    refusal::check_buffer(q, 1, y, count)?;
    refusal::check_buffer(q, 2, z, count)?;
    let h = Header {
        kind: Kind::Basis,
        r,
        n,
        p,
    };
    Ok(put_basis(text, h, y, z))
}
