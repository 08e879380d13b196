// What other languages call: the jobs of document 01, on words and on bytes, and the readers and writers of sheets. The
// answer comes back as one number, `packed` of specs/.
#![tactic(auto)]

ghost use Rattle.std.specs.Prelude.{◌≡◌, [], ◌∷◌, ◌<◌};
ghost use Rattle.job.specs.Refusal.{refused, verdict_of};
ghost use Rattle.job.specs.Job.{buffers, words, bytes};
ghost use Rattle.job.specs.declared.Kind.TheVariants.{System, Basis, Equation};
ghost use Rattle.refusal.specs.Checked.{job_of};
ghost use Rattle.header.specs.Header.{header};
ghost use Rattle.sheet.specs.Read.{JobOutcome};
ghost use Rattle.reread.specs.Read.{ResultOutcome};
ghost use Rattle.pealvixen.specs.Packing.{packed, PackedOutcome};
ghost use Rattle.pealvixen.specs.Sheets.{kind_number, told, told_written, ReadTold, WriteTold};
ghost use Rattle.pealvixen.specs.Steps.{LineFits};

use job::{Header, Kind, Refusal};
use result::Places;

// A refusal's number and places as one number.
#[tactic(auto, unfolding(crate::specs::Packing::packed))]
fn join(number: u8, first: usize, second: u32) -> u64
    requires { first < 16777216 }
    ensures { result ≡ packed (refused number first second) }
{
    u64::from(number) + 256 * (first as u64) + 4294967296 * u64::from(second)
}

// The answer as one number, whatever it carries when it is done.
fn pack<T: Copy>(answer: Result<T, Refusal>) -> u64
    requires { LineFits answer }
    ensures { result ≡ packed (verdict_of answer) }
{
    match answer {
        Ok(_) => 0,
        Err(refusal) => {
            let Places(number, first, second) = result::place(Err(refusal));
            join(number, first, second)
        }
    }
}

// The system job by halving.
pub fn pealvixen_system_halving(
    r: u64,
    n: u64,
    p: u64,
    a: &[u32],
    b: &[u32],
    v: &[u32],
    y: &mut [u32],
    work: &mut [u32],
) -> u64
    ensures { PackedOutcome words
        (job_of System r n p
        (buffers a.now b.now v.now y.old work.old))
        result
        (buffers a.now b.now v.now y.new work.new) }
{
    pack(halving::system(r, n, p, a, b, v, y, work))
}

// The system job by Newton.
pub fn pealvixen_system_newton(
    r: u64,
    n: u64,
    p: u64,
    a: &[u32],
    b: &[u32],
    v: &[u32],
    y: &mut [u32],
    work: &mut [u32],
) -> u64
    ensures { PackedOutcome words
        (job_of System r n p
        (buffers a.now b.now v.now y.old work.old))
        result
        (buffers a.now b.now v.now y.new work.new) }
{
    pack(newton::system(r, n, p, a, b, v, y, work))
}

// The basis job: a basis and its inverse.
pub fn pealvixen_basis(
    r: u64,
    n: u64,
    p: u64,
    a: &[u32],
    y0: &[u32],
    y: &mut [u32],
    z: &mut [u32],
    work: &mut [u32],
) -> u64
    ensures { PackedOutcome words
        (job_of Basis r n p
        (buffers a.now y0.now y.old z.old work.old))
        result
        (buffers a.now y0.now y.new z.new work.new) }
{
    pack(newton::basis(r, n, p, a, y0, y, z, work))
}

// The equation job by halving.
pub fn pealvixen_equation_halving(
    r: u64,
    n: u64,
    p: u64,
    a: &[u32],
    b: &[u32],
    start: &[u32],
    y: &mut [u32],
    work: &mut [u32],
) -> u64
    ensures { PackedOutcome words
        (job_of Equation r n p
        (buffers a.now b.now start.now y.old work.old))
        result
        (buffers a.now b.now start.now y.new work.new) }
{
    pack(equation::by_halving(r, n, p, a, b, start, y, work))
}

// The equation job by Newton.
pub fn pealvixen_equation_newton(
    r: u64,
    n: u64,
    p: u64,
    a: &[u32],
    b: &[u32],
    start: &[u32],
    y: &mut [u32],
    work: &mut [u32],
) -> u64
    ensures { PackedOutcome words
        (job_of Equation r n p
        (buffers a.now b.now start.now y.old work.old))
        result
        (buffers a.now b.now start.now y.new work.new) }
{
    pack(equation::by_newton(r, n, p, a, b, start, y, work))
}

// The system job by halving, on bytes.
pub fn pealvixen_system_halving_bytes(
    r: u64,
    n: u64,
    p: u64,
    a: &[u8],
    b: &[u8],
    v: &[u8],
    y: &mut [u8],
    work: &mut [u8],
) -> u64
    ensures { PackedOutcome bytes
        (job_of System r n p
        (buffers a.now b.now v.now y.old work.old))
        result
        (buffers a.now b.now v.now y.new work.new) }
{
    pack(bytejobs::system_halving(r, n, p, a, b, v, y, work))
}

// The system job by Newton, on bytes.
pub fn pealvixen_system_newton_bytes(
    r: u64,
    n: u64,
    p: u64,
    a: &[u8],
    b: &[u8],
    v: &[u8],
    y: &mut [u8],
    work: &mut [u8],
) -> u64
    ensures { PackedOutcome bytes
        (job_of System r n p
        (buffers a.now b.now v.now y.old work.old))
        result
        (buffers a.now b.now v.now y.new work.new) }
{
    pack(bytejobs::system_newton(r, n, p, a, b, v, y, work))
}

// The basis job, on bytes.
pub fn pealvixen_basis_bytes(
    r: u64,
    n: u64,
    p: u64,
    a: &[u8],
    y0: &[u8],
    y: &mut [u8],
    z: &mut [u8],
    work: &mut [u8],
) -> u64
    ensures { PackedOutcome bytes
        (job_of Basis r n p
        (buffers a.now y0.now y.old z.old work.old))
        result
        (buffers a.now y0.now y.new z.new work.new) }
{
    pack(bytejobs::basis(r, n, p, a, y0, y, z, work))
}

// The equation job by halving, on bytes.
pub fn pealvixen_equation_halving_bytes(
    r: u64,
    n: u64,
    p: u64,
    a: &[u8],
    b: &[u8],
    start: &[u8],
    y: &mut [u8],
    work: &mut [u8],
) -> u64
    ensures { PackedOutcome bytes
        (job_of Equation r n p
        (buffers a.now b.now start.now y.old work.old))
        result
        (buffers a.now b.now start.now y.new work.new) }
{
    pack(bytejobs::equation_halving(r, n, p, a, b, start, y, work))
}

// The equation job by Newton, on bytes.
pub fn pealvixen_equation_newton_bytes(
    r: u64,
    n: u64,
    p: u64,
    a: &[u8],
    b: &[u8],
    start: &[u8],
    y: &mut [u8],
    work: &mut [u8],
) -> u64
    ensures { PackedOutcome bytes
        (job_of Equation r n p
        (buffers a.now b.now start.now y.old work.old))
        result
        (buffers a.now b.now start.now y.new work.new) }
{
    pack(bytejobs::equation_newton(r, n, p, a, b, start, y, work))
}

// What a reader of sheets tells: the answer as one number, and what line 1 says, or zeros where the sheet is refused.
#[repr(C)]
#[derive(Clone, Copy)]
pub struct SheetRead {
    pub answer: u64,
    pub kind: u64,
    pub r: u64,
    pub n: u64,
    pub p: u64,
}

// The number of a kind, as the C interface fixes it.
#[tactic(auto, unfolding(crate::specs::Sheets::kind_number))]
fn number_of(kind: Kind) -> u64
    ensures { result ≡ kind_number kind }
{
    match kind {
        Kind::System => 1,
        Kind::Basis => 2,
        Kind::Equation => 3,
    }
}

// What a reader answers, told in numbers.
fn tell(x: Result<Header, Refusal>) -> SheetRead
    requires { LineFits x }
    ensures { result ≡ told x }
{
    let answer = pack(x);
    match x {
        Ok(Header { kind, r, n, p }) => SheetRead {
            answer,
            kind: number_of(kind),
            r,
            n,
            p,
        },
        Err(_) => SheetRead {
            answer,
            kind: 0,
            r: 0,
            n: 0,
            p: 0,
        },
    }
}

// Reads a job sheet into three rooms.
pub fn pealvixen_read_job(
    text: &[u8],
    one: &mut [u32],
    two: &mut [u32],
    three: &mut [u32],
) -> SheetRead
    ensures { ReadTold (JobOutcome text.now (one.old ∷ two.old ∷ three.old ∷ [])) result
        (one.new ∷ two.new ∷ three.new ∷ []) }
{
    tell(sheet::read_job(text, one, two, three))
}

// Reads a result sheet into two rooms.
pub fn pealvixen_read_result(text: &[u8], one: &mut [u32], two: &mut [u32]) -> SheetRead
    ensures { ReadTold (ResultOutcome text.now (one.old ∷ two.old ∷ [])) result
        (one.new ∷ two.new ∷ []) }
{
    tell(reread::read_result(text, one, two))
}

// What a writer of sheets tells: the answer as one number, and the text's length in bytes, or 0 where it is refused.
#[repr(C)]
#[derive(Clone, Copy)]
pub struct SheetWritten {
    pub answer: u64,
    pub length: u64,
}

// What a writer answers, told in numbers.
fn tell_written(w: Result<usize, Refusal>) -> SheetWritten
    requires { LineFits w }
    ensures { result ≡ told_written w }
{
    SheetWritten {
        answer: pack(w),
        length: w.unwrap_or(0) as u64,
    }
}

// Writes the result sheet of a system.
pub fn pealvixen_write_system(r: u64, n: u64, p: u64, y: &[u32], text: &mut [u8]) -> SheetWritten
    ensures { WriteTold (header System r n p) (y.now ∷ [])
        text.old result text.new }
{
    tell_written(result::write_system(r, n, p, y, text))
}

// Writes the result sheet of an equation.
pub fn pealvixen_write_equation(r: u64, n: u64, p: u64, y: &[u32], text: &mut [u8]) -> SheetWritten
    ensures { WriteTold (header Equation r n p) (y.now ∷ [])
        text.old result text.new }
{
    tell_written(result::write_equation(r, n, p, y, text))
}

// Writes the result sheet of a basis.
pub fn pealvixen_write_basis(
    r: u64,
    n: u64,
    p: u64,
    y: &[u32],
    z: &[u32],
    text: &mut [u8],
) -> SheetWritten
    ensures { WriteTold (header Basis r n p) (y.now ∷ z.now ∷ [])
        text.old result text.new }
{
    tell_written(result::write_basis(r, n, p, y, z, text))
}
