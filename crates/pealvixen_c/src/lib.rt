// The archive for other languages: each function of `pealvixen` under its own name, with its clauses.
#![tactic(auto)]

ghost use Rattle.std.specs.Prelude.{[], ◌∷◌};
ghost use Rattle.job.specs.Job.{buffers, words, bytes};
ghost use Rattle.job.specs.declared.Kind.TheVariants.{System, Basis, Equation};
ghost use Rattle.refusal.specs.Checked.{job_of};
ghost use Rattle.header.specs.Header.{header};
ghost use Rattle.sheet.specs.Read.{JobOutcome};
ghost use Rattle.reread.specs.Read.{ResultOutcome};
ghost use Rattle.pealvixen.specs.Packing.{PackedOutcome};
ghost use Rattle.pealvixen.specs.Sheets.{ReadTold, WriteTold};

use pealvixen::{SheetRead, SheetWritten};

// The system job by halving.
#[unsafe(no_mangle)]
pub extern "C" fn pealvixen_system_halving(
    r: u64,
    n: u64,
    p: u64,
    a: &[u32],
    b: &[u32],
    v: &[u32],
    y: &mut [u32],
    work: &mut [u32],
) -> u64
    ensures { PackedOutcome words
        (job_of System r n p
        (buffers a.now b.now v.now y.old work.old))
        result
        (buffers a.now b.now v.now y.new work.new) }
{
    pealvixen::pealvixen_system_halving(r, n, p, a, b, v, y, work)
}

// The system job by Newton.
#[unsafe(no_mangle)]
pub extern "C" fn pealvixen_system_newton(
    r: u64,
    n: u64,
    p: u64,
    a: &[u32],
    b: &[u32],
    v: &[u32],
    y: &mut [u32],
    work: &mut [u32],
) -> u64
    ensures { PackedOutcome words
        (job_of System r n p
        (buffers a.now b.now v.now y.old work.old))
        result
        (buffers a.now b.now v.now y.new work.new) }
{
    pealvixen::pealvixen_system_newton(r, n, p, a, b, v, y, work)
}

// The basis job: a basis and its inverse.
#[unsafe(no_mangle)]
pub extern "C" fn pealvixen_basis(
    r: u64,
    n: u64,
    p: u64,
    a: &[u32],
    y0: &[u32],
    y: &mut [u32],
    z: &mut [u32],
    work: &mut [u32],
) -> u64
    ensures { PackedOutcome words
        (job_of Basis r n p
        (buffers a.now y0.now y.old z.old work.old))
        result
        (buffers a.now y0.now y.new z.new work.new) }
{
    pealvixen::pealvixen_basis(r, n, p, a, y0, y, z, work)
}

// The equation job by halving.
#[unsafe(no_mangle)]
pub extern "C" fn pealvixen_equation_halving(
    r: u64,
    n: u64,
    p: u64,
    a: &[u32],
    b: &[u32],
    start: &[u32],
    y: &mut [u32],
    work: &mut [u32],
) -> u64
    ensures { PackedOutcome words
        (job_of Equation r n p
        (buffers a.now b.now start.now y.old work.old))
        result
        (buffers a.now b.now start.now y.new work.new) }
{
    pealvixen::pealvixen_equation_halving(r, n, p, a, b, start, y, work)
}

// The equation job by Newton.
#[unsafe(no_mangle)]
pub extern "C" fn pealvixen_equation_newton(
    r: u64,
    n: u64,
    p: u64,
    a: &[u32],
    b: &[u32],
    start: &[u32],
    y: &mut [u32],
    work: &mut [u32],
) -> u64
    ensures { PackedOutcome words
        (job_of Equation r n p
        (buffers a.now b.now start.now y.old work.old))
        result
        (buffers a.now b.now start.now y.new work.new) }
{
    pealvixen::pealvixen_equation_newton(r, n, p, a, b, start, y, work)
}

// The system job by halving, on bytes.
#[unsafe(no_mangle)]
pub extern "C" fn pealvixen_system_halving_bytes(
    r: u64,
    n: u64,
    p: u64,
    a: &[u8],
    b: &[u8],
    v: &[u8],
    y: &mut [u8],
    work: &mut [u8],
) -> u64
    ensures { PackedOutcome bytes
        (job_of System r n p
        (buffers a.now b.now v.now y.old work.old))
        result
        (buffers a.now b.now v.now y.new work.new) }
{
    pealvixen::pealvixen_system_halving_bytes(r, n, p, a, b, v, y, work)
}

// The system job by Newton, on bytes.
#[unsafe(no_mangle)]
pub extern "C" fn pealvixen_system_newton_bytes(
    r: u64,
    n: u64,
    p: u64,
    a: &[u8],
    b: &[u8],
    v: &[u8],
    y: &mut [u8],
    work: &mut [u8],
) -> u64
    ensures { PackedOutcome bytes
        (job_of System r n p
        (buffers a.now b.now v.now y.old work.old))
        result
        (buffers a.now b.now v.now y.new work.new) }
{
    pealvixen::pealvixen_system_newton_bytes(r, n, p, a, b, v, y, work)
}

// The basis job, on bytes.
#[unsafe(no_mangle)]
pub extern "C" fn pealvixen_basis_bytes(
    r: u64,
    n: u64,
    p: u64,
    a: &[u8],
    y0: &[u8],
    y: &mut [u8],
    z: &mut [u8],
    work: &mut [u8],
) -> u64
    ensures { PackedOutcome bytes
        (job_of Basis r n p
        (buffers a.now y0.now y.old z.old work.old))
        result
        (buffers a.now y0.now y.new z.new work.new) }
{
    pealvixen::pealvixen_basis_bytes(r, n, p, a, y0, y, z, work)
}

// The equation job by halving, on bytes.
#[unsafe(no_mangle)]
pub extern "C" fn pealvixen_equation_halving_bytes(
    r: u64,
    n: u64,
    p: u64,
    a: &[u8],
    b: &[u8],
    start: &[u8],
    y: &mut [u8],
    work: &mut [u8],
) -> u64
    ensures { PackedOutcome bytes
        (job_of Equation r n p
        (buffers a.now b.now start.now y.old work.old))
        result
        (buffers a.now b.now start.now y.new work.new) }
{
    pealvixen::pealvixen_equation_halving_bytes(r, n, p, a, b, start, y, work)
}

// The equation job by Newton, on bytes.
#[unsafe(no_mangle)]
pub extern "C" fn pealvixen_equation_newton_bytes(
    r: u64,
    n: u64,
    p: u64,
    a: &[u8],
    b: &[u8],
    start: &[u8],
    y: &mut [u8],
    work: &mut [u8],
) -> u64
    ensures { PackedOutcome bytes
        (job_of Equation r n p
        (buffers a.now b.now start.now y.old work.old))
        result
        (buffers a.now b.now start.now y.new work.new) }
{
    pealvixen::pealvixen_equation_newton_bytes(r, n, p, a, b, start, y, work)
}

// Reads a job sheet into three rooms.
#[unsafe(no_mangle)]
pub extern "C" fn pealvixen_read_job(
    text: &[u8],
    one: &mut [u32],
    two: &mut [u32],
    three: &mut [u32],
) -> SheetRead
    ensures { ReadTold (JobOutcome text.now (one.old ∷ two.old ∷ three.old ∷ [])) result
        (one.new ∷ two.new ∷ three.new ∷ []) }
{
    pealvixen::pealvixen_read_job(text, one, two, three)
}

// Reads a result sheet into two rooms.
#[unsafe(no_mangle)]
pub extern "C" fn pealvixen_read_result(text: &[u8], one: &mut [u32], two: &mut [u32]) -> SheetRead
    ensures { ReadTold (ResultOutcome text.now (one.old ∷ two.old ∷ [])) result
        (one.new ∷ two.new ∷ []) }
{
    pealvixen::pealvixen_read_result(text, one, two)
}

// Writes the result sheet of a system.
#[unsafe(no_mangle)]
pub extern "C" fn pealvixen_write_system(
    r: u64,
    n: u64,
    p: u64,
    y: &[u32],
    text: &mut [u8],
) -> SheetWritten
    ensures { WriteTold (header System r n p) (y.now ∷ [])
        text.old result text.new }
{
    pealvixen::pealvixen_write_system(r, n, p, y, text)
}

// Writes the result sheet of an equation.
#[unsafe(no_mangle)]
pub extern "C" fn pealvixen_write_equation(
    r: u64,
    n: u64,
    p: u64,
    y: &[u32],
    text: &mut [u8],
) -> SheetWritten
    ensures { WriteTold (header Equation r n p) (y.now ∷ [])
        text.old result text.new }
{
    pealvixen::pealvixen_write_equation(r, n, p, y, text)
}

// Writes the result sheet of a basis.
#[unsafe(no_mangle)]
pub extern "C" fn pealvixen_write_basis(
    r: u64,
    n: u64,
    p: u64,
    y: &[u32],
    z: &[u32],
    text: &mut [u8],
) -> SheetWritten
    ensures { WriteTold (header Basis r n p) (y.now ∷ z.now ∷ [])
        text.old result text.new }
{
    pealvixen::pealvixen_write_basis(r, n, p, y, z, text)
}
