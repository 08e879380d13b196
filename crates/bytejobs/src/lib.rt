// The jobs of document 01 on bytes. A job that fits is decoded into words, solved by the job on words, and its results
// are encoded; the job on words makes the checks. What does not fit is refused by the checks on bytes. The rooms of
// words are local arrays; a short job gets short ones, so that it does not pay for clearing long ones.
#![tactic(auto)]

ghost use Rattle.std.specs.Prelude.{◌≡◌, ◌≤◌, ◌<◌, length};
ghost use Rattle.job.specs.declared.Kind.TheVariants.{System, Basis, Equation};
ghost use Rattle.job.specs.Job.{buffers, words, bytes};
ghost use Rattle.job.specs.Outcome.{Outcome};
ghost use Rattle.refusal.specs.Checked.{job_of};
ghost use Rattle.bytejobs.specs.Solvers.{kind_of, read_of, Roomy, Sized, Fitted, Answered};

use job::{Header, Kind, Refusal};

// A job on words: its kind, and the method. An enum, since each impl of a trait would write out the head of `solve`.
#[derive(Clone, Copy)]
enum Solver {
    SystemHalving,
    SystemNewton,
    BasisNewton,
    EquationHalving,
    EquationNewton,
}

// The kind of job that a solver does.
fn kind_of(solver: Solver) -> Kind
    ensures { result ≡ kind_of solver }
{
    match solver {
        Solver::SystemHalving => Kind::System,
        Solver::SystemNewton => Kind::System,
        Solver::BasisNewton => Kind::Basis,
        Solver::EquationHalving => Kind::Equation,
        Solver::EquationNewton => Kind::Equation,
    }
}

// The job on words. Where buffer 3 is only read it stays as it was.
fn solve(
    solver: Solver,
    r: u64,
    n: u64,
    p: u64,
    a: &[u32],
    b: &[u32],
    c: &mut [u32],
    d: &mut [u32],
    e: &mut [u32],
) -> Result<(), Refusal>
    ensures { Outcome words
        (job_of (kind_of solver) r n p
        (buffers a.now b.now c.old d.old e.old))
        result
        (buffers a.now b.now c.new d.new e.new) }
{
    match solver {
        Solver::SystemHalving => halving::system(r, n, p, a, b, c, d, e),
        Solver::SystemNewton => newton::system(r, n, p, a, b, c, d, e),
        Solver::BasisNewton => newton::basis(r, n, p, a, b, c, d, e),
        Solver::EquationHalving => equation::by_halving(r, n, p, a, b, c, d, e),
        Solver::EquationNewton => equation::by_newton(r, n, p, a, b, c, d, e),
    }
}

// What is given of a job on bytes: what solves it, its numbers, and the first three buffers. The solver says the kind,
// so no header is held here, which could say another.
#[derive(Clone, Copy)]
struct Given<'a> {
    solver: Solver,
    r: u64,
    n: u64,
    p: u64,
    one: &'a [u8],
    two: &'a [u8],
    three: &'a [u8],
}

// Decodes the first three buffers into rooms of words, and solves there.
fn solve_decoded(
    g: Given,
    a: &mut [u32],
    b: &mut [u32],
    c: &mut [u32],
    d: &mut [u32],
    e: &mut [u32],
) -> Result<(), Refusal>
    requires { Roomy (kind_of g.solver) g.r g.n g.one.now g.two.now g.three.now a.old b.old c.old d.old e.old }
    ensures { let h = g.entry in
        Answered (kind_of h.solver) h.r h.n h.p h.one.now h.two.now h.three.now c.new d.new result }
{
    octets::decode(g.one, a);
    octets::decode(g.two, b);
    octets::decode(g.three, c);
    solve(g.solver, g.r, g.n, g.p, a, b, c, d, e)
}

// Solves in rooms of A, B and E words for the first two buffers and the work room, which gets `room`.
fn solve_within<const A: usize, const B: usize, const E: usize>(
    g: Given,
    c: &mut [u32],
    d: &mut [u32],
    room: usize,
) -> Result<(), Refusal>
    requires { (A ≤ 2048) × (B ≤ 1024) × (E ≤ 16384)
        × Sized A B E (kind_of g.solver) g.r g.n g.one.now g.two.now g.three.now c.old d.old room }
    ensures { let h = g.entry in
        Answered (kind_of h.solver) h.r h.n h.p h.one.now h.two.now h.three.now c.new d.new result }
{
    let mut a = [0u32; A];
    let mut b = [0u32; B];
    let mut e = [0u32; E];
    let k = g.one.len() / 4;
    let l = g.two.len() / 4;
    solve_decoded(g, &mut a[..k], &mut b[..l], c, d, &mut e[..room])
}

// Solves in rooms that are not much longer than the job: short ones where r * r * N is at most 64.
fn solve_bytes(g: Given, c: &mut [u32], d: &mut [u32], room: usize) -> Result<(), Refusal>
    requires { Sized 2048 1024 16384 (kind_of g.solver) g.r g.n g.one.now g.two.now g.three.now c.old d.old room }
    ensures { let h = g.entry in
        Answered (kind_of h.solver) h.r h.n h.p h.one.now h.two.now h.three.now c.new d.new result }
{
    if room <= 1024 {
        return solve_within::<128, 64, 1024>(g, c, d, room);
    }
    solve_within::<2048, 1024, 16384>(g, c, d, room)
}

// Does a job that fits and whose first three buffers are only read; c and d are rooms of words for buffers 3 and 4.
fn run_vector(
    g: Given,
    four: &mut [u8],
    five: &mut [u8],
    c: &mut [u32],
    d: &mut [u32],
) -> Result<(), Refusal>
    requires { (2 < read_of g.solver)
        × Fitted (kind_of g.solver) g.r g.n g.one.now g.two.now g.three.now four.old five.old c.old d.old }
    ensures { let h = g.entry in
        Outcome bytes
        (job_of (kind_of h.solver) h.r h.n h.p
        (buffers h.one.now h.two.now h.three.now four.old five.old))
        result
        (buffers h.one.now h.two.now h.three.now four.new five.new) }
{
    let room = five.len() / 4;
    solve_bytes(g, c, d, room)?;
    octets::encode(d, four);
    octets::clear(five);
    Ok(())
}

// A job whose first three buffers are only read.
fn vector(g: Given, four: &mut [u8], five: &mut [u8]) -> Result<(), Refusal>
    requires { 2 < read_of g.solver }
    ensures { let h = g.entry in
        Outcome bytes
        (job_of (kind_of h.solver) h.r h.n h.p
        (buffers h.one.now h.two.now h.three.now four.old five.old))
        result
        (buffers h.one.now h.two.now h.three.now four.new five.new) }
{
    let h = Header {
        kind: kind_of(g.solver),
        r: g.r,
        n: g.n,
        p: g.p,
    };
    let lengths = [
        g.one.len(),
        g.two.len(),
        g.three.len(),
        four.len(),
        five.len(),
    ];
    if !octets::fits(h, lengths) {
        return refusal::check_bytes(h, g.one, g.two, g.three, four, five);
    }
    let mut c = [0u32; 8];
    let mut d = [0u32; 1024];
    let k = g.three.len() / 4;
    let l = four.len() / 4;
    run_vector(g, four, five, &mut c[..k], &mut d[..l])
}

// Does a basis job that fits; c and d are rooms of words for Y and Z. It takes no `Given`, since y is written too.
fn run_basis(
    r: u64,
    n: u64,
    p: u64,
    a: &[u8],
    y0: &[u8],
    y: &mut [u8],
    z: &mut [u8],
    work: &mut [u8],
    c: &mut [u32],
    d: &mut [u32],
) -> Result<(), Refusal>
    requires { Fitted Basis r n a.now y0.now y.old z.old work.old c.old d.old }
    ensures { Outcome bytes
        (job_of Basis r n p
        (buffers a.now y0.now y.old z.old work.old))
        result
        (buffers a.now y0.now y.new z.new work.new) }
{
    let room = work.len() / 4;
    let given = Given {
        solver: Solver::BasisNewton,
        r,
        n,
        p,
        one: a,
        two: y0,
        three: y,
    };
    solve_bytes(given, c, d, room)?;
    octets::encode(c, y);
    octets::encode(d, z);
    octets::clear(work);
    Ok(())
}

// The basis job: a basis and its inverse.
pub fn basis(
    r: u64,
    n: u64,
    p: u64,
    a: &[u8],
    y0: &[u8],
    y: &mut [u8],
    z: &mut [u8],
    work: &mut [u8],
) -> Result<(), Refusal>
    ensures { Outcome bytes
        (job_of Basis r n p
        (buffers a.now y0.now y.old z.old work.old))
        result
        (buffers a.now y0.now y.new z.new work.new) }
{
    let h = Header {
        kind: Kind::Basis,
        r,
        n,
        p,
    };
    let lengths = [a.len(), y0.len(), y.len(), z.len(), work.len()];
    if !octets::fits(h, lengths) {
        return refusal::check_bytes(h, a, y0, y, z, work);
    }
    let mut c = [0u32; 1024];
    let mut d = [0u32; 1024];
    let k = y.len() / 4;
    let l = z.len() / 4;
    run_basis(r, n, p, a, y0, y, z, work, &mut c[..k], &mut d[..l])
}

// The system job by halving.
pub fn system_halving(
    r: u64,
    n: u64,
    p: u64,
    a: &[u8],
    b: &[u8],
    v: &[u8],
    y: &mut [u8],
    work: &mut [u8],
) -> Result<(), Refusal>
    ensures { Outcome bytes
        (job_of System r n p
        (buffers a.now b.now v.now y.old work.old))
        result
        (buffers a.now b.now v.now y.new work.new) }
{
    let given = Given {
        solver: Solver::SystemHalving,
        r,
        n,
        p,
        one: a,
        two: b,
        three: v,
    };
    vector(given, y, work)
}

// The system job by Newton.
pub fn system_newton(
    r: u64,
    n: u64,
    p: u64,
    a: &[u8],
    b: &[u8],
    v: &[u8],
    y: &mut [u8],
    work: &mut [u8],
) -> Result<(), Refusal>
    ensures { Outcome bytes
        (job_of System r n p
        (buffers a.now b.now v.now y.old work.old))
        result
        (buffers a.now b.now v.now y.new work.new) }
{
    let given = Given {
        solver: Solver::SystemNewton,
        r,
        n,
        p,
        one: a,
        two: b,
        three: v,
    };
    vector(given, y, work)
}

// The equation job by halving.
pub fn equation_halving(
    r: u64,
    n: u64,
    p: u64,
    a: &[u8],
    b: &[u8],
    start: &[u8],
    y: &mut [u8],
    work: &mut [u8],
) -> Result<(), Refusal>
    ensures { Outcome bytes
        (job_of Equation r n p
        (buffers a.now b.now start.now y.old work.old))
        result
        (buffers a.now b.now start.now y.new work.new) }
{
    let given = Given {
        solver: Solver::EquationHalving,
        r,
        n,
        p,
        one: a,
        two: b,
        three: start,
    };
    vector(given, y, work)
}

// The equation job by Newton.
pub fn equation_newton(
    r: u64,
    n: u64,
    p: u64,
    a: &[u8],
    b: &[u8],
    start: &[u8],
    y: &mut [u8],
    work: &mut [u8],
) -> Result<(), Refusal>
    ensures { Outcome bytes
        (job_of Equation r n p
        (buffers a.now b.now start.now y.old work.old))
        result
        (buffers a.now b.now start.now y.new work.new) }
{
    let given = Given {
        solver: Solver::EquationNewton,
        r,
        n,
        p,
        one: a,
        two: b,
        three: start,
    };
    vector(given, y, work)
}
