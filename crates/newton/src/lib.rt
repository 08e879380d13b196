// The jobs that the Newton solver does: a basis of solutions with its inverse, and a system by such a basis.
#![tactic(auto)]

ghost use Rattle.std.specs.Prelude.{◌≡◌, ◌+◌, ◌*◌, ◌≤◌, length};
ghost use Rattle.job.specs.declared.Kind.TheVariants.{Basis, System};
ghost use Rattle.job.specs.Job.{buffers, words};
ghost use Rattle.job.specs.Outcome.{Outcome};
ghost use Rattle.refusal.specs.Checked.{job_of};
ghost use Rattle.newton.specs.Basis.{Spreadable, Spread, units, Startable, StartInverted, Ready, Found, Ran};
ghost use Rattle.newton.specs.System.{Placeable, Placed, SystemReady, SystemFound, SystemRan};

use eliminate::Singular;
use job::{Header, Kind, Refusal};
use residue::Shape;

// Puts the words of src from `from` on into the first terms of the entries from word `at` on, a word to an entry.
pub fn spread(entries: usize, n: usize, src: &[u32], from: usize, at: usize, w: &mut [u32])
    requires { Spreadable entries n src.now from at w.old }
    ensures { Spread entries n src.now from at w.old w.new }
{
    for e in 0..entries {
        room::copy(src, from + e, w, at + e * n, 1);
    }
}

// Puts Y0 into s and its inverse behind it, if there is one.
fn invert_start(p: u32, r: usize, y0: &[u32], s: &mut [u32]) -> Result<(), Singular>
    requires { Startable p r y0.now s.old }
    ensures { StartInverted p r y0.now s.new result }
{
    room::copy(y0, 0, s, 0, r * r);
    eliminate::invert_matrix(p, r, s)
}

// Finds the basis in a room: A, Y0 and its inverse, which stands in s from word r * r on, are put into their places.
// `place_matrix` begins with the same two calls: a function for two calls would be no plainer.
fn find_basis(g: Shape, a: &[u32], y0: &[u32], s: &[u32], w: &mut [u32])
    requires { Ready g.q g.r g.n a.now y0.now s.now w.old }
    ensures { Found g.q.p g.r g.n a.now y0.now w.new }
{
    let square = g.r * g.r;
    let m = square * g.n;
    room::clear(w);
    room::copy(a, 0, w, 0, m);
    spread(square, g.n, y0, 0, m, w);
    spread(square, g.n, s, square, 2 * m, w);
    ladder::solve_basis(g, w);
}

// Does an accepted job: Y and Z go to their buffers, and the room is cleared again.
fn run_basis(
    g: Shape,
    a: &[u32],
    y0: &[u32],
    s: &[u32],
    y: &mut [u32],
    z: &mut [u32],
    work: &mut [u32],
)
    requires { Ready g.q g.r g.n a.now y0.now s.now work.old
        × (length y.old ≡ g.r * g.r * g.n)
        × (length z.old ≡ g.r * g.r * g.n) }
    ensures { Ran g.q.p g.r g.n a.now y0.now y.new z.new
        work.new }
{
    find_basis(g, a, y0, s, work);
    let m = y.len();
    room::copy(work, m, y, 0, m);
    room::copy(work, 2 * m, z, 0, m);
    room::clear(work);
}

// The basis job: Y' = AY with Y(0) = Y0, and the inverse Z of Y.
pub fn basis(
    r: u64,
    n: u64,
    p: u64,
    a: &[u32],
    y0: &[u32],
    y: &mut [u32],
    z: &mut [u32],
    work: &mut [u32],
) -> Result<(), Refusal>
    ensures { Outcome words
        (job_of Basis r n p
        (buffers a.now y0.now y.old z.old work.old))
        result
        (buffers a.now y0.now y.new z.new work.new) }
{
    let h = Header {
        kind: Kind::Basis,
        r,
        n,
        p,
    };
    refusal::check_words(h, a, y0, y, z, work)?;
    let mut s = [0u32; 128];
    invert_start(p as u32, r as usize, y0, &mut s).map_err(|_| Refusal::Singular)?;
    let q = residue::make_modulus(p as u32);
    let g = Shape {
        q,
        r: r as usize,
        n: n as usize,
    };
    run_basis(g, a, y0, &s, y, z, work);
    Ok(())
}

// Puts the identity into the first terms of the entries from word `at` on: ones, r + 1 entries apart.
pub fn place_identity(r: usize, n: usize, at: usize, w: &mut [u32])
    requires { (r ≤ 8) × (n ≤ 4096) × Spreadable r ((r + 1) * n) units 0 at w.old }
    ensures { Spread r ((r + 1) * n) units 0 at w.old w.new }
{
    let ones = [1u32; 8];
    spread(r, (r + 1) * n, &ones, 0, at, w);
}

// Puts A into its place in the room, and the identity into the places of Y and Z.
fn place_matrix(r: usize, n: usize, a: &[u32], w: &mut [u32])
    requires { Placeable r n a.now w.old }
    ensures { Placed r n a.now w.new }
{
    let m = r * r * n;
    room::clear(w);
    room::copy(a, 0, w, 0, m);
    place_identity(r, n, m, w);
    place_identity(r, n, 2 * m, w);
}

// Finds the solution in a room.
fn find_solution(g: Shape, a: &[u32], b: &[u32], v: &[u32], w: &mut [u32])
    requires { SystemReady g.q g.r g.n a.now b.now v.now w.old }
    ensures { SystemFound g.q.p g.r g.n a.now b.now v.now w.new }
{
    let m = a.len();
    place_matrix(g.r, g.n, a, w);
    room::copy(b, 0, w, 8 * m, g.r * g.n);
    spread(g.r, g.n, v, 0, 9 * m, w);
    ladder::solve_system(g, w);
}

// Does an accepted job: the solution goes to y, and the room is cleared again. It shares two calls with `run_basis`.
fn run_system(g: Shape, a: &[u32], b: &[u32], v: &[u32], y: &mut [u32], work: &mut [u32])
    requires { SystemReady g.q g.r g.n a.now b.now v.now work.old × (length y.old ≡ g.r * g.n) }
    ensures { SystemRan g.q.p g.r g.n a.now b.now v.now y.new
        work.new }
{
    find_solution(g, a, b, v, work);
    let m = a.len();
    let count = y.len();
    room::copy(work, 11 * m, y, 0, count);
    room::clear(work);
}

// The system job by Newton: y' = Ay + b with y(0) = v.
pub fn system(
    r: u64,
    n: u64,
    p: u64,
    a: &[u32],
    b: &[u32],
    v: &[u32],
    y: &mut [u32],
    work: &mut [u32],
) -> Result<(), Refusal>
    ensures { Outcome words
        (job_of System r n p
        (buffers a.now b.now v.now y.old work.old))
        result
        (buffers a.now b.now v.now y.new work.new) }
{
    let h = Header {
        kind: Kind::System,
        r,
        n,
        p,
    };
    refusal::check_words(h, a, b, v, y, work)?;
    let q = residue::make_modulus(p as u32);
    let g = Shape {
        q,
        r: r as usize,
        n: n as usize,
    };
    run_system(g, a, b, v, y, work);
    Ok(())
}
