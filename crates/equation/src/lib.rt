// Single equations a_r y^(r) + .. + a_1 y' + a_0 y = b, solved as the system of y, y', .., y^(r-1).
#![tactic(auto)]

ghost use Rattle.std.specs.Prelude.{◌≡◌, length};
ghost use Rattle.room.specs.Room.{words_from, Inside, Put, Zeros};
ghost use Rattle.job.specs.Job.{buffers, words};
ghost use Rattle.job.specs.Rules.{call_rules};
ghost use Rattle.job.specs.Outcome.{Outcome};
ghost use Rattle.job.specs.declared.Kind.TheVariants.{Equation};
ghost use Rattle.refusal.specs.Checked.{job_of, Judged};
ghost use Rattle.equation.specs.Translation.{Dividable, RowDivided, Translatable, Translated};
ghost use Rattle.equation.specs.Equation.{Ready, Ran, Placed};

use job::{Header, Kind, Refusal};
use residue::Shape;

// Writes the quotients of -a_0, .., -a_(r-1) by a_r to the words of w from `row` on, n words for each. `lead` is the
// inverse of the first coefficient of a_r, and the 3 * n words from `free` on are scratch.
fn divide_row(g: Shape, lead: u32, a: &[u32], w: &mut [u32], row: usize, free: usize)
    requires { Dividable g.q lead g.r g.n a.now w.old row free }
    ensures { RowDivided g.q.p g.r g.n a.now row free g.r w.old w.new }
{
    let Shape { q, r, n } = g;
    let last = r * n;
    for j in 0..r {
        let at = j * n;
        division::divide(
            q,
            lead,
            true,
            &a[last..last + n],
            &a[at..at + n],
            w,
            row + at,
            free,
        );
    }
}

// Writes the system of an equation into the room w: its matrix from word `at` on, entry by entry, where zeros stand,
// and the last row of its right side, b / a_r, from word `side` on. Row i but the last says that the derivative of the
// unknown i is the unknown i + 1: its one entry that is not 0 is a 1 in column i + 1. The last row's entries are
// -a_0 / a_r, .., -a_(r-1) / a_r. The 3 * n words from `free` on are scratch, and are cleared.
pub fn translate(g: Shape, a: &[u32], b: &[u32], w: &mut [u32], at: usize, side: usize, free: usize)
    requires { Translatable g.q g.r g.n a.now b.now w.old at side free }
    ensures { Translated g.q.p g.r g.n a.now b.now at side free
        w.old w.new }
{
    let last = g.r - 1;
    let ones = [1u32; 8];
    let lead = inverse::invert(a[g.r * g.n], g.q.p as u32);
    newton::spread(last, (g.r + 1) * g.n, &ones, 0, at + g.n, w);
    divide_row(g, lead, a, w, at + last * g.r * g.n, free);
    let from = g.r * g.n;
    division::divide(g.q, lead, false, &a[from..from + g.n], b, w, side, free);
}

// Hands the n words from `from` on over to y, and clears the room that they stand in.
fn hand_over(n: usize, from: usize, y: &mut [u32], lent: &mut [u32])
    requires { Inside lent.old from n × Inside y.old 0 n }
    ensures { Put 0 n (words_from lent.old from) y.old y.new
        × Zeros lent.new }
{
    room::copy(lent, from, y, 0, n);
    room::clear(lent);
}

// A way to solve the system of an equation.
trait Method {
    // Solves an accepted equation, and leaves the room cleared.
    fn run(g: Shape, a: &[u32], b: &[u32], start: &[u32], y: &mut [u32], work: &mut [u32])
        requires { Ready g.q g.r g.n a.now b.now start.now work.old × (length y.old ≡ g.n) }
        ensures { Ran g.q.p g.r g.n a.now b.now start.now
            y.new work.new };
}

// By halving.
struct ByHalving;

impl Method for ByHalving {
    // The right side's rows are moved by one term in the solver's room, so that the last term of b / a_r, which is not
    // asked for, falls into the place of the first unknown.
    fn run(g: Shape, a: &[u32], b: &[u32], start: &[u32], y: &mut [u32], work: &mut [u32]) {
        let Shape { r, n, .. } = g;
        let m = r * r * n;
        room::clear(work);
        translate(g, a, b, work, (3 * r + 1) * n, (r - 1) * n + 1, 8 * m);
        newton::spread(r, n, start, 0, 0, work);
        halving::solve_rows(g, work);
        hand_over(n, r * n, y, work);
    }
}

// Puts the system of an accepted equation into the room of the Newton solver: its matrix, the identity as the first
// term of Y and of Z, b / a_r as the last row of the right side, and the start. The translation's scratch starts at
// the place where the solver makes copies.
fn place(g: Shape, a: &[u32], b: &[u32], start: &[u32], w: &mut [u32])
    requires { Ready g.q g.r g.n a.now b.now start.now w.old }
    ensures { Placed g.q g.r g.n a.now b.now start.now w.new }
{
    let m = g.r * g.r * g.n;
    room::clear(w);
    translate(g, a, b, w, 0, 8 * m + (g.r - 1) * g.n, 3 * m);
    newton::place_identity(g.r, g.n, m, w);
    newton::place_identity(g.r, g.n, 2 * m, w);
    newton::spread(g.r, g.n, start, 0, 9 * m, w);
}

// By Newton.
struct ByNewton;

impl Method for ByNewton {
    fn run(g: Shape, a: &[u32], b: &[u32], start: &[u32], y: &mut [u32], work: &mut [u32]) {
        let m = g.r * g.r * g.n;
        place(g, a, b, start, work);
        ladder::solve_system(g, work);
        hand_over(g.n, 11 * m, y, work);
    }
}

// Refusals 1 to 6, and 8: the first coefficient of a_r is 0.
fn check(
    r: u64,
    n: u64,
    p: u64,
    a: &[u32],
    b: &[u32],
    start: &[u32],
    y: &[u32],
    work: &[u32],
) -> Result<(), Refusal>
    ensures { Judged
        (call_rules words
        (job_of Equation r n p
        (buffers a.now b.now start.now y.now work.now)))
        result }
{
    let h = Header {
        kind: Kind::Equation,
        r,
        n,
        p,
    };
    refusal::check_words(h, a, b, start, y, work)?;
    let order = r as usize;
    let lead = order * (n as usize);
    if a[lead] == 0 {
        return Err(Refusal::LeadingZero);
    }
    Ok(())
}

// The equation job by either method.
fn solve<M: Method>(
    r: u64,
    n: u64,
    p: u64,
    a: &[u32],
    b: &[u32],
    start: &[u32],
    y: &mut [u32],
    work: &mut [u32],
) -> Result<(), Refusal>
    ensures { Outcome words
        (job_of Equation r n p
        (buffers a.now b.now start.now y.old work.old))
        result
        (buffers a.now b.now start.now y.new work.new) }
{
    check(r, n, p, a, b, start, y, work)?;
    let q = residue::make_modulus(p as u32);
    let g = Shape {
        q,
        r: r as usize,
        n: n as usize,
    };
    M::run(g, a, b, start, y, work);
    Ok(())
}

// The equation job by halving: a_r y^(r) + .. + a_0 y = b, where y and its derivatives below the r-th start with the
// words of `start`.
pub fn by_halving(
    r: u64,
    n: u64,
    p: u64,
    a: &[u32],
    b: &[u32],
    start: &[u32],
    y: &mut [u32],
    work: &mut [u32],
) -> Result<(), Refusal>
    ensures { Outcome words
        (job_of Equation r n p
        (buffers a.now b.now start.now y.old work.old))
        result
        (buffers a.now b.now start.now y.new work.new) }
{
    solve::<ByHalving>(r, n, p, a, b, start, y, work)
}

// The equation job by Newton, with the same answer and the same words.
pub fn by_newton(
    r: u64,
    n: u64,
    p: u64,
    a: &[u32],
    b: &[u32],
    start: &[u32],
    y: &mut [u32],
    work: &mut [u32],
) -> Result<(), Refusal>
    ensures { Outcome words
        (job_of Equation r n p
        (buffers a.now b.now start.now y.old work.old))
        result
        (buffers a.now b.now start.now y.new work.new) }
{
    solve::<ByNewton>(r, n, p, a, b, start, y, work)
}
