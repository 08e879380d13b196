// The solving program's work: a job sheet's text in, the result sheet or the line of the refusal out.
#![tactic(auto)]

ghost use Rattle.std.specs.Prelude.{[], ◌∷◌, ◌≤◌, length};
ghost use Rattle.job.specs.Refusal.{refusal_verdict};
ghost use Rattle.job.specs.Job.{buffers, words};
ghost use Rattle.job.specs.Outcome.{Outcome};
ghost use Rattle.refusal.specs.Checked.{job_of};
ghost use Rattle.result.specs.Write.{WriteOutcome};
ghost use Rattle.reply.specs.Reply.{printed_of, Replied};
ghost use Rattle.reply.specs.Steps.{Refuses, Callable, Told, Comes};

use job::{Header, Kind, Refusal};
use result::Places;

// The line of a refusal: `refused`, number, first place and second place, parted by tabs, and a line feed.
fn refuse(out: &mut [u8], refusal: Refusal) -> usize
    requires { 71 ≤ length out.old }
    ensures { Refuses (refusal_verdict refusal) out.old out.new result }
{
    let Places(number, first, second) = Places::from(refusal);
    let a = result::put_bytes(out, 0, b"refused");
    result::put_three(out, a, u64::from(number), first as u64, u64::from(second))
}

// Does a job: a system or an equation by halving, a basis by Newton.
fn solve(
    h: Header,
    one: &[u32],
    two: &[u32],
    three: &mut [u32],
    four: &mut [u32],
    work: &mut [u32],
) -> Result<(), Refusal>
    ensures { Outcome words
        (job_of h.kind h.r h.n h.p
        (buffers one.now two.now three.old four.old work.old))
        result
        (buffers one.now two.now three.new four.new work.new) }
{
    match h.kind {
        Kind::System => halving::system(h.r, h.n, h.p, one, two, three, four, work),
        Kind::Basis => newton::basis(h.r, h.n, h.p, one, two, three, four, work),
        Kind::Equation => equation::by_halving(h.r, h.n, h.p, one, two, three, four, work),
    }
}

// Writes the result sheet of a job: y in the fourth buffer, or Y and Z in the third and the fourth.
#[tactic(auto, unfolding(crate::specs::Reply::printed_of))]
fn write(h: Header, three: &[u32], four: &[u32], out: &mut [u8]) -> Result<usize, Refusal>
    ensures { WriteOutcome h (printed_of h.kind three.now four.now)
        out.old result out.new }
{
    match h.kind {
        Kind::System => result::write_system(h.r, h.n, h.p, four, out),
        Kind::Basis => result::write_basis(h.r, h.n, h.p, three, four, out),
        Kind::Equation => result::write_equation(h.r, h.n, h.p, four, out),
    }
}

// Does the job that stands in the rooms, and writes its result sheet.
fn answer_job(
    h: Header,
    one: &[u32],
    two: &[u32],
    three: &mut [u32],
    four: &mut [u32],
    work: &mut [u32],
    out: &mut [u8],
) -> Result<usize, Refusal>
    requires { Callable h one.now two.now three.old four.old work.old out.old }
    ensures { Comes (Told h (one.now ∷ two.now ∷ three.old ∷ []) out.old)
        result out.new }
{
    let [first, second, third, fourth, fifth] = refusal::lengths_of(h);
    let three = &mut three[..third];
    let four = &mut four[..fourth];
    solve(
        h,
        &one[..first],
        &two[..second],
        three,
        four,
        &mut work[..fifth],
    )?;
    write(h, three, four, out)
}

// Reads the text as a job sheet, and does its job.
fn answer(s: &[u8], out: &mut [u8; 65536]) -> Result<usize, Refusal>
    ensures { Comes (Replied s.now out.old) result out.new }
{
    let mut one = [0u32; 2048];
    let mut two = [0u32; 2048];
    let mut three = [0u32; 2048];
    let mut four = [0u32; 1024];
    let mut work = [0u32; 16384];
    let h = sheet::read_job(s, &mut one, &mut two, &mut three)?;
    answer_job(h, &one, &two, &mut three, &mut four, &mut work, out)
}

// Answers a text: what the solving program prints for it goes to the beginning of `out`, and so many bytes it has.
pub fn reply(s: &[u8], out: &mut [u8; 65536]) -> usize
    ensures { Replied s.now out.old out.new result }
{
    match answer(s, out) {
        Ok(length) => length,
        Err(refusal) => refuse(out, refusal),
    }
}
