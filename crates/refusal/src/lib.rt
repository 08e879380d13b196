// The checks that every call on buffers makes first: document 01's refusals 1 to 6, and for bytes 10 behind 4.
// Nothing is read before all lengths are known to be right.
#![tactic(auto)]

ghost use Rattle.std.specs.Prelude.{◌≡◌, refl, List, ℕ, ◌++◌, ◌+◌, ◌*◌, ◌≤◌, ◌<◌, length};
ghost use Rattle.job.specs.Job.{buffers, Handed, words, bytes, cells_of, word_at};
ghost use Rattle.job.specs.Rules.{limit_rules, size_rules, word_rules};
ghost use Rattle.refusal.specs.Checked.{Judged, job_of, Checked, Bounded, Measured, Compared, Readable};

use job::{Header, Kind, Refusal};

// Refusals 1 to 4: order, terms, modulus, terms over the modulus. Three numbers and no header: no kind has a say here.
pub fn check_limits(r: u64, n: u64, p: u64) -> Result<(), Refusal>
    ensures { Judged (limit_rules r n p) result }
{
    if !(1..=8).contains(&r) {
        return Err(Refusal::Order);
    }
    if !(1..=4096).contains(&n) {
        return Err(Refusal::Terms);
    }
    if !(2..=2147483647).contains(&p) || !prime::is_prime(p) {
        return Err(Refusal::Modulus);
    }
    if p < n {
        return Err(Refusal::TermsOverModulus);
    }
    Ok(())
}

// Refusals 1 to 4, and behind them 10: more than a byte job may have.
pub fn check_small(r: u64, n: u64, p: u64) -> Result<(), Refusal>
    ensures { Judged (limit_rules r n p ++ size_rules bytes r n) result }
{
    check_limits(r, n, p)?;
    if 1024 < r * r * n {
        return Err(Refusal::Large);
    }
    Ok(())
}

// The words of each buffer, by number.
pub fn lengths_of(h: Header) -> [usize; 5]
    requires { (h.r ≤ 8) × (h.n ≤ 4096) }
    ensures { Measured h.kind h.r h.n result }
{
    let r = h.r as usize;
    let n = h.n as usize;
    let square = r * r;
    let matrix = square * n;
    let vector = r * n;
    let room = 16 * matrix;
    match h.kind {
        Kind::System => [matrix, vector, r, vector, room],
        Kind::Basis => [matrix, square, matrix, matrix, room],
        Kind::Equation => [(r + 1) * n, n, r, n, room],
    }
}

// Refusal 5, of buffers whose words have so many cells: the lengths that should be, and those that are.
pub fn check_lengths<const N: usize>(
    cells: usize,
    should: [usize; N],
    are: [usize; N],
) -> Result<(), Refusal>
    requires { (N < 256) × (cells ≤ 4) × Bounded should }
    ensures { Compared cells should.entry are.entry result }
{
    for i in 0..N {
        if are[i] != cells * should[i] {
            return Err(Refusal::Length {
                buffer: i as u8 + 1,
            });
        }
    }
    Ok(())
}

// The word at k of a buffer of bytes.
pub fn word_at(s: &[u8], k: usize) -> u32
    requires { 4 * k + 4 ≤ length s.now }
    ensures { result ≡ word_at bytes s.now k }
{
    let at = 4 * k;
    u32::from_le_bytes([s[at], s[at + 1], s[at + 2], s[at + 3]])
}

// What a buffer holds, handed over as words, or as bytes, four to a word, low byte first.
pub trait Cell {
    ghost handed: { Handed };

    // A buffer's cells as numbers.
    ghost seen: { List Self → List ℕ };

    ghost CELLS: { ℕ };

    // The cells of a word.
    const CELLS: usize;

    // Refusals 1 to 4, and for bytes 10 behind them.
    fn check_size(r: u64, n: u64, p: u64) -> Result<(), Refusal>
        ensures { Judged (limit_rules r n p ++ size_rules handed r n) result };

    // The word at k of a buffer.
    fn word_at(s: &[Self], k: usize) -> u32
        requires { cells_of handed * k + cells_of handed ≤ length s.now }
        ensures { result ≡ word_at handed (seen s.now) k };

    ghost laws: { (CELLS ≡ cells_of handed) × ((s : List Self) → length (seen s) ≡ length s) };
}

impl Cell for u32 {
    ghost handed = { words };

    ghost seen = { λ s. s };

    ghost CELLS = { 1 };

    ghost laws = { (refl, λ s. refl) };

    const CELLS: usize = 1;

    fn check_size(r: u64, n: u64, p: u64) -> Result<(), Refusal> {
        check_limits(r, n, p)
    }

    fn word_at(s: &[u32], k: usize) -> u32 {
        s[k]
    }
}

impl Cell for u8 {
    ghost handed = { bytes };

    ghost seen = { λ s. s };

    ghost CELLS = { 4 };

    ghost laws = { (refl, λ s. refl) };

    const CELLS: usize = 4;

    fn check_size(r: u64, n: u64, p: u64) -> Result<(), Refusal> {
        check_small(r, n, p)
    }

    fn word_at(s: &[u8], k: usize) -> u32 {
        word_at(s, k)
    }
}

// Refusal 6, in the buffer with the number b, of which count words are read.
pub fn check_buffer<C: Cell>(p: u32, b: u8, s: &[C], count: usize) -> Result<(), Refusal>
    requires { Readable C.handed count (C.seen s.now) }
    ensures { Judged (word_rules C.handed p b (C.seen s.now) 0 count) result }
{
    for k in 0..count {
        if C::word_at(s, k) >= p {
            return Err(Refusal::Word {
                buffer: b,
                index: k as u32,
            });
        }
    }
    Ok(())
}

// Refusals 1 to 6, for bytes with 10 behind 4.
fn check<C: Cell>(
    h: Header,
    one: &[C],
    two: &[C],
    three: &[C],
    four: &[C],
    five: &[C],
) -> Result<(), Refusal>
    ensures { Checked C.handed
        (job_of h.kind h.r h.n h.p
        (buffers (C.seen one.now) (C.seen two.now) (C.seen three.now) (C.seen four.now) (C.seen five.now)))
        result }
{
    C::check_size(h.r, h.n, h.p)?;
    let should = lengths_of(h);
    let are = [one.len(), two.len(), three.len(), four.len(), five.len()];
    check_lengths(C::CELLS, should, are)?;
    let q = h.p as u32;
    check_buffer(q, 1, one, should[0])?;
    check_buffer(q, 2, two, should[1])?;
    match h.kind {
        Kind::Basis => Ok(()),
        Kind::System | Kind::Equation => check_buffer(q, 3, three, should[2]),
    }
}

// Refusals 1 to 6, on words.
pub fn check_words(
    h: Header,
    one: &[u32],
    two: &[u32],
    three: &[u32],
    four: &[u32],
    five: &[u32],
) -> Result<(), Refusal>
    ensures { Checked words
        (job_of h.kind h.r h.n h.p
        (buffers one.now two.now three.now four.now five.now))
        result }
{
    check(h, one, two, three, four, five)
}

// Refusals 1 to 6, on bytes, with 10 behind 4.
pub fn check_bytes(
    h: Header,
    one: &[u8],
    two: &[u8],
    three: &[u8],
    four: &[u8],
    five: &[u8],
) -> Result<(), Refusal>
    ensures { Checked bytes
        (job_of h.kind h.r h.n h.p
        (buffers one.now two.now three.now four.now five.now))
        result }
{
    check(h, one, two, three, four, five)
}
