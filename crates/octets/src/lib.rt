// Buffers of bytes, four to a word, low byte first: read as words, written from words, cleared, measured.
#![tactic(auto)]

ghost use Rattle.std.specs.Prelude.{◌≡◌, ◌+◌, ◌*◌, ◌≤◌, length};
ghost use Rattle.prime.specs.Test.{Decides};
ghost use Rattle.room.specs.Room.{Zeros};
ghost use Rattle.octets.specs.Octets.{Carries, WordPut, Encoded, Small, Fitting};

use job::Header;

// Reads the words of s into w.
pub fn decode(s: &[u8], w: &mut [u32])
    requires { length s.now ≡ 4 * length w.old }
    ensures { Carries s.now w.new }
{
    for k in 0..w.len() {
        w[k] = refusal::word_at(s, k);
    }
}

// Writes the word at k of s.
fn put_word(s: &mut [u8], k: usize, x: u32)
    requires { 4 * k + 4 ≤ length s.old }
    ensures { WordPut k x s.old s.new }
{
    s[4 * k] = (x % 256) as u8;
    s[4 * k + 1] = (x / 256 % 256) as u8;
    s[4 * k + 2] = (x / 65536 % 256) as u8;
    s[4 * k + 3] = (x / 16777216) as u8;
}

// Writes the words of w into s.
pub fn encode(w: &[u32], s: &mut [u8])
    requires { length s.old ≡ 4 * length w.now }
    ensures { Encoded w.now s.new }
{
    for j in 0..w.len() {
        put_word(s, j, w[j]);
    }
}

// Puts 0 into every byte. One for words and bytes, with room's, would be no plainer than this line.
pub fn clear(s: &mut [u8])
    ensures { Zeros s.new }
{
    s.fill(0);
}

// Is a job of this order and this number of terms no larger than a byte job may be?
fn is_small(r: u64, n: u64) -> bool
    ensures { Decides result (Small r n) }
{
    1 <= r && r <= 8 && 1 <= n && n <= 1024 && r * r * n <= 1024
}

// Is it such a job, and have its buffers just the bytes that it needs?
pub fn fits(h: Header, lengths: [usize; 5]) -> bool
    ensures { Decides result (Fitting h.kind h.r h.n lengths) }
{
    if !is_small(h.r, h.n) {
        return false;
    }
    let should = refusal::lengths_of(h);
    for b in 0..5 {
        if lengths[b] != 4 * should[b] {
            return false;
        }
    }
    true
}
