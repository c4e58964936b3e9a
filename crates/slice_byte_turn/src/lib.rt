// 32-bit numbers in bytes, written or turned round so that the first number stands last.
#![tactic(auto)]

ghost use Rattle.std.specs.Prelude.{◌≡◌, ◌++◌, map, reverse, ◌+◌, ◌-◌, ◌*◌, ◌/◌, ◌≤◌, length, take};
ghost use Rattle.slice_byte_lists.specs.Lists.{words_of, bytes_of_words};
ghost use Rattle.slice_byte_turn.specs.Turn.{Raised, ZeroBefore, exchanged};

use slice_bytes::{put_word, word_at};

// Writes the numbers of v, each raised by base, as 32-bit numbers from the end of b towards its start: the first number stands last.
pub fn put_words_back(v: &[u32], base: u32, b: &mut [u8])
    requires { Raised v.now base b.old }
    ensures { b.new
        ≡ take (length b.old - 4 * length v.now) b.old ++ bytes_of_words (reverse (map (λ i. i + base) v.now)) }
{
    let mut at = b.len();
    for x in v {
        at -= 4;
        put_word(b, at, *x + base);
    }
}

// Exchanges numbers i and j of b.
fn exchange(b: &mut [u8], i: usize, j: usize)
    requires { (4 * i + 4 ≤ length b.old) × (4 * j + 4 ≤ length b.old) }
    ensures { b.new ≡ exchanged b.old i j }
{
    let x = word_at(b, 4 * i);
    let y = word_at(b, 4 * j);
    put_word(b, 4 * i, y);
    put_word(b, 4 * j, x);
}

// Turns the order of the 32-bit numbers of b round; all but the last n of them are zero, and so stay untouched where they need not move.
pub fn turn_words(b: &mut [u8], n: usize)
    requires { ZeroBefore b.old n }
    ensures { b.new ≡ bytes_of_words (reverse (words_of (length b.old / 4) b.old)) }
{
    let m = b.len() / 4;
    for i in 0..n.min(m / 2) {
        exchange(b, i, m - 1 - i);
    }
}
