// Text in a lent slice of bytes. Each function puts its text from place at on, as far as it fits, and answers the place after it.
// Not write!: it would need a Write of its own over the slice and a Display for each kind of number, and say no more.
#![tactic(auto)]

ghost use Rattle.std.specs.Prelude.{◌≡◌, replicate};
ghost use Rattle.slice_text.specs.Line.{line, with_byte, Puts};
ghost use Rattle.slice_text.specs.Numbers.{decimal_of, hex_of, right_of};

// A byte.
fn put_byte(out: &mut [u8], at: usize, x: u8) -> usize
    ensures { line out.new result ≡ with_byte x (line out.old at) }
{
    if at < out.len() {
        out[at] = x;
        return at + 1;
    }
    at
}

// The bytes of b.
pub fn put(out: &mut [u8], at: usize, b: &[u8]) -> usize
    ensures { Puts b.now (line out.old at) (line out.new result) }
{
    let mut to = at;
    for x in b {
        to = put_byte(out, to, *x);
    }
    to
}

// A number in decimal.
pub fn put_decimal(out: &mut [u8], at: usize, n: u64) -> usize
    ensures { Puts (decimal_of n) (line out.old at) (line out.new result) }
{
    let mut digits = [0u8; 20];
    let k = io::decimal(n, &mut digits);
    put(out, at, &digits[..k])
}

// A number by 16 hexadecimal digits.
pub fn put_hex(out: &mut [u8], at: usize, n: u64) -> usize
    ensures { Puts (hex_of n) (line out.old at) (line out.new result) }
{
    let mut digits = [0u8; 16];
    let k = io::hex(n, 16, &mut digits);
    put(out, at, &digits[..k])
}

// So many spaces. Over an iterator of bytes, for this and put together, a contract would have to say what an iterator gives, for one line less.
fn put_spaces(out: &mut [u8], at: usize, n: usize) -> usize
    ensures { Puts (replicate n 32) (line out.old at) (line out.new result) }
{
    let mut to = at;
    for _ in 0..n {
        to = put_byte(out, to, b' ');
    }
    to
}

// The bytes of b at the right end of a field of so many places, after spaces.
pub fn put_right(out: &mut [u8], at: usize, width: usize, b: &[u8]) -> usize
    ensures { Puts (right_of width b.now) (line out.old at) (line out.new result) }
{
    if width < b.len() {
        return put(out, at, b);
    }
    let to = put_spaces(out, at, width - b.len());
    put(out, to, b)
}
