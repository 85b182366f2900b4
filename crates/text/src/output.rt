// Bytes and decimal numbers, written to the front of a slice.
ghost use Rattle.std.specs.Prelude.{◌≡◌, ℕ, ◌≤◌, ◌++◌, length, drop, decimal};
ghost use Rattle.text.specs.Output.{room, put, Written};

// How many bytes were written; none, and nothing is, where they are too many.
pub fn write_bytes(bytes: &[u8], out: &mut [u8]) -> Option<usize>
    ensures answer { result ≡ room bytes.now out.old }
    ensures after { out.new ≡ put bytes.now out.old }
{
    if bytes.len() > out.len() {
        return None;
    }
    out[0..bytes.len()].copy_from_slice(bytes);
    Some(bytes.len())
}

// How many digits of a number were written; none, and nothing is, where they are too many.
pub fn write_number<N: Into<u64>>(n: N, out: &mut [u8]) -> Option<usize>
    ensures { (k : ℕ) × N.converts n k × Written k out.old result out.new }
{
    let n = n.into();
    if digits(n) > out.len() {
        return None;
    }
    Some(put_digits(n, out))
}

// How many digits a number has.
fn digits(n: u64) -> usize
    ensures { result ≡ length (decimal n) }
{
    if n < 10 { 1 } else { digits(n / 10) + 1 }
}

fn put_digits(n: u64, out: &mut [u8]) -> usize
    requires { length (decimal n) ≤ length out.old }
    ensures count { result ≡ length (decimal n) }
    ensures after { out.new ≡ decimal n ++ drop (length (decimal n)) out.old }
{
    if n < 10 {
        out[0] = b'0' + n as u8;
        return 1;
    }
    let at = put_digits(n / 10, out);
    out[at] = b'0' + (n % 10) as u8;
    at + 1
}
