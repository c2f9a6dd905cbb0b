// Numbers and lines, put into a lent buffer. Each function takes the place where its text begins and gives the place behind it.
// A struct of the two, or slices from the place on, would be no plainer: each contract speaks of the whole buffer and of both places all the same. They were
// slower, too (in Rust a line takes a quarter longer with the struct).
ghost use Rattle.std.specs.Prelude.{◌+◌, ◌*◌, ◌/◌, ◌<◌, ◌≤◌, length};
ghost use Rattle.listing.specs.Text.{sign, decimal, field, line_of, lines_of, refusal_line, Puts};

use rules::codes;

// A number's decimal digits. No plainer: the crate `itoa` puts them into a buffer of its own, to be copied, and `write!` needs a writer over this one with
// a contract of its own. Both were slower, too.
// A digit is widened and narrowed by `as`, which is proved to lose nothing; `try_from` would ask what to put for a digit that is no byte.
#[tactic(auto, using(crate::proofs::Digits::decimal_last, crate::proofs::Digits::decimal_more, crate::proofs::Digits::decimal_longer, crate::proofs::Puts::puts_none, crate::proofs::Puts::puts_byte))]
fn put_digits(out: &mut [u8], at: usize, n: u64) -> usize
    requires { at + length (decimal n) ≤ length out.old }
    ensures { Puts out.old at (decimal n) out.new result }
{
    if n < 10 {
        out[at] = b'0' + n as u8;
        return at + 1;
    }
    let last = put_digits(&mut *out, at, n / 10);
    out[last] = b'0' + (n % 10) as u8;
    last + 1
}

// A minus in front of a negative number.
#[tactic(auto, using(crate::proofs::Digits::sign_some, crate::proofs::Digits::sign_none, crate::proofs::Puts::puts_none, crate::proofs::Puts::puts_byte))]
fn put_sign(out: &mut [u8], at: usize, n: i64) -> usize
    requires { at < length out.old }
    ensures { Puts out.old at (sign n) out.new result }
{
    if n < 0 {
        out[at] = b'-';
        return at + 1;
    }
    at
}

// A number, and the byte after it.
#[tactic(auto, using(crate::proofs::Digits::sign_short, crate::proofs::Digits::decimal_short))]
fn put_field(out: &mut [u8], at: usize, n: i64, after: u8) -> usize
    requires { at + 22 ≤ length out.old }
    ensures { Puts out.old at (field n after) out.new result }
{
    let first = put_sign(&mut *out, at, n);
    let end = put_digits(&mut *out, first, n.unsigned_abs());
    out[end] = after;
    end + 1
}

// The line of a call's answers: six, one space between, a line feed at the end.
#[tactic(auto, using(crate::proofs::Digits::field_short))]
fn put_line(out: &mut [u8], at: usize, call: &[i64; 6]) -> usize
    requires { at + 132 ≤ length out.old }
    ensures { Puts out.old at (line_of call.now) out.new result }
{
    let at = put_field(&mut *out, at, call[0], b' ');
    let at = put_field(&mut *out, at, call[1], b' ');
    let at = put_field(&mut *out, at, call[2], b' ');
    let at = put_field(&mut *out, at, call[3], b' ');
    let at = put_field(&mut *out, at, call[4], b' ');
    put_field(&mut *out, at, call[5], b'\n')
}

// The lines of the answers, from the front of the buffer on.
#[tactic(auto, using(crate::proofs::Puts::puts_none, crate::proofs::Digits::lines_short), unfolding(crate::specs::Text::lines_of))]
pub(crate) fn put_lines(out: &mut [u8], answers: &[i64]) -> usize
    requires { length answers.now / 6 * 132 ≤ length out.old }
    ensures { Puts out.old 0 (lines_of (length answers.now / 6) answers.now) out.new result }
{
    let (calls, _) = answers.as_chunks::<6>();
    let mut at = 0;
    for call in calls {
        at = put_line(&mut *out, at, call);
    }
    at
}

// A refusal's number alone on a line, or nothing for 0.
#[tactic(auto, using(crate::proofs::Digits::refusal_none, crate::proofs::Digits::refusal_some, crate::proofs::Puts::puts_none))]
pub(crate) fn put_refusal(out: &mut [u8], at: usize, code: i64) -> usize
    requires { at + 22 ≤ length out.old }
    ensures { Puts out.old at (refusal_line code) out.new result }
{
    if code == codes::FILE_RUN {
        return at;
    }
    put_field(&mut *out, at, code, b'\n')
}
