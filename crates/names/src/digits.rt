ghost use Rattle.std.specs.Prelude.{◌≡◌, ℕ, ◌+◌, ◌≤◌, length};
ghost use Rattle.std.proofs.Math.Seq.{paste};
ghost use Rattle.rules.specs.Names.{numeral};

use itoa::Buffer;

// Writes a number in decimal, from `at` on, and answers where it ends. The text is the host's table, so a place goes beside it, and no
// `String` is made.
#[tactic(auto, using(rules::proofs::Numerals::numeral_decimal, crate::proofs::Pasted::copied))]
pub fn write_decimal(text: &mut [u8], at: usize, n: u32) -> usize
    requires { at + length (numeral n) ≤ length text.old }
    ensures end { result ≡ at + length (numeral n) }
    ensures text { text.new ≡ paste text.old at (numeral n) (length (numeral n)) }
{
    let mut buffer = Buffer::new();
    let digits = buffer.format(n).as_bytes();
    let end = at + digits.len();
    text[at..end].copy_from_slice(digits);
    end
}
