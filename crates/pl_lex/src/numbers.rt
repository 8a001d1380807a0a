//! The number that digits spell.

ghost use Rattle.std.specs.Prelude.{◌≡◌, ◌<◌, ◌≤◌, IfSome, IfNone, true};
ghost use Rattle.std.specs.Char.{is_ascii_digit};
ghost use Rattle.pl_lex.specs.Characters as class;
ghost use Rattle.pl_lex.specs.Spellings as spelling;

/// The greatest number that is read: 2 to the 63rd, which behind a minus is the least `bigint`.
pub const GREATEST: u64 = 9223372036854775808;

/// The number that the digits spell. None where it is greater than `GREATEST`.
#[tactic(auto, using(crate::proofs::Digits::grows))]
pub fn number(digits: &[u8]) -> Option<u64>
    requires { class.every is_ascii_digit digits.now ≡ true }
    ensures found { IfSome result (λ n. n ≡ spelling.number digits.now) }
    ensures within { IfSome result (λ n. n ≤ 9223372036854775808) }
    ensures greater { IfNone result (9223372036854775808 < spelling.number digits.now) }
{
    let mut number: u64 = 0;
    for b in digits {
        if number > GREATEST / 10 {
            return None;
        }
        number = number * 10 + (*b - b'0') as u64;
    }
    if number > GREATEST {
        return None;
    }
    Some(number)
}
