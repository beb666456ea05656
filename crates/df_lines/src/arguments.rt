// The words after a line's name: a body, a number and a body, a request.
ghost use Rattle.std.specs.Prelude.{◌≤◌, ◌*◌, List, ℕ, length, take, IfSome, IfNone};
ghost use Rattle.df_lines.specs.Grammar.{AreRequest, AreSized, IsBody};

use crate::number::{number_of, u128_of};
use crate::words::cut;
use hex::decode_to_slice;

/// Puts the bytes that a body's word stands for at the front of `body`, and says how many they are: `-` stands for none, else two
/// hexadecimal digits of either case for each. None where the word stands for no bytes; `body` then holds any.
pub fn decode(word: &[u8], body: &mut [u8]) -> Option<u64>
    requires { length word.now ≤ 2 * length body.old }
    ensures found { IfSome result (λ n. IsBody word.now (take n body.new)) }
    ensures none { IfNone result ((bytes : List ℕ) → IsBody word.now bytes → ⊥) }
    ensures size { IfSome result (λ n. n ≤ length body.new) }
{
    match word {
        [] => None,
        b"-" => Some(0),
        _ => {
            let length = word.len() / 2;
            decode_to_slice(word, &mut body[..length]).ok()?;
            Some(length as u64)
        }
    }
}

/// The number that stands before a body, with the decoded body at the front of `body`, and how many bytes that has. None where
/// the words are no number up to `most` and a body.
pub fn sized(words: &[u8], body: &mut [u8], most: u128) -> Option<(u128, u64)>
    requires { length words.now ≤ 2 * length body.old }
    ensures found { IfSome result (λ r. AreSized words.now most r.0 (take r.1 body.new)) }
    ensures none { IfNone result ((n : ℕ) (bytes : List ℕ) → AreSized words.now most n bytes → ⊥) }
    ensures size { IfSome result (λ r. (r.0 ≤ most) × (r.1 ≤ length body.new)) }
{
    let (number, word) = cut(words)?;
    let number = number_of(number, most)?;
    let length = decode(word, body)?;
    Some((number, length))
}

/// The client and the number of the request that these words ask for, with its decoded body at the front of `body`, and how many bytes
/// that has.
pub(crate) fn request(words: &[u8], body: &mut [u8]) -> Option<(u128, u64, u64)>
    requires { length words.now ≤ 2 * length body.old }
    ensures found { IfSome result (λ r. AreRequest words.now r.0 r.1 (take r.2 body.new)) }
    ensures none { IfNone result ((client request : ℕ) (bytes : List ℕ) →
        AreRequest words.now client request bytes → ⊥) }
    ensures size { IfSome result (λ r. r.2 ≤ length body.new) }
{
    let (client, words) = cut(words)?;
    let client = u128_of(client)?;
    let (request, length) = sized(words, body, u64::MAX.into())?;
    Some((client, request as u64, length))
}
