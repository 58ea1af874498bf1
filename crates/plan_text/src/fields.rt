// Text cut into pieces, and a field read as a value.
ghost use Rattle.std.specs.Prelude.{◌≡◌, ◌<◌, ◌==◌, [], ◌∷◌, length, position};
ghost use Rattle.std.specs.Prelude.{IfSome, MatchOption};
ghost use Rattle.plan_text.specs.Fields.{pieces, shaped, value};

// The most digits of a value.
const MOST_DIGITS: usize = 7;

// Where the first `separator` stands.
fn first_place(text: &[u8], separator: u8) -> Option<usize>
    ensures is_the_first { result ≡ position (λ b. b == separator) text.now }
{
    text.iter().position(|byte| *byte == separator)
}

// What stands before the first `separator`, and what follows it.
pub fn cut(text: &[u8], separator: u8) -> Option<(&[u8], &[u8])>
    ensures first_piece_and_rest { MatchOption result
        (pieces separator text.now ≡ text.now ∷ [])
        (λ p. pieces separator text.now ≡ p.0.now ∷ pieces separator p.1.now) }
    ensures rest_is_shorter { IfSome result (λ p. length p.1.now < length text.now) }
{
    let end = first_place(text, separator)?;
    Some((&text[..end], &text[end + 1..]))
}

// Whether there are 1 to 7 bytes, of which the first is no 0 unless it is alone.
fn is_shaped(field: &[u8]) -> bool
    ensures is_shaped { result ≡ shaped field.now }
{
    (1..=MOST_DIGITS).contains(&field.len()) && (field.len() == 1 || field[0] != b'0')
}

// The value of a field, if it is one.
pub fn value_of(field: &[u8]) -> Option<u32>
    ensures is_its_value { result ≡ value field.now }
{
    if !is_shaped(field) {
        return None;
    }
    field.iter().try_fold(0, |n, byte| {
        byte.is_ascii_digit()
            .then(|| n * 10 + u32::from(*byte - b'0'))
    })
}
