// Lines of words in hex, as the programs read them.
#![tactic(auto)]

ghost use Rattle.std.specs.Prelude.{◌≡◌, ◌+◌, ◌<◌, length, take, drop, MatchOption};
ghost use Rattle.test_lines.specs.Line.{digit_of, with_digit_of, hex_at_of, line_length_of};

// What is no word: one more than the largest.
const NO_WORD: u64 = 1 << 32;

// The value of an upper-case hex digit, or 16.
#[tactic(auto, unfolding(crate::specs::Line::digit_of))]
pub fn digit(b: u8) -> u64
    ensures { result ≡ digit_of b }
{
    match b {
        b'0'..=b'9' => u64::from(b - b'0'),
        b'A'..=b'F' => u64::from(b - b'A') + 10,
        _ => 16,
    }
}

// The word whose 8 digits begin at `at`, or 2^32 where they are not all there.
#[tactic(auto, unfolding(crate::specs::Line::hex_at_of))]
pub fn hex_at(text: &[u8], at: usize) -> u64
    ensures { result ≡ hex_at_of text.now at }
{
    let Some(rest) = text.get(at..) else {
        return NO_WORD;
    };
    let Some(digits) = rest.get(..8) else {
        return NO_WORD;
    };
    let mut word = 0;
    for b in digits {
        word = with_digit(word, digit(*b));
    }
    word
}

// A digit more; 2^32 once a byte was none.
fn with_digit(word: u64, digit: u64) -> u64
    ensures { result ≡ with_digit_of word digit }
{
    if word < NO_WORD && digit < 16 {
        word * 16 + digit
    } else {
        NO_WORD
    }
}

// The bytes from `at` on before the first line feed, or all; none past the end.
#[tactic(auto, using(crate::proofs::LineLaws::line_past))]
pub fn line_length(text: &[u8], at: usize) -> usize
    ensures { result ≡ line_length_of (drop at text.now) }
{
    let Some(rest) = text.get(at..) else {
        return 0;
    };
    rest.iter().position(|b| *b == b'\n').unwrap_or(rest.len())
}

// The first line of a text, without its line feed, and what comes after it; none of an empty text.
#[tactic(auto, using(crate::proofs::LineLaws::line_first, std::proofs::lemmas::Grind::common_steps))]
pub fn first_line(text: &[u8]) -> Option<(&[u8], &[u8])>
    ensures { let n = line_length_of text.now in MatchOption result
        (length text.now ≡ 0)
        (λ parts. (0 < length text.now)
        × (parts.0.now ≡ take n text.now)
        × (parts.1.now ≡ drop (n + 1) text.now)) }
{
    if text.is_empty() {
        return None;
    }
    let n = line_length(text, 0);
    Some((&text[..n], text.get(n + 1..).unwrap_or(&[])))
}
