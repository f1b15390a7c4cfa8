//! Words of a line, of which each asks something and says behind ` = ` what is answered.

ghost use Rattle.std.specs.Prelude.{◌≡◌, ◌<◌, ◌≤◌, ◌⊎◌, ◌^◌, ◌++◌, ◌==◌, [], length, codes, ℕ};
ghost use Rattle.std.specs.List.{before_first, after_first};
ghost use Rattle.std.specs.Str.Parse.{IsNumeral, digits_value, without_leading_plus};
ghost use Rattle.std.specs.Str.Pattern.{LacksTextAt};

/// The number, or 0 where there is none below 2^64.
pub fn number(word: &str) -> u64
    ensures given { IsNumeral 10 (without_leading_plus word.now) → digits_value 10 (without_leading_plus word.now) < 2 ^ 64 → result ≡ digits_value 10 (without_leading_plus word.now) }
    ensures none { (IsNumeral 10 (without_leading_plus word.now) × (digits_value 10 (without_leading_plus word.now) < 2 ^ 64) → ⊥) → result ≡ 0 }
{
    word.parse::<u64>().unwrap_or(0)
}

/// The first word and the rest.
pub fn split_word(words: &str) -> (&str, &str)
    ensures word { result.0.now ≡ before_first (λ it. it == 32) words.now }
    ensures rest { result.1.now ≡ after_first (λ it. it == 32) words.now }
{
    words.split_once(' ').unwrap_or((words, ""))
}

/// What is asked, and what is to be answered.
pub fn split_line(line: &str) -> (&str, &str)
    ensures first { (at : ℕ) → at < length result.0.now → LacksTextAt (codes " = ") line.now at }
    ensures parts { (line.now ≡ result.0.now ++ codes " = " ++ result.1.now)
        ⊎ ((result.0.now ≡ line.now) × (result.1.now ≡ [])
        × ((at : ℕ) → at ≤ length line.now → LacksTextAt (codes " = ") line.now at)) }
{
    line.split_once(" = ").unwrap_or((line, ""))
}
