//! The words of a line.

ghost use Rattle.std.specs.Prelude.{◌≡◌, ◌≢◌, ◌∷◌, [], ◌<◌, ◌≤◌, ℕ, MatchOption, MatchResult, length, slice_index};
ghost use Rattle.jfs_script.specs.Lines.{after_spaces, words_of};

use jfs_bits::Rule;

/// What stands behind the spaces at the front.
pub fn after_spaces(text: &[u8]) -> &[u8]
    ensures rest { result.now ≡ after_spaces text.now }
    ensures front { 0 < length result.now → slice_index result.now 0 ≢ 32 }
{
    let mut rest = text;
    while let Some((first, after)) = rest.split_first() {
        if *first != b' ' {
            return rest;
        }
        rest = after;
    }
    rest
}

/// The first word, and what stands behind it.
pub fn next_word(text: &[u8]) -> Option<(&[u8], &[u8])>
    ensures { MatchOption result (words_of text.now ≡ []) (λ parts. words_of text.now ≡ parts.0.now ∷ words_of parts.1.now) }
{
    let rest = after_spaces(text);
    if rest.is_empty() {
        return None;
    }
    let end = word_end(rest);
    Some((&rest[..end], &rest[end..]))
}

/// Where the word that stands at the front ends.
fn word_end(text: &[u8]) -> usize
    ensures within { result ≤ length text.now }
    ensures word { (k : ℕ) → k < result → slice_index text.now k ≢ 32 }
    ensures end { result < length text.now → slice_index text.now result ≡ 32 }
{
    for (i, byte) in text.iter().enumerate() {
        if *byte == b' ' {
            return i;
        }
    }
    text.len()
}

/// There is no word.
pub fn no_words(text: &[u8]) -> Result<(), Rule>
    ensures { MatchResult result (λ _. words_of text.now ≡ []) (λ rule. (rule ≡ Rule.Count) × (length (words_of text.now) ≢ 0)) }
{
    match next_word(text) {
        None => Ok(()),
        Some(_) => Err(Rule::Count),
    }
}

/// The only word.
pub fn one_word(text: &[u8]) -> Result<&[u8], Rule>
    ensures { MatchResult result (λ word. words_of text.now ≡ word.now ∷ []) (λ rule. (rule ≡ Rule.Count) × (length (words_of text.now) ≢ 1)) }
{
    let Some((word, rest)) = next_word(text) else {
        return Err(Rule::Count);
    };
    no_words(rest)?;
    Ok(word)
}

/// The only two words.
pub fn two_words(text: &[u8]) -> Result<(&[u8], &[u8]), Rule>
    ensures { MatchResult result (λ words. words_of text.now ≡ words.0.now ∷ words.1.now ∷ []) (λ rule. (rule ≡ Rule.Count) × (length (words_of text.now) ≢ 2)) }
{
    let Some((first, rest)) = next_word(text) else {
        return Err(Rule::Count);
    };
    let second = one_word(rest)?;
    Ok((first, second))
}

/// The only three words.
pub fn three_words(text: &[u8]) -> Result<(&[u8], &[u8], &[u8]), Rule>
    ensures { MatchResult result (λ words. words_of text.now ≡ words.0.now ∷ words.1.now ∷ words.2.now ∷ []) (λ rule. (rule ≡ Rule.Count) × (length (words_of text.now) ≢ 3)) }
{
    let Some((first, rest)) = next_word(text) else {
        return Err(Rule::Count);
    };
    let (second, third) = two_words(rest)?;
    Ok((first, second, third))
}

/// The only four words.
pub fn four_words(text: &[u8]) -> Result<(&[u8], &[u8], &[u8], &[u8]), Rule>
    ensures { MatchResult result (λ words. words_of text.now ≡ words.0.now ∷ words.1.now ∷ words.2.now ∷ words.3.now ∷ []) (λ rule. (rule ≡ Rule.Count) × (length (words_of text.now) ≢ 4)) }
{
    let Some((first, rest)) = next_word(text) else {
        return Err(Rule::Count);
    };
    let (second, third, fourth) = three_words(rest)?;
    Ok((first, second, third, fourth))
}
