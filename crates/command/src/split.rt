// A text, split behind its first word.
ghost use Rattle.command.specs.Spaces.{Begins, Unspaced, longest, spaced};
ghost use Rattle.std.specs.Prelude.{◌≡◌, ℕ, ◌≤◌, List, MatchOption, length, ◌≢◌};

use super::word::Word;

// No word before a space is longer than `describe`, so a space is looked for no further: a text that
// begins with no such word is told at once, however long it is.
const LONGEST: usize = 8;

// The first word, if it is no longer than one can be, and what stands behind its space.
pub(crate) fn split_word(text: &[u8]) -> Option<(&[u8], &[u8])>
    ensures { MatchOption result
        ((word rest : List ℕ) → length word ≤ longest → text.now ≢ spaced word rest)
        (λ p. Unspaced p.0.now × (text.now ≡ spaced p.0.now p.1.now)) }
{
    let end = text
        .iter()
        .take(LONGEST + 1)
        .position(|code| *code == b' ')?;
    Some((&text[..end], &text[end + 1..]))
}

// The value of the first word, and what stands behind its space.
pub(crate) fn first<W: Word>(text: &[u8]) -> Option<(W, &[u8])>
    ensures { MatchOption result
        ((x : W) (word rest : List ℕ) → W.spells x word → text.now ≢ spaced word rest)
        (λ p. Begins W.spells p.0 p.1.now text.now) }
{
    let (word, rest) = split_word(text)?;
    Some((W::from_word(word)?, rest))
}
