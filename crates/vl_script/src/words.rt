ghost use Rattle.std.specs.Prelude.{◌≡◌, ℕ, List, ◌++◌, codes, IsTrue, ◌↔◌, IfSome, IfNone, IsSomeAnd};
ghost use Rattle.vl_script.specs.Script.{HasNoSpace, IsWord};

/// What follows a front of the text.
pub fn without_front<'a>(text: &'a [u8], front: &[u8]) -> Option<&'a [u8]>
    ensures some { IfSome result (λ rest. text.now ≡ front.now ++ rest.now) }
    ensures none { IfNone result ((rest : List ℕ) → text.now ≡ front.now ++ rest → ⊥) }
{
    text.strip_prefix(front)
}

/// Whether two texts are the same.
pub fn is_text(text: &[u8], wanted: &[u8]) -> bool
    ensures { IsTrue result ↔ (text.now ≡ wanted.now) }
{
    text == wanted
}

/// Whether a text is a word: it has a byte, and no space.
pub fn is_word(text: &[u8]) -> bool
    ensures { IsTrue result ↔ IsWord text.now }
{
    if text.is_empty() {
        return false;
    }
    for byte in text {
        if *byte == b' ' {
            return false;
        }
    }
    true
}

/// What stands before the first space, and what stands behind it.
pub fn cut_at_space(text: &[u8]) -> Option<(&[u8], &[u8])>
    ensures some { IfSome result (λ parts. text.now ≡ parts.0.now ++ (codes " " ++ parts.1.now)) }
    ensures first { IfSome result (λ parts. HasNoSpace parts.0.now) }
    ensures none { IfNone result ((front back : List ℕ) → text.now ≡ front ++ (codes " " ++ back) → ⊥) }
{
    for (at, byte) in text.iter().enumerate() {
        if *byte == b' ' {
            return Some((&text[..at], &text[at + 1..]));
        }
    }
    None
}

/// The first word behind a front, and all that follows the one space behind that word.
pub fn first_word<'a>(text: &'a [u8], front: &[u8]) -> Option<(&'a [u8], &'a [u8])>
    ensures some { IfSome result (λ parts. text.now ≡ front.now ++ (parts.0.now ++ (codes " " ++ parts.1.now))) }
    ensures word { IfSome result (λ parts. IsWord parts.0.now) }
    ensures only { (word rest : List ℕ) → IsWord word → text.now ≡ front.now ++ (word ++ (codes " " ++ rest))
        → IsSomeAnd result (λ parts. (parts.0.now ≡ word) × (parts.1.now ≡ rest)) }
{
    let Some(behind) = without_front(text, front) else {
        return None;
    };
    let Some((word, rest)) = cut_at_space(behind) else {
        return None;
    };
    if word.is_empty() {
        return None;
    }
    Some((word, rest))
}
