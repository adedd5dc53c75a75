ghost use Rattle.std.specs.Prelude.{◌≡◌, reverse};
ghost use Rattle.vl_vschema.specs.Vschema.{drop_spaces, trimmed as trimmed_text};

fn without_leading(text: &[u8]) -> &[u8]
    ensures { result.now ≡ drop_spaces text.now }
{
    for (i, byte) in text.iter().enumerate() {
        if *byte != b' ' {
            return &text[i..];
        }
    }
    &text[text.len()..]
}

fn without_trailing(text: &[u8]) -> &[u8]
    ensures { result.now ≡ reverse (drop_spaces (reverse text.now)) }
{
    let mut rest = text;
    while let Some((last, front)) = rest.split_last() {
        if *last != b' ' {
            return rest;
        }
        rest = front;
    }
    rest
}

/// A text without the spaces at both ends.
pub(crate) fn trimmed(text: &[u8]) -> &[u8]
    ensures { result.now ≡ trimmed_text text.now }
{
    without_trailing(without_leading(text))
}
