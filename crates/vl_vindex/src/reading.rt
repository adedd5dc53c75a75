ghost use Rattle.std.specs.Prelude.{◌≡◌, ◌≢◌, ◌+◌, ◌%◌, ◌<◌, ◌≤◌, ◌⊎◌, ◌↔◌, IsTrue, IfOk, IfErr, codes, false, length, slice_index, take, drop};
ghost use Rattle.std.specs.List.{AllPass};
ghost use Rattle.hex.specs.Hex.{is_hex_digit};
ghost use Rattle.vl_vindex.specs.KeyRange.{IsOutside};
ghost use Rattle.vl_vindex.specs.Reading.{IsDash, IsRun};

use crate::bad_range::BadRange;

// The most digits that a side has.
const MOST_DIGITS: usize = 32;

fn is_digit(byte: u8) -> bool
    ensures { result ≡ is_hex_digit byte }
{
    matches!(byte, b'0'..=b'9' | b'a'..=b'f' | b'A'..=b'F')
}

// Whether the text is `0`, the other name of the range of all keyspace ids.
pub(crate) fn is_whole(text: &[u8]) -> bool
    ensures { IsTrue result ↔ (text.now ≡ codes "0") }
{
    matches!(text, [b'0'])
}

// How many digits the text begins with, up to the most that a side has.
fn digit_run(text: &[u8]) -> usize
    ensures { IsRun text.now result }
{
    for (i, byte) in text.iter().enumerate() {
        if i == MOST_DIGITS || !is_digit(*byte) {
            return i;
        }
    }
    text.len()
}

// The place of the `-` of a text in the grammar, other than `0`.
pub(crate) fn dash_place(text: &[u8]) -> Result<usize, BadRange>
    requires { text.now ≢ codes "0" }
    ensures sides { IfOk result (IsDash text.now) }
    ensures outside { IfErr result (λ bad. IsOutside text.now bad.at) }
{
    let dash = digit_run(text);
    if dash % 2 != 0 || dash == text.len() || text[dash] != b'-' {
        return Err(BadRange { at: dash });
    }
    let rest = &text[dash + 1..];
    let digits = digit_run(rest);
    if digits % 2 != 0 || digits != rest.len() {
        return Err(BadRange {
            at: dash + 1 + digits,
        });
    }
    Ok(dash)
}
