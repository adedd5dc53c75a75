ghost use Rattle.std.specs.Prelude.{◌≡◌, ◌++◌, take};
ghost use Rattle.std.specs.Fmt.{decimal};
ghost use Rattle.vl_values.specs.LostWhy.{why_text};
ghost use Rattle.vl_values.specs.Piece.{piece_text, pieces_text};

use crate::error_text::ErrorText;
use crate::lost_why::LostWhy;

/// A part of an error text.
#[derive(Clone, Copy)]
pub enum Piece<'a> {
    Text(&'a [u8]),
    Number(u64),
    Why(LostWhy),
}

fn push_number(text: &mut ErrorText, n: u64)
    ensures { text.new ≡ take 512 (text.old ++ decimal n) }
{
    let mut buffer = itoa::Buffer::new();
    text.push(buffer.format(n).as_bytes());
}

fn push_why(text: &mut ErrorText, why: LostWhy)
    ensures { text.new ≡ take 512 (text.old ++ why_text why) }
{
    match why {
        LostWhy::Link => text.push(b"link"),
        LostWhy::Restarted { had, current } => {
            text.push(b"restarted ");
            push_number(text, had);
            text.push(b" ");
            push_number(text, current);
        }
        LostWhy::Dropped => text.push(b"dropped"),
    }
}

fn push_piece(text: &mut ErrorText, piece: &Piece<'_>)
    ensures { text.new ≡ take 512 (text.old ++ piece_text piece.now) }
{
    match piece {
        Piece::Text(bytes) => text.push(bytes),
        Piece::Number(n) => push_number(text, *n),
        Piece::Why(why) => push_why(text, *why),
    }
}

/// The text of these parts, one after another, cut after 512 bytes.
pub fn joined(pieces: &[Piece<'_>]) -> ErrorText
    ensures { result ≡ take 512 (pieces_text pieces.now) }
{
    let mut text = ErrorText::new();
    for piece in pieces {
        push_piece(&mut text, piece);
    }
    text
}
