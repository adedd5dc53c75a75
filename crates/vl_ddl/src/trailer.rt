ghost use Rattle.std.specs.Prelude.{◌≡◌, ◌+◌, ◌<◌, ◌^◌, false, length};
ghost use Rattle.vl_token.specs.View.{tok, tokens_of};
ghost use Rattle.vl_grammar.specs.Reading.{Gives};
ghost use Rattle.vl_ddl.specs.Reading as reading;
ghost use Rattle.vl_ddl.specs.Words as words;
ghost use Rattle.vl_ddl.specs.Step.{IsStep};

use crate::columns::from_first;
use crate::step::Step;
use vl_grammar::{ReadError, is_mark};
use vl_token::{Token, Tokens};

fn is_option(token: &Token) -> bool
    ensures { result ≡ words.is_option (tok token.now) }
{
    match token {
        Token::Word(_) | Token::Quoted(_) | Token::Text(_, _) | Token::Number(_, _) => true,
        Token::Mark(byte) => {
            *byte == b'=' || *byte == b',' || *byte == b'.' || *byte == b'+' || *byte == b'-'
        }
        _ => false,
    }
}

// What the first token does, with so many brackets open.
#[tactic(auto, unfolding(crate::specs::Reading::trailer_at))]
fn step<'a>(depth: usize, tokens: Tokens<'a>) -> Step<'a>
    requires { depth + length tokens.now < 2 ^ 64 }
    ensures { IsStep depth (tokens_of tokens.now) result }
{
    match tokens {
        [] => Step::Wrong,
        [token, rest @ ..] => {
            if is_mark(b'(', token) {
                return Step::Goes(depth + 1, rest);
            }
            if is_mark(b')', token) {
                if depth == 0 {
                    return Step::Wrong;
                }
                return Step::Goes(depth - 1, rest);
            }
            if is_option(token) {
                return Step::Goes(depth, rest);
            }
            if depth == 0 && is_mark(b';', token) {
                return Step::Ends(rest);
            }
            Step::Wrong
        }
    }
}

/// `[options] ;`, and whether there are options. A count of the brackets that are open stands for
/// their nesting.
pub fn trailer(tokens: Tokens<'_>) -> Result<(bool, Tokens<'_>), ReadError>
    ensures { Gives (λ x. (x.0, tokens_of x.1.now)) result (reading.trailer_at 0 false (tokens_of tokens.now)) }
{
    let mut depth = 0;
    let mut some = false;
    let Some(mut rest) = from_first(tokens) else {
        return Err(ReadError::Fault(tokens.len()));
    };
    for _ in 0..tokens.len() {
        match step(depth, rest) {
            Step::Wrong => return Err(ReadError::Fault(rest.len())),
            Step::Ends(behind) => return Ok((some, behind)),
            Step::Goes(next, behind) => {
                depth = next;
                some = true;
                rest = behind;
            }
        }
    }
    Err(ReadError::Fault(rest.len()))
}
