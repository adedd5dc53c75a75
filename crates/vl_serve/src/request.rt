use std::alloc::{AllocError, Global};
use vl_insert_text::statement_of;
use vl_sql::stmt::Stmt;

/// What the payload of a packet asks.
#[derive(Debug, Drop)]
pub enum Request {
    /// To end the connection.
    Quit,
    /// To run a statement.
    Run(Stmt),
    /// To run a text that is no statement.
    NoStatement,
    /// What no command that is served asks.
    Unknown,
}

const QUIT: u8 = 0x01;

const QUERY: u8 = 0x03;

impl Request {
    ghost use Rattle.std.specs.Prelude.{◌∷◌, IfOk};
    ghost use Rattle.vl_serve.specs.Command.{Means};

    /// What a payload asks: its first byte is the command.
    pub fn of(alloc: Global, payload: &[u8]) -> Result<Request, AllocError>
        ensures { IfOk result (λ request. Means payload.now request) }
    {
        let Some((command, rest)) = payload.split_first() else {
            return Ok(Request::Unknown);
        };
        match *command {
            QUIT => Ok(Request::Quit),
            QUERY => {
                let request = Request::of_text(alloc, rest)?;
                Ok(request)
            }
            _ => Ok(Request::Unknown),
        }
    }

    fn of_text(alloc: Global, text: &[u8]) -> Result<Request, AllocError>
        ensures { IfOk result (λ request. Means (3 ∷ text.now) request) }
    {
        match statement_of(alloc, text) {
            Ok(Some(stmt)) => Ok(Request::Run(stmt)),
            Ok(None) => Ok(Request::NoStatement),
            Err(error) => Err(error),
        }
    }
}
