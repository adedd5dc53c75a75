ghost use Rattle.std.specs.Prelude.{◌≡◌, ◌<◌, IfOk, OnErr, length};
ghost use Rattle.vl_drill.specs.Turns.{at_end, at_work, next, next_busy, started};

use crate::generator::Generator;
use crate::seen::Seen;
use crate::sessions::{first_open, next_busy};
use crate::statements::draw_statement;
use crate::turn::Turn;
use std::alloc::{AllocError, Global};
use std::marker::Model;
use vl_sql::stmt::Stmt;

/// The work of eight sessions: how many statements are still to be asked, and the generator; and for
/// the end from which session on the next step is made, and from which on none has committed.
#[derive(Debug, Drop)]
pub struct Drill {
    left: u32,
    generator: Generator,
    stepped: u8,
    committed: u8,
}

impl Model for Drill {
    ghost use Rattle.std.specs.Prelude.{◌≤◌};
    ghost use Rattle.vl_drill.specs.Drilling.{Drilling};

    ghost Value = { Drilling };

    ghost view = { λ d. record { left = d.left; state = d.generator.state; stepped = d.stepped; committed = d.committed } };

    ghost invariant = { λ d. (d.stepped ≤ 8) × (d.committed ≤ 8) };
}

impl Drill {
    /// So many statements, drawn from a seed.
    pub fn new(statements: u32, seed: u64) -> Drill
        ensures { result ≡ started statements seed }
    {
        Drill {
            left: statements,
            generator: Generator { state: seed },
            stepped: 0,
            committed: 0,
        }
    }

    // All was asked: steps, then commits, then the end. No memory is taken.
    fn next_at_end(&mut self, seen: &[Seen; 8]) -> Turn
        ensures { (result, self.new) ≡ at_end self.old seen.now (next_busy self.old.stepped seen.now) }
    {
        if let Some(session) = next_busy(seen, self.stepped) {
            self.stepped = session + 1;
            return Turn::Step(session);
        }
        if let Some(session) = first_open(seen, self.committed) {
            self.committed = session + 1;
            return Turn::Ask(session, Stmt::Commit);
        }
        Turn::End
    }

    // A session is drawn: it goes on with its statement, or asks a new one.
    fn next_at_work(&mut self, alloc: Global, seen: &[Seen; 8]) -> Result<Turn, AllocError>
        requires { 0 < self.old.left }
        ensures ok { IfOk result (λ turn. (turn, self.new) ≡ at_work self.old seen.now) }
        ensures err { OnErr result (self.new ≡ self.old) }
    {
        let mut generator = self.generator;
        let session = generator.draw(8);
        let Seen { busy, tx } = seen[session as usize];
        if busy {
            self.generator = generator;
            return Ok(Turn::Step(session as u8));
        }
        let stmt = draw_statement(alloc, tx, &mut generator)?;
        self.generator = generator;
        self.left -= 1;
        Ok(Turn::Ask(session as u8, stmt))
    }

    /// The next turn, by what is seen of the eight sessions. After `AllocError` the drill is unchanged.
    pub fn next(&mut self, alloc: Global, seen: &[Seen; 8]) -> Result<Turn, AllocError>
        ensures ok { IfOk result (λ turn. (turn, self.new) ≡ next self.old seen.now) }
        ensures err { OnErr result (self.new ≡ self.old) }
    {
        if self.left == 0 {
            return Ok(self.next_at_end(seen));
        }
        self.next_at_work(alloc, seen)
    }
}
