ghost use Rattle.std.specs.Prelude.{◌≡◌, ◌+◌, ◌<◌, ◌≤◌, [], IfOk, OnErr, Contains};
ghost use Rattle.std.specs.Option.{ForSome};

use std::alloc::{AllocError, Global};
use std::marker::Model;
use std::mem;
use vl_cluster::ask::Ask;
use vl_cluster::cluster::Cluster;
use vl_cluster::pass::Pass;
use vl_cluster::told::Told;
use vl_sql::stmt::Stmt;

/// The client of a script: its session s1 over a core of its own. The session joins at its first
/// statement.
pub struct Client {
    cluster: Cluster,
    pass: Option<Pass>,
}

impl Model for Client {
    ghost use Rattle.std.specs.Prelude.{Contains};
    ghost use Rattle.std.specs.Option.{ForSome};
    ghost use Rattle.vl_model.specs.Steps.{table_rows};
    ghost use Rattle.vtgate_cl.specs.Client.{ClientView};

    ghost Value = { ClientView };

    ghost view = { λ c. record { rows = table_rows c.cluster.tables; at = c.cluster.at } };

    ghost invariant = { λ c. ForSome c.pass (λ pass. Contains c.cluster.joined pass) };
}

impl Client {
    ghost use Rattle.vl_cluster.specs.View.{last_event};
    ghost use Rattle.vl_model.specs.Taken.{IsTaken};
    ghost use Rattle.vtgate_cl.specs.Talk.{IsSaid};

    /// A client over empty shards.
    pub fn open(alloc: Global) -> Result<Client, AllocError>
        ensures rows { IfOk result (λ c. c.rows ≡ []) }
        ensures at { IfOk result (λ c. c.at ≡ 0) }
    {
        let Ok(cluster) = Cluster::open(alloc) else {
            return Err(AllocError);
        };
        Ok(Client {
            cluster,
            pass: None,
        })
    }

    /// Runs a statement, at its first use in the second event, behind the join. After an error, which
    /// is want of memory for the join, no row has changed.
    pub fn say(&mut self, stmt: Stmt) -> Result<Told, AllocError>
        requires early { self.old.at + 1 < last_event }
        requires taken { IsTaken stmt }
        ensures ok { IfOk result (λ told. IsSaid self.old.rows stmt told.1 self.new.rows) }
        ensures err { OnErr result (self.new.rows ≡ self.old.rows) }
        ensures at { self.new.at ≤ self.old.at + 2 }
    {
        let seat = self.pass.take();
        let Ok(pass) = seated(&mut self.cluster, seat) else {
            return Err(AllocError);
        };
        let (next, told) = self.cluster.act(pass, Ask::Say(stmt));
        match mem::replace(&mut self.pass, Some(next)) {
            None => Ok(told),
            Some(spare) => {
                self.cluster.leave(spare);
                Ok(told)
            }
        }
    }

    /// Ends the client: its session leaves.
    pub fn close(self) {
        let Client { mut cluster, pass } = self;
        match pass {
            None => {}
            Some(pass) => cluster.leave(pass),
        }
    }
}

// The pass of the session, which joins where it has none.
fn seated(cluster: &mut Cluster, seat: Option<Pass>) -> Result<Pass, AllocError>
    requires { ForSome seat (λ pass. Contains cluster.old.joined pass) }
    ensures joined { IfOk result (λ pass. Contains cluster.new.joined pass) }
    ensures tables { cluster.new.tables ≡ cluster.old.tables }
    ensures at { cluster.new.at ≤ cluster.old.at + 1 }
{
    match seat {
        Some(pass) => Ok(pass),
        None => cluster.join(),
    }
}
