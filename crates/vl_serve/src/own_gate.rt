ghost use Rattle.std.specs.Prelude.{◌≡◌, Some, Contains};
ghost use Rattle.vl_serve.specs.Playing.{Played};

use crate::gate::Gate;
use std::alloc::AllocError;
use std::vec;
use vl_cluster::ask::Ask;
use vl_cluster::cluster::Cluster;
use vl_cluster::pass::Pass;
use vl_cluster::taken::insert_of;
use vl_cluster::told::Told;
use vl_sql::stmt::Stmt;

/// A gate to a core that it has to itself. Before each of its calls other sessions say the statements of
/// the next round, each by a session that joins for it and leaves.
#[derive(Drop)]
pub struct OwnGate<'a> {
    cluster: &'a mut Cluster,
    rounds: vec::IntoIter<Vec<Stmt>>,
}

/// Another session joins, says a statement and leaves. Nothing happens where the core doesn't take the
/// statement, or the session cannot join.
fn play_one(cluster: &mut Cluster, stmt: Stmt)
    ensures { Played cluster.old cluster.new }
{
    if insert_of(&stmt).is_none() {
        return;
    }
    if let Ok(pass) = cluster.join() {
        let (pass, _) = cluster.act(pass, Ask::Say(stmt));
        cluster.leave(pass);
    }
}

fn play_round(cluster: &mut Cluster, round: Vec<Stmt>)
    ensures { Played cluster.old cluster.new }
{
    for stmt in round {
        play_one(cluster, stmt);
    }
}

impl<'a> OwnGate<'a> {
    /// A gate to this core. `rounds` has the statements of other sessions before each call.
    pub fn new(cluster: &'a mut Cluster, rounds: Vec<Vec<Stmt>>) -> OwnGate<'a>
        ensures { result.cluster.now ≡ cluster.old }
    {
        OwnGate {
            cluster,
            rounds: rounds.into_iter(),
        }
    }

    /// Plays the next round, if there is one.
    fn play(&mut self)
        ensures { Played self.old.cluster.now self.new.cluster.now }
    {
        if let Some(round) = self.rounds.next() {
            play_round(self.cluster, round);
        }
    }
}

impl Gate for OwnGate<'_> {
    ghost seen = { λ g. Some g.cluster.now };

    ghost is_due = { λ g pass. Contains g.cluster.now.joined pass };

    fn join(&mut self) -> Result<Pass, AllocError> {
        self.play();
        self.cluster.join()
    }

    fn act(&mut self, pass: Pass, ask: Ask) -> (Pass, Told) {
        self.play();
        self.cluster.act(pass, ask)
    }

    fn leave(&mut self, pass: Pass) {
        self.play();
        self.cluster.leave(pass);
    }
}
