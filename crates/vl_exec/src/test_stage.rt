ghost use Rattle.std.specs.Prelude.{◌≡◌, ◌≢◌, ◌<◌, ◌≤◌, ◌^◌, ℕ, true, List, [], ◌∷◌, IfOk, IfSome, Some};
ghost use Rattle.vl_values.specs.declared.value.Value.{Value as AValue};
ghost use Rattle.vl_values.specs.declared.value.Value.TheVariants as values;
ghost use Rattle.vl_catalog.specs.Fitting.{IsPlacedRow, IsRowOf};
ghost use Rattle.vl_catalog.specs.Place.{shard_count};
ghost use Rattle.vl_rules.specs.Order.{Checked};
ghost use Rattle.vl_port.specs.declared.who.Who.{Who as AWho};
ghost use Rattle.vl_port.specs.Serving.{Serves};
ghost use Rattle.vl_shard.specs.Banks.{count_of, seen_of};
ghost use Rattle.vl_select.specs.Answering.{GoesOn};
ghost use Rattle.vl_exec.specs.Making.{IsMade};
ghost use Rattle.vl_exec.specs.Staging.{IsClient};

use crate::program::Program;
use crate::running::can_run;
use std::alloc::{AllocError, Global};
use std::marker::Model;
use std::test::Fail;
use vl_catalog::{Catalog, Table};
use vl_change::running::unsupported;
use vl_plan::planning::plan;
use vl_port::act::Act;
use vl_port::answer::Answer;
use vl_port::asked::Asked;
use vl_port::asking::ask;
use vl_port::committed::Committed;
use vl_port::limits::Limits;
use vl_port::loss::Loss;
use vl_port::port::ShardPort;
use vl_port::script_link::ScriptLink;
use vl_port::tx_state::TxState;
use vl_shard::bank::Bank;
use vl_sql::parse;
use vl_statement::program_told::ProgramTold;
use vl_values::cause::Cause;
use vl_values::col_type::ColType;
use vl_values::group::Group;
use vl_values::key::Key;
use vl_values::row::Row;
use vl_values::value::Value;
use vl_values::{SessionNo, ShardNo, TableNo};

// A transaction, and the program of its statement, until that has its reply.
type Client = (TxState, Option<Program>);

const MOST_CLIENTS: usize = 8;

// The table of the entries of t1's lookup in the built-in catalog.
const ENTRIES: TableNo = 1;

// The program of a statement's text.
fn program_of(alloc: Global, catalog: &Catalog, text: &str) -> Result<Program, Fail>
    requires { Checked catalog.now }
    ensures { IfOk result (λ program. (limit : ℕ) → 1 ≤ limit → IsMade catalog.now (shard_count catalog.now.rings) limit program) }
{
    let Ok(statement) = parse(alloc, text.as_bytes()) else {
        return Err("a statement".into());
    };
    let Ok(plan) = plan(alloc, catalog, &statement) else {
        return Err("a statement that the catalog takes".into());
    };
    if !can_run(catalog, &plan) {
        return Err("a plan that programs run".into());
    }
    match Program::start(alloc, catalog, plan) {
        Ok(program) => Ok(program),
        Err(_) => Err("memory for a program".into()),
    }
}

// Why a statement's text is refused before it has a program.
fn refusal_of(alloc: Global, catalog: &Catalog, text: &str) -> Result<Cause, Fail>
    requires { Checked catalog.now }
{
    let Ok(statement) = parse(alloc, text.as_bytes()) else {
        return Err("a statement".into());
    };
    match plan(alloc, catalog, &statement) {
        Ok(plan) => match unsupported(catalog, &plan) {
            Some(what) => Ok(Cause::NotSupported { what }),
            None => Err("a statement that is refused".into()),
        },
        Err(why) => Ok(why),
    }
}

// Whether the table has two columns, the first one of numbers and the key, and the second one may hold NULL.
fn has_entries_of_numbers(table: &Table) -> bool
    ensures { result ≡ true → (row : List AValue) → (number : ℕ) → number < 2 ^ 64 → row ≡ values.Uint number ∷ values.Null ∷ [] → IsRowOf table.now row }
{
    let columns = table.columns.as_slice();
    let (Some(from), Some(to)) = (columns.first(), columns.get(1)) else {
        return false;
    };
    columns.len() == 2 && from.ty == ColType::BigUint && to.nullable
}

// An entry of the number on the first shard, and its key. It names no keyspace id.
fn entry_without_ksid(alloc: Global, catalog: &Catalog, number: u64) -> Result<(Key, Row), Fail>
    requires { Checked catalog.now }
    ensures { IfOk result (λ entry. IsPlacedRow catalog.now 0 entry.0 entry.1) }
{
    let Some(table) = catalog.tables.as_slice().get(ENTRIES as usize) else {
        return Err("a table of entries".into());
    };
    let row = Row::from_vec(vec![in alloc; Value::Uint(number), Value::Null]?);
    if !has_entries_of_numbers(table) || catalog.place_of(ENTRIES, row.as_slice()) != Some(0) {
        return Err("an entry of the first shard".into());
    }
    let key = table.key_of(alloc, ENTRIES, row.as_slice())?;
    Ok((key, row))
}

// The program, unless its statement has the reply.
fn unless_over(told: &ProgramTold, program: Program) -> Option<Program>
    ensures { IfSome result (λ it. GoesOn told.now × (it ≡ program)) }
{
    match told {
        ProgramTold::More
        | ProgramTold::Held {
            by: _,
            key: _,
            tries: _,
        } => Some(program),
        ProgramTold::Reply(_) => None,
    }
}

// In a function of its own, since what stood there is dropped.
fn put(place: &mut Option<Program>, program: Option<Program>)
    ensures { place.new ≡ program }
{
    *place = program;
}

// The client's next program.
fn begin(client: &mut Client, program: Program)
    ensures { client.new ≡ (client.old.0, Some program) }
{
    put(&mut client.1, Some(program));
}

// A step of the client's program; None where it has none.
fn turn(
    alloc: Global,
    catalog: &Catalog,
    bank: &mut Bank<ScriptLink>,
    client: &mut Client,
) -> Option<ProgramTold>
    requires checked { Checked catalog.now }
    requires agree { bank.old.catalog ≡ catalog.now }
    requires serves { Serves catalog.now (count_of bank.old) (seen_of bank.old) }
    requires client { IsClient catalog.now (seen_of bank.old) client.old }
    ensures agree { bank.new.catalog ≡ catalog.now }
    ensures serves { Serves catalog.now (count_of bank.new) (seen_of bank.new) }
    ensures client { IsClient catalog.now (seen_of bank.new) client.new }
    ensures number { client.new.0.number ≡ client.old.0.number }
    ensures foreign { (shard : ℕ) (who : AWho) → who.tx ≢ client.old.0.number → (seen_of bank.new shard).sessions who ≡ (seen_of bank.old shard).sessions who }
{
    let mut program = client.1.take()?;
    let told = program.step(alloc, catalog, bank, &mut client.0);
    put(&mut client.1, unless_over(&told, program));
    Some(told)
}

fn was_done(asked: &Asked) -> Result<(), Fail> {
    match asked {
        Asked::Answered(Answer::Done) => Ok(()),
        _ => Err("a write that is done".into()),
    }
}

// Writes an entry of the number that names no keyspace id, by the client's session for entries on the first shard.
fn leave_entry(
    alloc: Global,
    catalog: &Catalog,
    bank: &mut Bank<ScriptLink>,
    client: &mut Client,
    number: u64,
) -> Result<(), Fail>
    requires checked { Checked catalog.now }
    requires agree { bank.old.catalog ≡ catalog.now }
    requires serves { Serves catalog.now (count_of bank.old) (seen_of bank.old) }
    requires client { IsClient catalog.now (seen_of bank.old) client.old }
    ensures agree { bank.new.catalog ≡ catalog.now }
    ensures serves { Serves catalog.now (count_of bank.new) (seen_of bank.new) }
    ensures client { IsClient catalog.now (seen_of bank.new) client.new }
    ensures number { client.new.0.number ≡ client.old.0.number }
    ensures foreign { (shard : ℕ) (who : AWho) → who.tx ≢ client.old.0.number → (seen_of bank.new shard).sessions who ≡ (seen_of bank.old shard).sessions who }
{
    let (key, row) = entry_without_ksid(alloc, catalog, number)?;
    if bank.len() == 0 {
        return Err("a shard".into());
    }
    let insert = Act::Insert { key, row };
    let asked = ask(bank, &mut client.0, Group::Pre, 0, &insert);
    was_done(&asked)
}

// Commits the client's session of the group that was listed last, and strikes it off; None where none is listed.
fn commit(
    bank: &mut Bank<ScriptLink>,
    client: &mut Client,
    group: Group,
) -> Option<(ShardNo, Committed)>
    requires serves { Serves bank.old.catalog (count_of bank.old) (seen_of bank.old) }
    requires client { IsClient bank.old.catalog (seen_of bank.old) client.old }
    ensures agree { bank.new.catalog ≡ bank.old.catalog }
    ensures serves { Serves bank.new.catalog (count_of bank.new) (seen_of bank.new) }
    ensures client { IsClient bank.old.catalog (seen_of bank.new) client.new }
    ensures number { client.new.0.number ≡ client.old.0.number }
    ensures foreign { (shard : ℕ) (who : AWho) → who.tx ≢ client.old.0.number → (seen_of bank.new shard).sessions who ≡ (seen_of bank.old shard).sessions who }
{
    let shard = *client.0.listed(group).as_slice().last()?;
    let committed = bank.commit(client.0.who(group), shard);
    client.0.strike(group);
    Some((shard, committed))
}

// Ends the client's session of the group that was listed last, and strikes it off; None where none is listed.
fn close(bank: &mut Bank<ScriptLink>, client: &mut Client, group: Group) -> Option<ShardNo>
    requires serves { Serves bank.old.catalog (count_of bank.old) (seen_of bank.old) }
    requires client { IsClient bank.old.catalog (seen_of bank.old) client.old }
    ensures agree { bank.new.catalog ≡ bank.old.catalog }
    ensures serves { Serves bank.new.catalog (count_of bank.new) (seen_of bank.new) }
    ensures client { IsClient bank.old.catalog (seen_of bank.new) client.new }
    ensures number { client.new.0.number ≡ client.old.0.number }
    ensures foreign { (shard : ℕ) (who : AWho) → who.tx ≢ client.old.0.number → (seen_of bank.new shard).sessions who ≡ (seen_of bank.old shard).sessions who }
{
    let shard = *client.0.listed(group).as_slice().last()?;
    bank.close(client.0.who(group), shard);
    client.0.strike(group);
    Some(shard)
}

// A link to two shards that plays a loss on each, where one is given.
fn link_with(
    alloc: Global,
    first: Option<Loss>,
    second: Option<Loss>,
) -> Result<ScriptLink, AllocError> {
    let mut link = ScriptLink::new(alloc, 2)?;
    if let Some(loss) = first {
        link.arm(0, loss);
    }
    if let Some(loss) = second {
        link.arm(1, loss);
    }
    Ok(link)
}

/// Transactions side by side on the shards of one catalog.
#[derive(Drop)]
pub(crate) struct Stage {
    catalog: Catalog,
    bank: Bank<ScriptLink>,
    clients: Vec<Client>,
}

impl Model for Stage {
    ghost use Rattle.std.specs.Prelude.{◌≡◌};
    ghost use Rattle.vl_shard.specs.Banks.{count_of, seen_of};
    ghost use Rattle.vl_exec.specs.Staging.{AreClients};

    ghost Value = { Unit {0} };

    ghost view = { λ s. tt };

    ghost invariant = { λ s. AreClients s.catalog (count_of s.bank) (seen_of s.bank) s.clients.items × (s.bank.catalog ≡ s.catalog) };
}

impl Stage {
    /// Two empty shards, and nobody on them. The link plays a loss on each of them, where one is given.
    pub(crate) fn new(
        alloc: Global,
        catalog: Catalog,
        first: Option<Loss>,
        second: Option<Loss>,
    ) -> Result<Stage, Fail>
        requires { Checked catalog }
    {
        let Some(2) = catalog.shard_count() else {
            return Err("two shards".into());
        };
        let link = link_with(alloc, first, second)?;
        let bank = Bank::new(alloc, &catalog, link)?;
        Ok(Stage {
            catalog,
            bank,
            clients: Vec::new(alloc),
        })
    }

    /// One more transaction, whose place is told.
    pub(crate) fn join(
        &mut self,
        alloc: Global,
        session: SessionNo,
        limits: Limits,
        auto: bool,
        single: bool,
    ) -> Result<usize, Fail> {
        let place = self.clients.len();
        if place >= MOST_CLIENTS {
            return Err("few clients".into());
        }
        let tx = TxState::new(alloc, place as u64, session, limits, auto, single);
        self.clients.push((tx, None))?;
        Ok(place)
    }

    /// The client's next statement.
    pub(crate) fn start(&mut self, alloc: Global, place: usize, text: &str) -> Result<(), Fail> {
        if place >= self.clients.len() || self.clients[place].0.limits.tries == 0 {
            return Err("a client that tries".into());
        }
        let program = program_of(alloc, &self.catalog, text)?;
        begin(&mut self.clients[place], program);
        Ok(())
    }

    /// Why a statement is refused before it has a program.
    pub(crate) fn refusal(&self, alloc: Global, text: &str) -> Result<Cause, Fail> {
        refusal_of(alloc, &self.catalog, text)
    }

    /// Writes an entry of t1's lookup without a keyspace id, by the client's session for entries on the first shard.
    pub(crate) fn leave_entry(
        &mut self,
        alloc: Global,
        place: usize,
        number: u64,
    ) -> Result<(), Fail> {
        if place >= self.clients.len() {
            return Err("a client".into());
        }
        leave_entry(
            alloc,
            &self.catalog,
            &mut self.bank,
            &mut self.clients[place],
            number,
        )
    }

    /// A step of the client's statement; None where it has its reply.
    pub(crate) fn step(&mut self, alloc: Global, place: usize) -> Option<ProgramTold> {
        if place >= self.clients.len() {
            return None;
        }
        turn(
            alloc,
            &self.catalog,
            &mut self.bank,
            &mut self.clients[place],
        )
    }

    /// Commits the client's session of the group that was listed last, and tells its shard; None where none is left.
    pub(crate) fn commit_last(
        &mut self,
        place: usize,
        group: Group,
    ) -> Option<(ShardNo, Committed)> {
        if place >= self.clients.len() {
            return None;
        }
        commit(&mut self.bank, &mut self.clients[place], group)
    }

    /// Ends the client's session of the group that was listed last, and tells its shard; None where none is left.
    pub(crate) fn close_last(&mut self, place: usize, group: Group) -> Option<ShardNo> {
        if place >= self.clients.len() {
            return None;
        }
        close(&mut self.bank, &mut self.clients[place], group)
    }

    /// Kills the main session of a client session on a shard; false where there is none.
    pub(crate) fn drop_session(&mut self, session: SessionNo, shard: ShardNo) -> bool {
        if shard as usize >= self.bank.len() {
            return false;
        }
        self.bank.drop_session(session, Group::Main, shard)
    }

    /// The shards of the client's sessions of the group, in the order of first use.
    pub(crate) fn listed(&self, place: usize, group: Group) -> &[ShardNo] {
        match self.clients.as_slice().get(place) {
            Some(client) => client.0.listed(group).as_slice(),
            None => &[],
        }
    }

    /// How many acts and commits were carried to a shard.
    pub(crate) fn carried(&self, shard: ShardNo) -> u64 {
        if shard as usize >= self.bank.len() {
            return 0;
        }
        self.bank.carried(shard)
    }

    /// How many messages the link has lost.
    pub(crate) fn lost(&self) -> u64 {
        self.bank.link().faults()
    }
}
