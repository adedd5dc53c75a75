ghost use Rattle.std.specs.Prelude.{◌≡◌, ◌∷◌, ◌≢◌, ◌<◌, ℕ, List, [], All, Some, None, IsTrue, true, false, IfOk, OnOk, OnErr, IfSome, IfNone, map};
ghost use Rattle.std.specs.List.{AllWithin, HoldsAt};
ghost use Rattle.vl_values.specs.declared.key.Key.{Key as AKey};
ghost use Rattle.vl_port.specs.declared.fate.Fate.{Fate as AFate};
ghost use Rattle.vl_values.specs.declared.value.Value.{Value as AValue};
ghost use Rattle.vl_values.specs.Keyed.{AreInOrder, InKeyOrder, is_among_keys};
ghost use Rattle.vl_port.specs.declared.act.Act.TheVariants as acts;
ghost use Rattle.vl_port.specs.View.{has_group, standing};
ghost use Rattle.vl_port.specs.Reading.{IsRead};
ghost use Rattle.vl_port.specs.Holding.{needs};
ghost use Rattle.vl_port.specs.declared.carried.Carried.TheVariants as ways;
ghost use Rattle.vl_port.specs.Acting.{has_value, settled};
ghost use Rattle.vl_port.specs.Calls.{IsLimited};
ghost use Rattle.vl_port.specs.Carrying.{Carries, Closes, CommitCarries, CommitUses, Uses};
ghost use Rattle.vl_port.specs.Life.{closed, loss_of, lost_as, opened};
ghost use Rattle.vl_port.specs.Keeping.{IsKept};
ghost use Rattle.vl_port.specs.Taking.{takes_keys};
ghost use Rattle.vl_rows.specs.Versions.{has_room};
ghost use Rattle.vl_locks.specs.Locks.{holder_of, other_than};
ghost use Rattle.vl_locks.specs.Take.{IsFreeFor, IsFirstHeld};
ghost use Rattle.vl_shard.specs.Seats.{IsPlaceFor, left_by};
ghost use Rattle.vl_shard.specs.Parts.{Parts, view_of, IsWhole};
ghost use Rattle.vl_shard.specs.Banks.{IsEmpty};
ghost use Rattle.vl_shard.specs.Obtaining.{Obtains, HasObtained, IsRefused};
ghost use Rattle.vl_shard.specs.Calls.{Acts, Drops, IsRefusal};
ghost use Rattle.vl_shard.specs.Changing.{IsUnseen, IsWritten, TakesKey, ChangesKey};

use crate::seats::Seats;
use std::alloc::{AllocError, Global};
use std::marker::Model;
use vl_locks::locks::Locks;
use vl_port::act::Act;
use vl_port::answer::Answer;
use vl_port::carried::Carried;
use vl_port::committed::Committed;
use vl_port::fate::Fate;
use vl_port::found_rows::FoundRows;
use vl_port::who::Who;
use vl_rows::rows::Rows;
use vl_values::group::Group;
use vl_values::key::Key;
use vl_values::lost_why::LostWhy;
use vl_values::pred::Pred;
use vl_values::row::Row;
use vl_values::value::Value;
use vl_values::{ConnNo, SessionNo};

/// A shard without a device: its rows in two versions, its locks, and the shard sessions that were opened.
#[derive(Debug, Drop)]
pub struct Shard {
    alloc: Global,
    rows: Rows,
    locks: Locks,
    seats: Seats,
    incarnation: u64,
}

impl Model for Shard {
    ghost use Rattle.vl_shard.specs.Parts.{Parts, IsWhole};

    ghost Value = { Parts };

    ghost view = { λ s. record { rows = s.rows; holds = s.locks; seats = s.seats; incarnation = s.incarnation } };

    ghost invariant = { λ s. IsWhole (record { rows = s.rows; holds = s.locks; seats = s.seats; incarnation = s.incarnation }) };
}

// A client session in the way, and the key that it holds.
type Holder = (SessionNo, Key);

// Whether a version has this value in a column; a column past its end has NULL.
fn has_value(version: &Option<Row>, column: u16, value: &Value) -> bool
    ensures { result ≡ has_value column value.now version.now }
{
    let null = Value::Null;
    match version {
        None => false,
        Some(row) => match row.as_slice().get(usize::from(column)) {
            Some(found) => found == value,
            None => null == *value,
        },
    }
}

// A session lets go of its locks and of its seat.
fn depart(locks: &mut Locks, seats: &mut Seats, who: &Who, conn: ConnNo)
    ensures locks { (key : AKey) → holder_of locks.new key ≡ other_than conn (holder_of locks.old key) }
    ensures seats { seats.new ≡ map (left_by who.now) seats.old }
{
    locks.release(conn);
    seats.leave(who);
}

// Whether memory was refused.
fn is_refusal(answer: &Answer) -> bool
    ensures { IsRefusal result answer.now }
{
    matches!(answer, Answer::Memory)
}

// Whether this is a shard session, and not a read without one.
fn has_group(who: &Who) -> bool
    ensures { result ≡ has_group who.now.group }
{
    who.group.is_some()
}

impl Shard {
    /// A shard of its first incarnation, with no rows and no sessions.
    pub fn new(alloc: Global) -> Shard
        ensures empty { IsEmpty (view_of result) }
        ensures incarnation { result.incarnation ≡ 1 }
        ensures kept { IsKept (view_of result) }
    {
        Shard {
            alloc,
            rows: Rows::new(alloc),
            locks: Locks::new(alloc),
            seats: Seats::new(alloc),
            incarnation: 1,
        }
    }

    // Tells who holds the first of these keys that another has.
    fn refuse(
        &mut self,
        who: &Who,
        conn: ConnNo,
        keys: Vec<Key>,
        place: usize,
        by: ConnNo,
    ) -> Holder
        requires place { IsPlaceFor self.old.seats who.now conn }
        requires held { IsFirstHeld self.old.holds keys.items conn place by }
        ensures { IsRefused self.old who.now conn keys.items result.0 result.1 self.new }
    {
        let mut keys = keys;
        let session = self.seats.session(by);
        self.seats.sit(*who, conn, self.incarnation);
        let key = keys.swap_remove(place);
        (session, key)
    }

    // Takes the locks of these keys, which are free for the session.
    fn take(&mut self, who: &Who, conn: ConnNo, keys: &[Key]) -> Result<(), AllocError>
        requires place { IsPlaceFor self.old.seats who.now conn }
        requires live { loss_of (view_of self.old) who.now ≡ None }
        requires free { All (IsFreeFor self.old.holds conn) keys.now }
        ensures ok { OnOk result (HasObtained self.old who.now conn keys.now self.new) }
        ensures err { OnErr result (self.new ≡ self.old) }
    {
        self.locks.take_all(keys, conn)?;
        self.seats.sit(*who, conn, self.incarnation);
        Ok(())
    }

    // Obtains the locks of these keys for a session that has this place, or tells who has the first
    // that isn't free.
    fn obtain(
        &mut self,
        who: &Who,
        conn: ConnNo,
        keys: Vec<Key>,
    ) -> Result<Option<Holder>, AllocError>
        requires place { IsPlaceFor self.old.seats who.now conn }
        requires live { loss_of (view_of self.old) who.now ≡ None }
        ensures ok { IfOk result (λ held. Obtains self.old who.now conn keys.items held self.new) }
        ensures err { OnErr result (self.new ≡ self.old) }
    {
        match self.locks.first_held(keys.as_slice(), conn) {
            Some((place, by)) => {
                let holder = self.refuse(who, conn, keys, place, by);
                Ok(Some(holder))
            }
            None => {
                self.take(who, conn, keys.as_slice())?;
                Ok(None)
            }
        }
    }

    // The version that a session sees of a key.
    fn standing(&self, who: &Who, key: &Key) -> Result<Option<Row>, AllocError>
        ensures { IfOk result (λ row. row ≡ standing (view_of self.now) who.now key.now) }
    {
        let reader = self.seats.find(who);
        self.rows.get(key, reader)
    }

    // The rows that a session sees and the predicate matches.
    fn rows_seen(&self, who: &Who, pred: &Pred) -> Result<FoundRows, AllocError>
        ensures { IfOk result (λ rows. IsRead (view_of self.now) who.now pred.now rows) }
    {
        let reader = self.seats.find(who);
        let rows = self.rows.find(pred, reader)?;
        Ok(FoundRows::from_vec(rows))
    }

    // The keys that a locking read must obtain; a plain one needs none.
    fn keys_of(&self, pred: &Pred, locking: bool) -> Result<Vec<Key>, AllocError>
        ensures order { IfOk result (λ keys. AreInOrder keys.items) }
        ensures needed { IfOk result (λ keys. (key : AKey) → is_among_keys keys.items key ≡ needs (view_of self.now) (acts.Find pred.now locking) key) }
    {
        if locking {
            self.rows.matching(pred)
        } else {
            Ok(Vec::new(self.alloc))
        }
    }

    // A list of this key alone.
    fn only(&self, key: &Key) -> Result<Vec<Key>, AllocError>
        ensures { IfOk result (λ keys. keys.items ≡ key.now ∷ []) }
    {
        let key = key.copy(self.alloc)?;
        let mut keys = Vec::new(self.alloc);
        keys.push(key)?;
        Ok(keys)
    }

    // Makes room for a session.
    fn reserve_seat(&mut self, who: &Who) -> Result<ConnNo, AllocError>
        ensures place { IfOk result (IsPlaceFor self.new.seats who.now) }
        ensures absent { OnErr result ((view_of self.old).sessions who.now ≡ None) }
        ensures same { IsUnseen self.old self.new }
        ensures whole { IsWhole self.new }
    {
        self.seats.reserve(who)
    }

    // Makes room for a session and for its change of a key.
    fn reserve(&mut self, who: &Who, key: &Key) -> Result<ConnNo, AllocError>
        ensures place { IfOk result (IsPlaceFor self.new.seats who.now) }
        ensures room { OnOk result (IsTrue (has_room self.new.rows key.now)) }
        ensures same { IsUnseen self.old self.new }
        ensures whole { IsWhole self.new }
    {
        self.rows.reserve(key)?;
        self.seats.reserve(who)
    }

    // Writes the pending version of a key that the session holds.
    fn write(&mut self, key: &Key, row: Option<Row>, conn: ConnNo)
        requires room { IsTrue (has_room self.old.rows key.now) }
        requires held { holder_of self.old.holds key.now ≡ Some conn }
        ensures { IsWritten self.old key.now row conn self.new }
    {
        self.rows.write(key, row, conn);
    }

    // Takes the lock of a key.
    fn lock(&mut self, who: &Who, key: &Key) -> Result<Option<Holder>, AllocError>
        requires group { has_group who.now.group ≡ true }
        requires live { loss_of (view_of self.old) who.now ≡ None }
        ensures ok { IfOk result (λ held. TakesKey (view_of self.old) who.now key.now held (view_of self.new)) }
        ensures err { OnErr result (view_of self.new ≡ view_of self.old) }
    {
        let keys = self.only(key)?;
        let conn = self.reserve_seat(who)?;
        let held = self.obtain(who, conn, keys)?;
        Ok(held)
    }

    // Takes the lock of a key and writes its pending version.
    fn change(
        &mut self,
        who: &Who,
        key: &Key,
        row: Option<Row>,
    ) -> Result<Option<Holder>, AllocError>
        requires group { has_group who.now.group ≡ true }
        requires live { loss_of (view_of self.old) who.now ≡ None }
        ensures ok { IfOk result (λ held. ChangesKey (view_of self.old) who.now key.now row held (view_of self.new)) }
        ensures err { OnErr result (view_of self.new ≡ view_of self.old) }
    {
        let keys = self.only(key)?;
        let conn = self.reserve(who, key)?;
        let held = self.obtain(who, conn, keys)?;
        match held {
            Some(holder) => Ok(Some(holder)),
            None => {
                self.write(key, row, conn);
                Ok(None)
            }
        }
    }

    fn put(&mut self, who: &Who, key: &Key, row: &Row) -> Result<Answer, AllocError>
        requires group { has_group who.now.group ≡ true }
        requires live { loss_of (view_of self.old) who.now ≡ None }
        ensures ok { IfOk result (λ answer. Acts (view_of self.old) who.now (acts.Put key.now row.now) answer (view_of self.new)) }
        ensures err { OnErr result (view_of self.new ≡ view_of self.old) }
    {
        let row = row.copy(self.alloc)?;
        let held = self.change(who, key, Some(row))?;
        match held {
            None => Ok(Answer::Done),
            Some((by, key)) => Ok(Answer::Held { by, key }),
        }
    }

    fn remove(&mut self, who: &Who, key: &Key) -> Result<Answer, AllocError>
        requires group { has_group who.now.group ≡ true }
        requires live { loss_of (view_of self.old) who.now ≡ None }
        ensures ok { IfOk result (λ answer. Acts (view_of self.old) who.now (acts.Remove key.now) answer (view_of self.new)) }
        ensures err { OnErr result (view_of self.new ≡ view_of self.old) }
    {
        let held = self.change(who, key, None)?;
        match held {
            None => Ok(Answer::Done),
            Some((by, key)) => Ok(Answer::Held { by, key }),
        }
    }

    // An Insert where the session sees no version.
    fn insert_new(&mut self, who: &Who, key: &Key, row: &Row) -> Result<Answer, AllocError>
        requires group { has_group who.now.group ≡ true }
        requires live { loss_of (view_of self.old) who.now ≡ None }
        requires absent { standing (view_of self.old) who.now key.now ≡ None }
        ensures ok { IfOk result (λ answer. Acts (view_of self.old) who.now (acts.Insert key.now row.now) answer (view_of self.new)) }
        ensures err { OnErr result (view_of self.new ≡ view_of self.old) }
    {
        let row = row.copy(self.alloc)?;
        let held = self.change(who, key, Some(row))?;
        match held {
            None => Ok(Answer::Done),
            Some((by, key)) => Ok(Answer::Held { by, key }),
        }
    }

    // An Insert that meets this version.
    fn meet(&mut self, who: &Who, key: &Key, found: Row) -> Result<Answer, AllocError>
        requires group { has_group who.now.group ≡ true }
        requires live { loss_of (view_of self.old) who.now ≡ None }
        requires found { standing (view_of self.old) who.now key.now ≡ Some found }
        ensures ok { IfOk result (λ answer. (row : List AValue) → Acts (view_of self.old) who.now (acts.Insert key.now row) answer (view_of self.new)) }
        ensures err { OnErr result (view_of self.new ≡ view_of self.old) }
    {
        let copy = key.copy(self.alloc)?;
        let held = self.lock(who, key)?;
        match held {
            None => Ok(Answer::Found {
                key: copy,
                row: found,
            }),
            Some((by, key)) => Ok(Answer::Held { by, key }),
        }
    }

    fn insert(&mut self, who: &Who, key: &Key, row: &Row) -> Result<Answer, AllocError>
        requires group { has_group who.now.group ≡ true }
        requires live { loss_of (view_of self.old) who.now ≡ None }
        ensures ok { IfOk result (λ answer. Acts (view_of self.old) who.now (acts.Insert key.now row.now) answer (view_of self.new)) }
        ensures err { OnErr result (view_of self.new ≡ view_of self.old) }
    {
        let standing = self.standing(who, key)?;
        match standing {
            None => self.insert_new(who, key, row),
            Some(found) => self.meet(who, key, found),
        }
    }

    // A RemoveIf whose version has the value.
    fn remove_match(
        &mut self,
        who: &Who,
        key: &Key,
        column: u16,
        value: &Value,
    ) -> Result<Answer, AllocError>
        requires group { has_group who.now.group ≡ true }
        requires live { loss_of (view_of self.old) who.now ≡ None }
        requires has { has_value column value.now (standing (view_of self.old) who.now key.now) ≡ true }
        ensures ok { IfOk result (λ answer. Acts (view_of self.old) who.now (acts.RemoveIf key.now column value.now) answer (view_of self.new)) }
        ensures err { OnErr result (view_of self.new ≡ view_of self.old) }
    {
        let held = self.change(who, key, None)?;
        match held {
            None => Ok(Answer::Done),
            Some((by, key)) => Ok(Answer::Held { by, key }),
        }
    }

    // A RemoveIf that has nothing to remove.
    fn leave_match(
        &mut self,
        who: &Who,
        key: &Key,
        column: u16,
        value: &Value,
    ) -> Result<Answer, AllocError>
        requires group { has_group who.now.group ≡ true }
        requires live { loss_of (view_of self.old) who.now ≡ None }
        requires has_not { has_value column value.now (standing (view_of self.old) who.now key.now) ≡ false }
        ensures ok { IfOk result (λ answer. Acts (view_of self.old) who.now (acts.RemoveIf key.now column value.now) answer (view_of self.new)) }
        ensures err { OnErr result (view_of self.new ≡ view_of self.old) }
    {
        let held = self.lock(who, key)?;
        match held {
            None => Ok(Answer::Unchanged),
            Some((by, key)) => Ok(Answer::Held { by, key }),
        }
    }

    fn remove_if(
        &mut self,
        who: &Who,
        key: &Key,
        column: u16,
        value: &Value,
    ) -> Result<Answer, AllocError>
        requires group { has_group who.now.group ≡ true }
        requires live { loss_of (view_of self.old) who.now ≡ None }
        ensures ok { IfOk result (λ answer. Acts (view_of self.old) who.now (acts.RemoveIf key.now column value.now) answer (view_of self.new)) }
        ensures err { OnErr result (view_of self.new ≡ view_of self.old) }
    {
        let standing = self.standing(who, key)?;
        if has_value(&standing, column, value) {
            self.remove_match(who, key, column, value)
        } else {
            self.leave_match(who, key, column, value)
        }
    }

    // A read of a shard session.
    fn find(&mut self, who: &Who, pred: &Pred, locking: bool) -> Result<Answer, AllocError>
        requires group { has_group who.now.group ≡ true }
        requires live { loss_of (view_of self.old) who.now ≡ None }
        ensures ok { IfOk result (λ answer. Acts (view_of self.old) who.now (acts.Find pred.now locking) answer (view_of self.new)) }
        ensures err { OnErr result (view_of self.new ≡ view_of self.old) }
    {
        let rows = self.rows_seen(who, pred)?;
        let keys = self.keys_of(pred, locking)?;
        let conn = self.reserve_seat(who)?;
        let held = self.obtain(who, conn, keys)?;
        match held {
            None => Ok(Answer::Rows(rows)),
            Some((by, key)) => Ok(Answer::Held { by, key }),
        }
    }

    // A plain read without a shard session.
    fn look(&self, who: &Who, pred: &Pred) -> Result<Answer, AllocError>
        requires { has_group who.now.group ≡ false }
        ensures { IfOk result (λ answer. Acts (view_of self.now) who.now (acts.Find pred.now false) answer (view_of self.now)) }
    {
        let rows = self.rows_seen(who, pred)?;
        Ok(Answer::Rows(rows))
    }

    fn read(&mut self, who: &Who, pred: &Pred, locking: bool) -> Result<Answer, AllocError>
        requires group { locking ≡ true → has_group who.now.group ≡ true }
        requires live { loss_of (view_of self.old) who.now ≡ None }
        ensures ok { IfOk result (λ answer. Acts (view_of self.old) who.now (acts.Find pred.now locking) answer (view_of self.new)) }
        ensures err { OnErr result (view_of self.new ≡ view_of self.old) }
    {
        if has_group(who) {
            self.find(who, pred, locking)
        } else {
            self.look(who, pred)
        }
    }

    fn try_act(&mut self, who: &Who, act: &Act) -> Result<Answer, AllocError>
        requires group { takes_keys act.now ≡ true → has_group who.now.group ≡ true }
        requires live { loss_of (view_of self.old) who.now ≡ None }
        ensures ok { IfOk result (λ answer. Acts (view_of self.old) who.now act.now answer (view_of self.new)) }
        ensures err { OnErr result (view_of self.new ≡ view_of self.old) }
    {
        match act {
            Act::Insert { key, row } => self.insert(who, key, row),
            Act::Put { key, row } => self.put(who, key, row),
            Act::Remove { key } => self.remove(who, key),
            Act::RemoveIf { key, column, value } => self.remove_if(who, key, *column, value),
            Act::Find { pred, locking } => self.read(who, pred, *locking),
        }
    }

    // Gives a session its seat, or leaves it the one that it has.
    fn sit(&mut self, who: &Who, conn: ConnNo)
        requires group { has_group who.now.group ≡ true }
        requires place { IsPlaceFor self.old.seats who.now conn }
        ensures opened { view_of self.new ≡ opened who.now (view_of self.old) }
        ensures same { self.new.incarnation ≡ self.old.incarnation }
    {
        self.seats.sit(*who, conn, self.incarnation);
    }

    // Opens a shard session; a read without one opens none.
    fn open(&mut self, who: &Who) -> Result<(), AllocError>
        ensures ok { OnOk result (view_of self.new ≡ opened who.now (view_of self.old)) }
        ensures err { OnErr result (view_of self.new ≡ view_of self.old) }
        ensures absent { OnErr result ((has_group who.now.group ≡ true) × ((view_of self.old).sessions who.now ≡ None)) }
        ensures same { self.new.incarnation ≡ self.old.incarnation }
    {
        if has_group(who) {
            let conn = self.reserve_seat(who)?;
            self.sit(who, conn);
        }
        Ok(())
    }

    // Rolls back a session that has this number; it stays listed with its fate.
    fn roll_back(&mut self, who: &Who, conn: ConnNo, fate: Fate)
        requires group { has_group who.now.group ≡ true }
        requires place { IsPlaceFor self.old.seats who.now conn }
        ensures { view_of self.new ≡ lost_as fate who.now (view_of self.old) }
    {
        self.rows.abandon(conn);
        self.locks.release(conn);
        self.seats.lose(who, fate);
    }

    // A session is lost and rolled back at once, where it is open.
    fn lose(&mut self, who: &Who, fate: Fate)
        ensures { view_of self.new ≡ lost_as fate who.now (view_of self.old) }
    {
        if has_group(who) {
            if let Some(conn) = self.number(who) {
                self.roll_back(who, conn, fate);
            }
        }
    }

    // An act that has arrived; a lost session tells its loss and does nothing.
    fn take_act(&mut self, who: &Who, act: &Act) -> Answer
        requires { takes_keys act.now ≡ true → has_group who.now.group ≡ true }
        ensures used { Uses (loss_of (view_of self.old) who.now) (view_of self.old) who.now act.now result (view_of self.new) }
        ensures limited { IsLimited None result }
    {
        if let Some(why) = self.seats.loss(who, self.incarnation) {
            return Answer::Lost(why);
        }
        let answer = self.try_act(who, act);
        match answer {
            Ok(answer) => answer,
            Err(_) => Answer::Memory,
        }
    }

    // An act whose message was lost on its way.
    fn miss_act(&mut self, who: &Who, act: &Act) -> Answer
        ensures carried { Carries ways.LostBefore (view_of self.old) who.now act.now result (view_of self.new) }
        ensures limited { IsLimited None result }
    {
        let _ = act;
        let opened = self.open(who);
        if opened.is_err() {
            return Answer::Memory;
        }
        self.lose(who, Fate::Cut);
        Answer::Lost(LostWhy::Link)
    }

    // An act whose answer was lost.
    fn forget_act(&mut self, who: &Who, act: &Act) -> Answer
        requires { takes_keys act.now ≡ true → has_group who.now.group ≡ true }
        ensures carried { Carries ways.LostAfter (view_of self.old) who.now act.now result (view_of self.new) }
        ensures limited { IsLimited None result }
    {
        let answer = self.take_act(who, act);
        if is_refusal(&answer) {
            return Answer::Memory;
        }
        self.lose(who, Fate::Cut);
        Answer::Lost(LostWhy::Link)
    }

    /// One action of a shard session, or a plain read without one, by the way that its message took.
    pub fn act(&mut self, who: &Who, act: &Act, way: Carried) -> Answer
        requires { takes_keys act.now ≡ true → has_group who.now.group ≡ true }
        ensures acted { Carries way (view_of self.old) who.now act.now result (view_of self.new) }
        ensures limited { IsLimited None result }
        ensures kept { IsKept (view_of self.new) }
    {
        let answer = match way {
            Carried::Passed => self.take_act(who, act),
            Carried::LostBefore => self.miss_act(who, act),
            Carried::LostAfter => self.forget_act(who, act),
        };
        self.check();
        answer
    }

    // What a shard keeps after every call.
    fn check(&self)
        ensures { IsKept (view_of self.now) }
    {
        let _ = &self.alloc;
    }

    fn settle(&mut self, who: &Who, conn: ConnNo)
        requires { IsPlaceFor self.old.seats who.now conn }
        ensures settled { view_of self.new ≡ settled who.now (view_of self.old) }
        ensures same { self.new.incarnation ≡ self.old.incarnation }
    {
        self.rows.settle(conn);
        depart(&mut self.locks, &mut self.seats, who, conn);
    }

    fn abandon(&mut self, who: &Who, conn: ConnNo)
        requires { IsPlaceFor self.old.seats who.now conn }
        ensures closed { view_of self.new ≡ closed who.now (view_of self.old) }
        ensures same { self.new.incarnation ≡ self.old.incarnation }
    {
        self.rows.abandon(conn);
        depart(&mut self.locks, &mut self.seats, who, conn);
    }

    // The number of an open session.
    fn number(&self, who: &Who) -> Option<ConnNo>
        ensures open { IfSome result (IsPlaceFor self.now.seats who.now) }
        ensures settled { IfNone result (view_of self.now ≡ settled who.now (view_of self.now)) }
        ensures closed { IfNone result (view_of self.now ≡ closed who.now (view_of self.now)) }
        ensures lost { IfNone result ((fate : AFate) → view_of self.now ≡ lost_as fate who.now (view_of self.now)) }
    {
        self.seats.find(who)
    }

    // A commit that has arrived; a lost session tells its loss. The session ends.
    fn take_commit(&mut self, who: &Who) -> Committed
        ensures used { CommitUses (loss_of (view_of self.old) who.now) (view_of self.old) who.now result (view_of self.new) }
        ensures same { self.new.incarnation ≡ self.old.incarnation }
    {
        if let Some(why) = self.seats.loss(who, self.incarnation) {
            self.close(who);
            return Committed::Lost(why);
        }
        if let Some(conn) = self.number(who) {
            self.settle(who, conn);
        }
        Committed::Done
    }

    /// Commits a shard session, by the way that the message took: what it changed is committed. It ends,
    /// whatever the outcome.
    pub fn commit(&mut self, who: &Who, way: Carried) -> Committed
        ensures settled { CommitCarries way (view_of self.old) who.now result (view_of self.new) }
        ensures same { self.new.incarnation ≡ self.old.incarnation }
        ensures kept { IsKept (view_of self.new) }
    {
        let outcome = match way {
            Carried::Passed => self.take_commit(who),
            Carried::LostBefore => {
                self.close(who);
                Committed::Lost(LostWhy::Link)
            }
            Carried::LostAfter => {
                let _ = self.take_commit(who);
                Committed::Lost(LostWhy::Link)
            }
        };
        self.check();
        outcome
    }

    /// Ends a shard session, its locks and its changes.
    pub fn close(&mut self, who: &Who)
        ensures closed { Closes (view_of self.old) who.now (view_of self.new) }
        ensures same { self.new.incarnation ≡ self.old.incarnation }
        ensures kept { IsKept (view_of self.new) }
    {
        if let Some(conn) = self.number(who) {
            self.abandon(who, conn);
        }
        self.check();
    }

    /// Kills the first live shard session of a client session and group, and tells whether there was one.
    pub fn drop_session(&mut self, session: SessionNo, group: Group) -> bool
        ensures dropped { Drops (view_of self.old) session group result (view_of self.new) }
        ensures kept { IsKept (view_of self.new) }
    {
        let live = self.seats.live(session, group, self.incarnation);
        let found = match live {
            Some(who) => {
                self.lose(&who, Fate::Dropped);
                true
            }
            None => false,
        };
        self.check();
        found
    }
}
