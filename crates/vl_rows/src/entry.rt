ghost use Rattle.std.specs.Prelude.{◌≡◌, map};
ghost use Rattle.std.specs.Option.{option_copied};
ghost use Rattle.vl_rows.specs.Slots.{settled_in, abandoned_in, written_in};

use crate::slot::Slot;
use vl_values::ConnNo;
use vl_values::key::Key;
use vl_values::row::Row;

fn settle_entry(entry: &mut (Key, Slot), conn: ConnNo)
    ensures { entry.new ≡ settled_in conn entry.old }
{
    entry.1.settle(conn);
}

fn abandon_entry(entry: &mut (Key, Slot), conn: ConnNo)
    ensures { entry.new ≡ abandoned_in conn entry.old }
{
    entry.1.abandon(conn);
}

/// Makes the row the pending version of the connection; None is a row that is removed.
pub fn write_entry(entry: &mut (Key, Slot), row: Option<Row>, conn: ConnNo)
    ensures { entry.new ≡ written_in conn row entry.old }
{
    entry.1.write(row, conn);
}

/// Commits each pending version of the connection.
pub fn settle_all(slots: &mut [(Key, Slot)], conn: ConnNo)
    ensures { slots.new ≡ map (settled_in conn) slots.old }
{
    for entry in slots.iter_mut() {
        settle_entry(entry, conn);
    }
}

/// Drops each pending version of the connection.
pub fn abandon_all(slots: &mut [(Key, Slot)], conn: ConnNo)
    ensures { slots.new ≡ map (abandoned_in conn) slots.old }
{
    for entry in slots.iter_mut() {
        abandon_entry(entry, conn);
    }
}
