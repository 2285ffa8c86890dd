ghost use Rattle.journal.specs.History.{Reached};
ghost use Rattle.journal.specs.Recorded.{recorded};

use crate::record::table::Table;

mod calls;
mod reading;
mod table;

/// The journal. Its record is always the history of some list of calls.
#[derive(Drop)]
pub struct Journal {
    table: Table,
    ghost reached: { Reached (recorded table) },
}
