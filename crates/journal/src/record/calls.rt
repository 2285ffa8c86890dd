ghost use Rattle.journal.specs.Admission.{Within, acting, admitted, is_begin};
ghost use Rattle.journal.specs.Calls.{ComesTo, Done, of_journal};
ghost use Rattle.journal.specs.History.{History, Reached, abort, begin, commit, end_at, read, reader_after, write};
ghost use Rattle.journal.specs.Limits.{most_reads};
ghost use Rattle.journal.specs.Recorded.{txn};
ghost use Rattle.journal.specs.Rules.{EndedStays, OwnRowsStay, Rules};
ghost use Rattle.journal.specs.Transactions.{is_open};
ghost use Rattle.std.specs.Result.{result_map_both};
ghost use Rattle.std.specs.Prelude.{◌≡◌, false, []};

use crate::event::Event;
use crate::limits::{KIOSKS, MOST_READS, MOST_TRANSACTIONS, ROWS};
use crate::mark::Mark;
use crate::record::Journal;
use crate::record::table::Table;
use crate::refusal::Refusal;
use crate::transaction::{OuterRead, State, Transaction};

impl Journal {
    /// A journal in which nothing has begun. Whatever calls are made of it, their history meets
    /// the rules, a read of a row of one's own and a repeated write change nothing in it, and
    /// what has ended in it stays as it is.
    pub fn new() -> Journal
        ensures empty { of_journal result ≡ [] }
        ensures rules { (h : History) → Reached h → Rules h }
        ensures own { OwnRowsStay }
        ensures stays { EndedStays }
    {
        Journal {
            table: Table::empty(),
        }
    }

    /// The number of the transaction that the event concerns.
    fn admit(&self, kiosk: u8, event: Event) -> Result<u8, Refusal>
        ensures { result ≡ admitted (of_journal self.now) kiosk event }
    {
        event.admit(self.table.latest_of(kiosk), self.table.len() + 1)
    }

    /// Begins a transaction at the kiosk, and answers its number.
    // The mark comes as a number, as a tape has it: by the rules a begin refuses one that is no mark, after the kiosk.
    pub fn begin(&mut self, kiosk: u8, mark: u8) -> Result<u8, Refusal>
        ensures { Done (begin kiosk mark) self.old result self.new }
    {
        if kiosk >= KIOSKS {
            return Err(Refusal::NoSuchKiosk);
        }
        let mark = Mark::try_from(mark)?;
        let number = self.admit(kiosk, Event::Begin)?;
        if usize::from(number) > MOST_TRANSACTIONS {
            return Err(Refusal::JournalFull);
        }
        self.table.push(Transaction::begun(kiosk, mark));
        Ok(number)
    }

    /// The number of the kiosk's open transaction, which is to read, write or end.
    fn acting(&self, kiosk: u8, event: Event) -> Result<u8, Refusal>
        ensures answers { result ≡ acting (of_journal self.now) kiosk event }
        ensures within { Within (of_journal self.now) event result }
    {
        if kiosk >= KIOSKS {
            return Err(Refusal::NoSuchKiosk);
        }
        self.admit(kiosk, event)
    }

    /// The reader, which has the number, after the read.
    fn reader_after(
        &self,
        number: u8,
        reader: Transaction,
        read: OuterRead,
    ) -> Result<Transaction, Refusal>
        ensures { result_map_both txn (λ e. e) result ≡ reader_after most_reads (of_journal self.now) number (txn reader) read.row read.source }
    {
        if reader.wrote(read.row) {
            if read.source != number {
                return Err(Refusal::NotOwnNumber);
            }
            return Ok(reader);
        }
        if !self.table.can_serve(read) {
            return Err(Refusal::NoSuchSource);
        }
        if usize::from(reader.reads_made()) >= MOST_READS {
            return Err(Refusal::TooManyReads);
        }
        Ok(reader.with_read(read))
    }

    /// The kiosk's open transaction reads the row from the source; the answer is how many outer reads it then has.
    pub fn read(&mut self, kiosk: u8, row: u8, source: u8) -> Result<u8, Refusal>
        ensures { Done (read kiosk row source) self.old result self.new }
    {
        let number = self.acting(kiosk, Event::Read)?;
        if usize::from(row) >= ROWS {
            return Err(Refusal::NoSuchRow);
        }
        let read = OuterRead { row, source };
        let reader = self.reader_after(number, self.table.at(number), read)?;
        self.table.put(number, reader);
        Ok(reader.reads_made())
    }

    /// The kiosk's open transaction writes the row; the answer is how many different rows it has then written.
    pub fn write(&mut self, kiosk: u8, row: u8) -> Result<u8, Refusal>
        ensures { Done (write kiosk row) self.old result self.new }
    {
        let number = self.acting(kiosk, Event::Write)?;
        if usize::from(row) >= ROWS {
            return Err(Refusal::NoSuchRow);
        }
        let writer = self.table.at(number).with_row(row);
        self.table.put(number, writer);
        Ok(writer.rows_written())
    }

    /// The kiosk's open transaction ends in the state; the answer is its number.
    fn end(&mut self, kiosk: u8, event: Event, state: State) -> Result<u8, Refusal>
        requires no_begin { is_begin event ≡ false }
        requires ended { is_open state ≡ false }
        ensures { ComesTo (end_at (of_journal self.old) kiosk state) self.old result self.new }
    {
        let number = self.acting(kiosk, event)?;
        let ended = self.table.at(number).with_state(state);
        self.table.put(number, ended);
        Ok(number)
    }

    /// The kiosk's open transaction commits; the answer is its number.
    pub fn commit(&mut self, kiosk: u8) -> Result<u8, Refusal>
        ensures { Done (commit kiosk) self.old result self.new }
    {
        self.end(kiosk, Event::Commit, State::Committed)
    }

    /// The kiosk's open transaction aborts; the answer is its number.
    pub fn abort(&mut self, kiosk: u8) -> Result<u8, Refusal>
        ensures { Done (abort kiosk) self.old result self.new }
    {
        self.end(kiosk, Event::Abort, State::Aborted)
    }
}
