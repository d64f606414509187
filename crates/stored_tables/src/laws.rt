//! Laws of stored tables: each function is empty, and its contract is the law.

ghost use Rattle.stored_tables.specs.Stored.{ChangesAreTold};
ghost use Rattle.stored_tables.specs.Reading.{WrittenIsRead};
ghost use Rattle.stored_tables.specs.Opening.{AcceptedAreOpened, OpeningIsOne};
ghost use Rattle.stored_tables.specs.Migration.{MigratedTablesStand};

/// The tables after the change of an update are those of the updated state.
pub fn changes_are_told()
    ensures { ChangesAreTold }
{}

/// What was written of a row is read as that row, with figures of 0.
pub fn written_rows_are_read()
    ensures { WrittenIsRead }
{}

/// Tables in which no pass finds anything represent a lawful state: that of their rows, put one after another.
pub fn accepted_tables_are_opened()
    ensures { AcceptedAreOpened }
{}

/// Tables are read as one list of rows, and are accepted or have one fault, and not both.
pub fn opening_is_one()
    ensures { OpeningIsOne }
{}

/// Tables of version 1 that represent a state are migrated, and then represent that state with every mark as asked.
pub fn migrated_tables_stand()
    ensures { MigratedTablesStand }
{}
