//! Imports by a program that uses the register as a library: what is answered, and what the log, the book of prefixes and the tables have then.

use inet_num::read_block;
use ipam_data::calls::Call;
use ipam_data::imports::{ImportRow, ImportRows};
use ipam_data::kinds::Kind;
use ipam_data::prefix::PrefixStatus;
use ipam_data::text::Description;
use ipam_keeper::empty::empty_tables;
use ipam_keeper::memory::MemoryKeeper;
use placed_book::Book;
use register_core::{Register, Settings, open};
use std::alloc::{AllocError, Global};
use std::test::Fail;
use stored_tables::tables::Tables;

/// An import a line: its rows, each a prefix with a plus after it if its status is container; what is answered; the entries of the log, the
/// prefixes, and the greatest id that was given by then.
const IMPORTS: &str = "\
10.0.0.0/24 10.0.1.0/24 10.0.2.0/24+;Imported { created: 3, present: 0 };1 3 3
10.0.0.0/24 10.0.1.0/24 10.0.2.0/24+;Imported { created: 0, present: 3 };2 3 3
10.0.3.0/24 0.0.0.0/0;Refused(Row(2, Rule(ZeroMask)));2 3 3
";

/// The rows that the tables have after each of them: the kind, the id and the texts.
const ROWS: &str = "\
Prefixes 1 10.0.0.0/24,,active,,false,false,,
Prefixes 2 10.0.1.0/24,,active,,false,false,,
Prefixes 3 10.0.2.0/24,,container,,false,false,,
";

/// The row of a word. A word that is none fails as for lack of memory.
fn row_of(alloc: Global, word: &str) -> Result<ImportRow, AllocError> {
    let (text, status) = match word.strip_suffix("+") {
        Some(text) => (text, PrefixStatus::Container),
        None => (word, PrefixStatus::Active),
    };
    let Ok(block) = read_block(text.as_bytes()) else {
        return Err(AllocError);
    };
    let Some(description) = Description::of(String::new(alloc)) else {
        return Err(AllocError);
    };
    Ok(ImportRow::Prefix {
        block,
        vrf: None,
        status,
        role: None,
        is_pool: false,
        mark_utilized: false,
        description,
    })
}

/// The rows of a line.
fn rows_of(alloc: Global, line: &str) -> Result<ImportRows, AllocError> {
    let mut rows = Vec::new(alloc);
    for word in line.split(';').next().unwrap_or("").split(' ') {
        rows.push(row_of(alloc, word)?)?;
    }
    Ok(ImportRows::of(rows))
}

/// Imports the rows of a line, and gives the answer with what the register has then, but for the greatest id.
fn imported(
    alloc: Global,
    register: &mut Register<MemoryKeeper>,
    line: &str,
) -> Result<String, AllocError> {
    let rows = rows_of(alloc, line)?;
    let kind = Kind::Prefixes;
    let reply = register.act(1, Call::Import { kind, rows });
    let entries = register.log().len();
    let prefixes = register.prefixes().len();
    format!(in alloc; "{reply:?};{entries} {prefixes}")
}

/// The tables after the first lines, with the answer to the last of them.
fn behind(alloc: Global, lines: usize) -> Result<Option<(String, Tables)>, AllocError> {
    let keeper = MemoryKeeper::new(empty_tables(alloc)?, Vec::new(alloc));
    let settings = Settings {
        global_unique: true,
    };
    let mut register = match open(alloc, keeper, settings) {
        Ok(register) => register,
        Err(refused) => {
            drop(refused);
            return Ok(None);
        }
    };
    let mut said = String::new(alloc);
    for line in IMPORTS.lines().take(lines) {
        said = imported(alloc, &mut register, line)?;
    }
    Ok(Some((said, register.into_keeper().into_tables())))
}

/// The next id of prefixes in tables.
fn next_prefix(tables: &Tables) -> u32 {
    for next in tables.next.as_slice() {
        if let Kind::Prefixes = next.0 {
            return next.1;
        }
    }
    0
}

/// The rows of tables, a line each.
fn rows_told(alloc: Global, tables: &Tables) -> Result<String, AllocError> {
    let mut told = String::new(alloc);
    for row in tables.rows.as_slice() {
        told.push_str(format!(in alloc; "{:?} {} ", row.kind, row.id)?.as_str())?;
        for field in row.fields.as_slice() {
            told.push_str(field.as_str())?;
            told.push(',')?;
        }
        told.push('\n')?;
    }
    Ok(told)
}

#[test]
fn imports_are_calls(rt: HostRuntime) -> Result<(), Fail> {
    let mut number: usize = 0;
    for line in IMPORTS.lines() {
        number = number.saturating_add(1);
        let (said, tables) = behind(rt.alloc(), number)?.expect(&rt, "a register");
        let rows = rows_told(rt.alloc(), &tables)?;
        let greatest = next_prefix(&tables).saturating_sub(1);
        let told = format!(in rt.alloc(); "{said} {greatest}")?;
        let wanted = line.split_once(';').expect(&rt, "an answer").1;
        assert!(rt; told.as_str() == wanted, "{line}: {told}");
        assert_eq!(rt; rows.as_str(), ROWS, "{line}");
    }
    Ok(())
}
