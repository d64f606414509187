//! The commands of an office over a store: `import`, which makes records of the rows of a file, `export`, which prints the records of a kind
//! as one, and `report`, which prints a text about its prefixes. Each opens the register for its one call, and gives its keeper back.
#![tactic(auto)]

mod calls;
mod export;
mod files;
mod import;
mod report;

pub use export::run_export;
pub use files::kind_named;
pub use import::run_import;
pub use report::run_report;
