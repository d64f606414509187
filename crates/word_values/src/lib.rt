//! What the arguments of a command line say: their first one, and the values of options, whatever the commands are.
#![tactic(auto)]

mod statuses;
mod text;
mod values;

pub use statuses::{Statuses, statuses_value};
pub use text::WordText;
pub use values::{
    MOST_CONNECTIONS, MOST_WORKERS, first_word, is_empty_text, is_word, main_name, number_of,
    number_or, number_value, text_or_none, text_value,
};
