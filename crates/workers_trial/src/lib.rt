//! Workers over one register, tried: sessions at once and one after another, and clients of a real port.
#![tactic(auto)]

#[cfg(test)]
mod gates;
#[cfg(test)]
mod halves;
#[cfg(test)]
mod ports;
#[cfg(test)]
mod registers;
#[cfg(test)]
mod serving;
#[cfg(test)]
mod sessions;
