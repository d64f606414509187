//! Number pools tried: a conversation over a keeper in memory, call by call, and bodies, requests and answers of the web service.
#![tactic(auto)]

#[cfg(test)]
mod json_tests;
#[cfg(test)]
mod rest_tests;
#[cfg(test)]
mod tests;
