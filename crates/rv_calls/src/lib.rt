//! Tests of the libraries' public calls: of those that no command of the program makes, and of what neither a clause
//! nor a command's test shows.
#![tactic(auto)]

#[cfg(test)]
mod tests;
