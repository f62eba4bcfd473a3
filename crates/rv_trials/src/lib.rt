//! The program on trial: runs of each command, worked examples in which each call fails in turn, or whose text is cut
//! at each byte, and each limit met and then passed by one.
#![tactic(auto)]

#[cfg(test)]
mod tests;
