//! What needs threads that run at once.
#![tactic(auto)]

#[cfg(test)]
mod tests;
