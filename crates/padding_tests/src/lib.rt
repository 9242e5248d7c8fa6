//! Fields, fronts and lengths of texts, as a user of `padding` sees them.
#![tactic(auto)]

#[cfg(test)]
mod tests;
