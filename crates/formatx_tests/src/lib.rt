//! Tests of `formatx`, as a stranger uses it: `rows` prints templates that stand in tables, `calls` makes each public call once.
#![tactic(auto)]

#[cfg(test)]
mod calls;
#[cfg(test)]
mod rows;
