// What test and speed programs share: texts of charts with numbered names, how often to run, and a sum over what came out.
#![tactic(auto)]

pub mod runs;
#[cfg(test)]
mod tests;
pub mod texts;
