//! Tests of admission that read files: each reason to refuse at its limit and one past it, which of several reasons
//! decides, and the models in whole numbers that files become.
#![tactic(auto)]

#[cfg(test)]
mod tests;
