//! What crates of laws on typed texts have in common: tests of what may be absent and of lists, and lemmas on them and on sites.
#![tactic(auto)]
