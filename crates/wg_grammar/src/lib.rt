//! Grammars over lists of tokens: what is spelled, and how it is read from left to right.
#![tactic(auto)]
