// Definitions and proofs alone: lists by the numbers of their elements, tests, functions with one place changed. Every crate may use them.
#![tactic(auto)]
