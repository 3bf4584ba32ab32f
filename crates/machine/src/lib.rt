// The machine of document 01 as definitions (specs/), and its guarantee on rebuilds (proofs/). No code stands here.
#![tactic(auto)]
