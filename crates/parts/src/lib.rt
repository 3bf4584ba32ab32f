// Definitions and proofs alone: what is said of a part of a list, and of the list with another part in its place, by which an entry point on a stripe's
// tables is reused on the parts of a volume's.
#![tactic(auto)]
