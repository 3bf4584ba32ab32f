// Runs of the code: definitions and theorems alone. What demand 3 says of every list of the machine's calls it says of every list of calls of `step::play`,
// and of the entry points of shelf.
#![tactic(auto)]
