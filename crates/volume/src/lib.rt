// A volume of many stripes: definitions and theorems alone.
#![tactic(auto)]
