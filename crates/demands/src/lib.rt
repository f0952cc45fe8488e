#![tactic(auto)]

// What document 01 demands, as theorems on the calls' contracts: theorems alone.
