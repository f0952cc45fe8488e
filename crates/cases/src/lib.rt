// The cases of document 01: messages written out, and what is told of each, by computing. Nothing here runs.
#![tactic(auto)]
