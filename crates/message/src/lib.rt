// What document 01 says of a message, as definitions and laws. Nothing here runs.
#![tactic(auto)]
