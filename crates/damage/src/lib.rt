// What damage to the messages of an interchange leaves of the others, as definitions and laws. Nothing here runs.
#![tactic(auto)]
