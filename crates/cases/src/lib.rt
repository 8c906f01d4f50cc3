// The cases of document 01 that are proved of the definitions: no code.
#![tactic(auto)]
