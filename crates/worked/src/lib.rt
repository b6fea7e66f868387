// Worked examples of document 01, computed on the definitions of all layers. They stand in specs/; there is no code.
#![tactic(auto)]
