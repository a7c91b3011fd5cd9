// No code: what is proved here of the definitions of rules, no function relies on.
#![tactic(auto)]
