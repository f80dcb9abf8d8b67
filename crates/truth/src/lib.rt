// Laws of truth values: specs/ only.
#![tactic(auto)]
