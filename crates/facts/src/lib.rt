// Laws only: what the grammar says of the statements of every text that is read.
#![tactic(auto)]
