// Laws only: what is recorded before a statement, told by the rows of the accepted statements before it.
#![tactic(auto)]
