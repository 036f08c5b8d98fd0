// Laws of the columns: series and shunt entries are the derivatives of the program's coefficients.
#![tactic(auto)]
