// The lettered examples of document 01: a table, and one claim over it.
#![tactic(auto)]
