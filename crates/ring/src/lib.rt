// Whole numbers: polynomial identities that are decided by computing, and the order.
#![tactic(auto)]
