//! Lemmas on the definitions of `mc_model`, which several crates cite: histories, logs and tables
//! that grow, lists of tickets, use and quotas, numbers, and what each step of the shown log keeps.
//! Nothing here runs.
#![tactic(auto)]
