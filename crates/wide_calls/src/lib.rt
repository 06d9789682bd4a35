// Specs only: what the calls on wide symbols share.
#![tactic(auto)]
