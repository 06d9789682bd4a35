// What the C forms of the calls on wide symbols share: laws alone.
#![tactic(auto)]
