// Specs only: what the decoders of wide symbols share.
#![tactic(auto)]
