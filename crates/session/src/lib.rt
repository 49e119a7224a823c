// No function: a long session, computed.
#![tactic(auto)]
